//! What a pass knows. It stands in proofs alone, and no value of it is made.
use std::collections::LinkedList;

/// What a pass of an inbox knows.
pub struct PassView<A> {
    /// 1 where it may take, and else 0.
    pub takes: u64,
    /// What it took.
    pub took: LinkedList<A>,
    /// What it posted, each with its place among all posts.
    pub posts: LinkedList<(u64, A)>,
    /// What each pass posted that was gathered into it.
    pub gathered: LinkedList<LinkedList<(u64, A)>>,
    /// How many of the 16 parts of the right to post it has. Who has all of them knows all posts.
    pub parts: u64,
}
