//! The inbox, and the passes with which threads post and take.
ghost use Rattle.std.specs.Prelude.{◌≡◌, ◌<◌, ◌≤◌, length};
ghost use Rattle.crossbeam_queue.specs.Passes.{view, ruled_capacity};
ghost use Rattle.notify_inbox.specs.declared.limits.TheConstants.{INBOX_PLACES, POSTER_LIMIT};

use crate::steps::InboxRule;
use crate::view::PassView;
use crossbeam_queue::{Pass, RuledArrayQueue};
use exec_instance::answer::Answer;
use std::alloc::Global;

/// A queue of 4,096 places for answers, with one to nine posters and one taker.
#[derive(Drop)]
pub struct Inbox {
    pub(crate) queue: RuledArrayQueue<Answer, PassView<Answer>, InboxRule, Global>,
    pub(crate) posters: u64,
    ghost places: { ruled_capacity queue ≡ INBOX_PLACES },
    ghost most: { posters ≤ POSTER_LIMIT },
}

/// With it a thread posts.
#[derive(Drop)]
pub struct PostPass {
    pub(crate) pass: Pass<Answer, PassView<Answer>>,
    ghost part: { (view pass).parts ≡ 1 },
    ghost alone: { length (view pass).gathered ≡ 0 },
    ghost only_posts: { (view pass).takes ≡ 0 },
}

/// With it a thread takes. It counts how often it found the queue empty.
#[derive(Drop)]
pub struct TakePass {
    pub(crate) pass: Pass<Answer, PassView<Answer>>,
    pub(crate) empties: u64,
    ghost takes: { 0 < (view pass).takes },
}

/// The queue was full. The answer comes back.
#[derive(Drop)]
pub struct Full(pub Answer);
