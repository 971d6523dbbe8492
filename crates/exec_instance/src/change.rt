//! What a reaction did to an instance.

use hh_base::text::Text;
use hh_base::value::Values;

/// What a reaction did to one instance: to the running one with this id, or to one that it started with these
/// arguments, which has no id yet.
///
/// It used an answer that was not its last, ended with its last one, was held by a suspend, was resumed, and
/// runs after the reaction. The texts are the actions that its async names for a kill, a suspension and a
/// resumption.
#[derive(Drop)]
pub struct Change {
    pub id: u64,
    pub body: u32,
    pub started: Option<Values>,
    pub used: bool,
    pub ended: bool,
    pub held: bool,
    pub resumed: bool,
    pub runs_after: bool,
    pub kill: Option<Text>,
    pub suspend: Option<Text>,
    pub resume: Option<Text>,
}
