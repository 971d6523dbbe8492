//! A new inbox, and posts.
ghost use Rattle.std.specs.Prelude.{◌≡◌, ℕ, ◌-◌, ◌≤◌, length, All, IfOk, IfErr, OnErr};
ghost use Rattle.crossbeam_queue.specs.Passes.{view, IsPassOf};
ghost use Rattle.notify_inbox.specs.Views.{all_parts, poster, taker, posted};
ghost use Rattle.notify_inbox.specs.Calls.{take_view, post_view, posters_of, empties_of, IsTakePassOf};
ghost use Rattle.notify_inbox.specs.Calls.{IsPostPassOf, WasFull};
ghost use Rattle.notify_inbox.specs.declared.limits.TheConstants.{POSTER_LIMIT};

use crate::limits::INBOX_PLACES;
use crate::passes::{Full, Inbox, PostPass, TakePass};
use crate::steps::{Give, InboxRule, Post};
use crate::view::PassView;
use crossbeam_queue::{Pass, RuledArrayQueue};
use exec_instance::answer::Answer;
use hh_base::value::NoMemory;
use std::alloc::Global;
use std::sync::Wait;

/// A post pass for each poster.
fn give(
    queue: &RuledArrayQueue<Answer, PassView<Answer>, InboxRule, Global>,
    taking: &mut Pass<Answer, PassView<Answer>>,
    alloc: Global,
    posters: u32,
) -> Result<Vec<PostPass>, NoMemory>
    requires own { IsPassOf queue.now taking.old }
    requires all { view taking.old ≡ all_parts }
    requires few { posters ≤ POSTER_LIMIT }
    ensures own { IsPassOf queue.now taking.new }
    ensures count { IfOk result (λ passes. length passes.items ≡ posters) }
    ensures posters { IfOk result (λ passes.
        All (λ p. IsPassOf queue.now p.pass × (post_view p ≡ poster)) passes.items) }
    ensures taker { IfOk result (λ _. view taking.new ≡ taker (16 - posters)) }
{
    let mut passes = Vec::new(alloc);
    for _ in 0..posters {
        let pass = queue.another::<Give>(taking);
        passes.push(PostPass { pass })?;
    }
    Ok(passes)
}

impl Inbox {
    /// An empty inbox with this many posters, their passes and the pass that takes.
    pub fn new(alloc: Global, posters: u32) -> Result<(Inbox, Vec<PostPass>, TakePass), NoMemory>
        requires { (1 ≤ posters) × (posters ≤ POSTER_LIMIT) }
        ensures posters { IfOk result (λ r. posters_of r.0 ≡ posters) }
        ensures count { IfOk result (λ r. length r.1.items ≡ posters) }
        ensures passes { IfOk result (λ r.
            All (λ p. IsPostPassOf r.0 p × (post_view p ≡ poster)) r.1.items) }
        ensures own { IfOk result (λ r. IsTakePassOf r.0 r.2) }
        ensures taker { IfOk result (λ r. take_view r.2 ≡ taker (16 - posters)) }
        ensures empties { IfOk result (λ r. empties_of r.2 ≡ 0) }
    {
        let (queue, mut pass) = RuledArrayQueue::ruled(alloc, INBOX_PLACES)?;
        let passes = give(&queue, &mut pass, alloc, posters)?;
        let inbox = Inbox {
            queue,
            posters: u64::from(posters),
        };
        Ok((inbox, passes, TakePass { pass, empties: 0 }))
    }

    /// Posts an answer at the end of the queue. Full only where the queue held 4,096 at a moment of this
    /// call, and nothing was posted then. Takes no memory.
    pub fn post<R: Wait>(&self, rt: &R, pass: &mut PostPass, answer: Answer) -> Result<(), Full>
        requires { IsPostPassOf self.now pass.old }
        ensures own { IsPostPassOf self.now pass.new }
        ensures posted { IfOk result (λ _.
            (p : ℕ) × (post_view pass.new ≡ posted (post_view pass.old) p answer)) }
        ensures returned { IfErr result (λ full. full.0 ≡ answer) }
        ensures same { OnErr result (post_view pass.new ≡ post_view pass.old) }
        ensures full { OnErr result (WasFull pass.old) }
    {
        match self.queue.push_as::<Post, R>(rt, &mut pass.pass, answer) {
            Ok(()) => Ok(()),
            Err(answer) => Err(Full(answer)),
        }
    }
}
