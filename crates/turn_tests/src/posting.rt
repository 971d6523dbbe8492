//! A thread that posts beside one that takes.
ghost use Rattle.std.specs.Prelude.{◌≡◌, All, IfSome};
ghost use Rattle.notify_inbox.specs.Calls.{IsTakePassOf, IsPostPassOf};

use exec_instance::answer::Answer;
use hh_base::value::{NoMemory, Value};
use notify_inbox::passes::{Full, Inbox, PostPass, TakePass};
use std::alloc::Global;
use std::sync::Wait;
use std::thread::{Threads, join, yield_now};

/// A last answer to this id, with a unit value.
pub fn answer_to(id: u64) -> Answer
    ensures { result.id ≡ id }
{
    Answer {
        id,
        value: Value::Unit,
        last: true,
    }
}

/// The last of some passes.
pub fn last_pass(inbox: &Inbox, passes: &mut Vec<PostPass>) -> Option<PostPass>
    requires { All (λ p. IsPostPassOf inbox.now p) passes.old.items }
    ensures { IfSome result (λ p. IsPostPassOf inbox.now p) }
{
    passes.pop()
}

/// Posts an answer to each id from 0 to below count, and says whether the queue took all of them.
pub fn post_each<R: Wait>(rt: &R, inbox: &Inbox, pass: &mut PostPass, count: u64) -> bool
    requires { IsPostPassOf inbox.now pass.old }
    ensures { IsPostPassOf inbox.now pass.new }
{
    let mut taken = true;
    for id in 0..count {
        taken &= inbox.post(rt, pass, answer_to(id)).is_ok();
    }
    taken
}

/// Posts them again until the queue takes them.
fn post_all<R: Wait>(rt: &R, inbox: &Inbox, mut pass: PostPass, count: u64) -> PostPass
    requires { IsPostPassOf inbox.now pass }
    ensures { IsPostPassOf inbox.now result }
{
    let mut id = 0;
    for _ in rt.forever() {
        if id >= count {
            return pass;
        }
        match inbox.post(rt, &mut pass, answer_to(id)) {
            Ok(()) => id += 1,
            Err(Full(_)) => yield_now(),
        }
    }
    unreachable!()
}

/// Takes until so many were taken.
fn take_count<R: Wait>(
    rt: &R,
    alloc: Global,
    inbox: &Inbox,
    mut pass: TakePass,
    count: usize,
) -> Result<Vec<Answer>, NoMemory>
    requires { IsTakePassOf inbox.now pass }
{
    let mut taken = Vec::new(alloc);
    for _ in rt.forever() {
        if taken.len() >= count {
            return Ok(taken);
        }
        match inbox.take_one(rt, &mut pass) {
            Some(answer) => taken.push(answer)?,
            None => yield_now(),
        }
    }
    unreachable!()
}

/// What one thread took while another posted answers to the ids from 0 to below count.
pub fn post_beside<R: Threads + Wait + Sync>(
    rt: &R,
    alloc: Global,
    count: u32,
) -> Option<Vec<Answer>> {
    let (inbox, mut passes, taking) = Inbox::new(alloc, 1).ok()?;
    let posting = last_pass(&inbox, &mut passes)?;
    let (_, taken) = join(
        rt,
        || -> PostPass
            requires { IsPostPassOf inbox posting }
        { post_all(rt, &inbox, posting, u64::from(count)) },
        || -> Result<Vec<Answer>, NoMemory>
            requires { IsTakePassOf inbox taking }
        { take_count(rt, alloc, &inbox, taking, count as usize) },
    );
    taken.ok()
}
