//! The beginning and the end of a desk.
ghost use Rattle.std.specs.Prelude.{◌≡◌, ◌-◌, ◌+◌, ◌≤◌, ◌++◌, [], length, map, All, IfOk, vec_len};
ghost use Rattle.std.specs.Prelude.{vec_capacity};
ghost use Rattle.reaction_run.specs.Legal.{events_of};
ghost use Rattle.reaction_run.specs.Run.{final_state};
ghost use Rattle.notify_inbox.specs.Views.{taker};
ghost use Rattle.notify_inbox.specs.Calls.{take_view, posts_in, posters_of, IsTakePassOf, IsPostPassOf};
ghost use Rattle.reaction_desk.specs.Closing.{Posted};
ghost use Rattle.reaction_desk.specs.Desks.{TakesFrom, opening_of, log_of};

use crate::desk::Desk;
use crate::logged::Logged;
use crate::origin::Origin;
use exec_instance::answer::{Answer, Answers};
use hh_base::value::NoMemory;
use notify_inbox::passes::{Inbox, PostPass, TakePass};
use reaction_run::log::Log;
use reaction_run::reactor::Reactor;
use std::alloc::Global;
use std::sync::Wait;

/// What is left of a desk: the machine, its log, and the answers that wait in the machine, those that were
/// taken and are not in the log, and those that were in the inbox, in this order.
#[derive(Drop)]
pub struct Closed<M> {
    pub machine: M,
    pub log: Log,
    pub left: Answers,
}

/// No answers, with room for those that are left at the end.
fn no_answers(alloc: Global) -> Result<Vec<Answer>, NoMemory>
    ensures items { IfOk result (λ v. v.items ≡ []) }
    ensures room { IfOk result (λ v. vec_len v + 8192 ≤ vec_capacity v) }
{
    let mut none = Vec::new(alloc);
    none.reserve(8192)?;
    Ok(none)
}

/// Adds answers for which there is room.
fn add_all(into: &mut Vec<Answer>, mut from: Vec<Answer>)
    requires { vec_len into.old + length from.items ≤ vec_capacity into.old }
    ensures items { into.new.items ≡ into.old.items ++ from.items }
    ensures room { vec_capacity into.old ≤ vec_capacity into.new }
{
    if into.append(&mut from).is_err() {
        unreachable!()
    }
}

impl<M: Reactor + Drop> Desk<M> {
    /// A desk with an empty log, at which the machine takes with this pass. Nothing waits in the machine.
    pub fn open(alloc: Global, machine: M, pass: TakePass) -> Result<Desk<M>, NoMemory>
        requires rests { pass.pass.me.1 ≡ [] }
        requires none { (M.state machine).pending ≡ [] }
        ensures opening { IfOk result (λ d. opening_of d ≡ record { machine = machine; pass = pass }) }
        ensures log { IfOk result (λ d. log_of d ≡ []) }
    {
        let pending = no_answers(alloc)?;
        let first = Origin::of(&machine);
        let first_pass = Origin::of(&pass);
        let logged = Logged {
            machine,
            log: Log::new(alloc),
            pending,
            first,
        };
        Ok(Desk {
            logged,
            pass,
            waiting: Answers::new(alloc),
            first_pass,
        })
    }

    /// The end of a desk, with the posts of these passes of its inbox. Takes no memory.
    pub fn close<R: Wait>(self, rt: &R, inbox: &Inbox, passes: &mut Vec<PostPass>) -> Closed<M>
        requires inbox { TakesFrom inbox.now (opening_of self).pass }
        requires taker { take_view (opening_of self).pass ≡ taker (16 - posters_of inbox.now) }
        requires none { (M.state (opening_of self).machine).pending ≡ [] }
        requires passes { All (λ p. IsPostPassOf inbox.now p) passes.old.items }
        ensures log { result.log ≡ log_of self }
        ensures state { ∥ M.state result.machine
            ≡ final_state M.machine (M.state (opening_of self).machine) (events_of result.log) ∥₁ }
        ensures posted { Posted result.log result.left (map posts_in passes.old.items) (posters_of inbox.now) }
    {
        let Desk {
            logged,
            mut pass,
            waiting,
            first_pass: _,
        } = self;
        let Logged {
            machine,
            log,
            pending: mut left,
            first: _,
        } = logged;
        inbox.gather(&mut pass, passes);
        add_all(&mut left, waiting.into_vec());
        inbox.drain(rt, &mut pass, &mut left);
        let left = Answers::from_vec(left);
        Closed { machine, log, left }
    }
}
