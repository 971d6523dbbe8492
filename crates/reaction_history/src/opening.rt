//! The beginning of a shared machine.
ghost use Rattle.std.specs.Prelude.{◌≡◌, ◌≤◌, [], All, IfOk, length};
ghost use Rattle.turn_cell.specs.Calls.{view};
ghost use Rattle.turn_cell.specs.Views.{first_view};
ghost use Rattle.notify_inbox.specs.Views.{poster};
ghost use Rattle.notify_inbox.specs.Calls.{post_view, posters_of, IsPostPassOf};
ghost use Rattle.reaction_desk.specs.declared.desk.Opening.{Opening as AnOpening};
ghost use Rattle.reaction_history.specs.Calls.{IsSeatOf};
ghost use Rattle.notify_inbox.specs.declared.limits.TheConstants.{POSTER_LIMIT};

use crate::shared::Shared;
use hh_base::value::NoMemory;
use hh_term::program::SignalDecl;
use notify_inbox::passes::{Inbox, PostPass};
use reaction_desk::desk::Desk;
use reaction_run::reactor::Reactor;
use std::alloc::Global;
use turn_cell::cell::TurnCell;
use turn_cell::seat::Seat;

/// A copy of the declarations, in their order.
fn copy_signals(alloc: Global, signals: &[SignalDecl]) -> Result<Vec<SignalDecl>, NoMemory>
    ensures { IfOk result (λ v. v.items ≡ signals.now) }
{
    let mut copies = Vec::with_capacity(alloc, signals.len())?;
    for signal in signals {
        copies.push(signal.copy(alloc)?)?;
    }
    Ok(copies)
}

impl<M: Reactor + Drop> Shared<M> {
    /// A shared machine with an empty history, its first seat, which has 2^63 turns, and a pass for each
    /// poster. Nothing waits in the machine.
    pub fn new(
        alloc: Global,
        machine: M,
        posters: u32,
    ) -> Result<(Shared<M>, Seat<Desk<M>>, Vec<PostPass>), NoMemory>
        requires few { (1 ≤ posters) × (posters ≤ POSTER_LIMIT) }
        requires none { (M.state machine).pending ≡ [] }
        ensures own { IfOk result (λ r. IsSeatOf r.0 r.1) }
        ensures first { IfOk result (λ r.
            (b : AnOpening M) × (b.machine ≡ machine) × (view r.1 ≡ first_view b)) }
        ensures posters { IfOk result (λ r. posters_of r.0.inbox ≡ posters) }
        ensures count { IfOk result (λ r. length r.2.items ≡ posters) }
        ensures passes { IfOk result (λ r.
            All (λ p. IsPostPassOf r.0.inbox p × (post_view p ≡ poster)) r.2.items) }
    {
        let interface = copy_signals(alloc, machine.interface())?;
        let (inbox, passes, pass) = Inbox::new(alloc, posters)?;
        let desk = Desk::open(alloc, machine, pass)?;
        let (cell, seat) = TurnCell::new(alloc, desk)?;
        let shared = Shared {
            cell,
            inbox,
            interface,
        };
        Ok((shared, seat, passes))
    }
}
