//! The shared machine: a cell whose value is a desk, and the inbox from which the desk takes.

use hh_term::program::SignalDecl;
use notify_inbox::passes::Inbox;
use reaction_desk::desk::Desk;
use reaction_run::reactor::Reactor;
use turn_cell::cell::TurnCell;

/// A machine that threads share. They take turns at its desk, and post to its inbox in no turn.
#[derive(Drop)]
pub struct Shared<M: Reactor> {
    pub(crate) cell: TurnCell<Desk<M>>,
    pub(crate) inbox: Inbox,
    /// A copy of the interface of the machine.
    pub(crate) interface: Vec<SignalDecl>,
}
