//! The history for which a desk stands.

use crate::desk::{Desk, Opening};
use reaction_run::log::Entry;
use reaction_run::reactor::Reactor;
use turn_cell::storied::Storied;

impl<M: Reactor> Storied for Desk<M> {
    type Entry = Entry;

    type Start = Opening<M>;

    ghost use Rattle.reaction_desk.specs.Desks.{log_of, opening_of};

    ghost story = { λ d. log_of d };

    ghost begins = { λ d. opening_of d };
}
