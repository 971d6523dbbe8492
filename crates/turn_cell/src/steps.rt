//! The rule of the turns, and what each kind of step tells.
ghost use Rattle.turn_cell.specs.Rule.{IsTurnState};
ghost use Rattle.turn_cell.specs.Steps.{DrawsTicket, LooksForTurn, LeavesTurn, ClearsNote};
ghost use Rattle.turn_cell.specs.Views.{first_view, joined_away, kept_half, given_half, noted_both};

use crate::storied::Storied;
use crate::view::SeatView;
use atomic_table::{Join, Play, Split, TableRule};
use std::snapshot::Snapshot;

pub struct TurnRule;

impl<T: Storied> TableRule<Option<T>, SeatView<T::Entry, T::Start>, Snapshot<T>> for TurnRule {
    ghost holds = { λ key. IsTurnState T.story T.begins (T.begins key.value) };

    ghost first = { λ key. first_view (T.begins key.value) };
}

pub(crate) struct Draw;

impl<T: Storied> Play<Option<T>, SeatView<T::Entry, T::Start>> for Draw {
    ghost then = { DrawsTicket };
}

pub(crate) struct Look;

impl<T: Storied> Play<Option<T>, SeatView<T::Entry, T::Start>> for Look {
    ghost then = { LooksForTurn T.story T.begins };
}

pub(crate) struct Leave;

impl<T: Storied> Play<Option<T>, SeatView<T::Entry, T::Start>> for Leave {
    ghost then = { LeavesTurn T.story };
}

pub(crate) struct ClearNote;

impl<T: Storied> Play<Option<T>, SeatView<T::Entry, T::Start>> for ClearNote {
    ghost then = { ClearsNote };
}

pub(crate) struct Halve;

impl<E, B> Split<SeatView<E, B>> for Halve {
    ghost left = { kept_half };

    ghost right = { given_half };
}

pub(crate) struct Unite;

impl<E, B> Join<SeatView<E, B>> for Unite {
    ghost both = { noted_both };

    ghost spent = { joined_away };
}
