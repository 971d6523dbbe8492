//! The cell.
ghost use Rattle.std.specs.Prelude.{◌≡◌};

use crate::steps::TurnRule;
use crate::storied::Storied;
use crate::view::SeatView;
use atomic_table::Table;
use std::alloc::Global;
use std::snapshot::Snapshot;

/// A value behind a ticket lock: a thread draws the next ticket, waits until it is served, works on the
/// value, and then the next ticket is served.
#[derive(Drop)]
pub struct TurnCell<T: Storied> {
    pub(crate) table: Table<Option<T>, SeatView<T::Entry, T::Start>, Snapshot<T>, TurnRule, Global>,
    ghost sized: { (table.shared.table_id.words ≡ 2) × (table.shared.table_id.slots ≡ 1) },
}
