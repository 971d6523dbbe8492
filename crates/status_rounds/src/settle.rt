//! The rounds of a reaction.

ghost use Rattle.std.specs.Prelude.{◌≡◌, length, IfOk};
ghost use Rattle.hh_term.specs.ProgramView.{kernel_of};
ghost use Rattle.hh_term.specs.Reaction.{outers_from};
ghost use Rattle.hh_term.specs.Views.{control_in};
ghost use Rattle.status_rounds.specs.Before.{lasts_of};
ghost use Rattle.status_rounds.specs.Given.{NoneTwice};
ghost use Rattle.status_rounds.specs.Settled.{IsSettled};

use crate::opening::{loops_round, opened, table, tallies};
use crate::round::round;
use hh_base::value::{NoMemory, Value};
use hh_term::mark::Marked;
use hh_term::program::Program;
use host_expr::cell::Cells;
use status_table::state::{Pass, Statuses};
use std::alloc::Global;

/// The status and the value of each interface signal in the last accepted reaction, in order of declaration.
#[derive(Drop)]
pub struct Before {
    pub cells: Vec<(bool, Value)>,
}

/// What rounds come to: the table, and a cell for each signal, of which those of the interface are solved.
#[derive(Drop)]
pub struct Settled {
    pub table: Statuses,
    pub cells: Cells,
}

/// Raises a table in rounds until nothing changes, from these last statuses and values of the interface and
/// these given inputs.
pub fn settle(
    alloc: Global,
    program: &Program,
    marked: &Marked,
    before: &Before,
    inputs: &[(u32, Value)],
) -> Result<Settled, NoMemory>
    requires before { length before.now.cells.items ≡ (kernel_of program.now).interface }
    requires inputs { NoneTwice inputs.now }
    ensures { IfOk result (λ s. IsSettled (kernel_of program.now) (control_in marked.now)
        (outers_from 0 inputs.now (lasts_of before.now.cells.items)) s) }
{
    let count = program.signals().len();
    let levels = loops_round(program.term()) + 1;
    let mut table = table(alloc, levels, count)?;
    let cells = Cells {
        signals: opened(alloc, program, &before.cells)?,
        args: Vec::new(alloc),
    };
    let mut pass = Pass {
        cells,
        tallies: tallies(alloc, count)?,
        raised: Vec::new(alloc),
    };
    'rounds: while round(alloc, program, marked, inputs, &mut table, &mut pass)? {}
    Ok(Settled {
        table,
        cells: pass.cells,
    })
}
