//! The last walk over a whole program.

ghost use Rattle.std.specs.Prelude.{◌≡◌, ◌<◌, ◌≤◌, [], length, IfOk};
ghost use Rattle.host_expr.specs.Environment.{env_of};
ghost use Rattle.hh_term.specs.MustCan.{table_of};
ghost use Rattle.hh_term.specs.ProgramView.{kernel_of};
ghost use Rattle.hh_term.specs.Views.{control_in};
ghost use Rattle.last_walk.specs.Whole.{RanBy, Runs};
ghost use Rattle.status_table.specs.TableView.{cells_in};
ghost use Rattle.status_table.specs.Walking.{Fits};
ghost use Rattle.status_table.specs.WholeProgram.{program_flat_step};

use crate::completion::Completion;
use crate::last_pass::LastPass;
use crate::walk::{Place, resume, start};
use hh_base::value::NoMemory;
use hh_term::mark::{Control, Mark, Marked};
use hh_term::program::Program;
use status_table::state::Statuses;
use std::alloc::Global;

/// What a program did: its completion code, None where it had ended before, and where control rests in it then.
#[derive(Drop)]
pub struct Ran {
    pub code: Option<u16>,
    pub next: Option<Mark>,
}

fn run_of(end: Option<Completion>) -> Option<Ran>
    ensures { RanBy end result }
{
    match end {
        Some(Completion { code, next }) => Some(Ran {
            code: Some(code),
            next,
        }),
        None => None,
    }
}

/// Walks the program where its control rests. The answer is None where the status or the value of a local
/// signal that it meets is unknown, or a test or an argument.
pub fn walk(
    alloc: Global,
    program: &Program,
    marked: &Marked,
    table: &Statuses,
    pass: &mut LastPass,
) -> Result<Option<Ran>, NoMemory>
    requires fits { Fits (length pass.old.cells.signals.items) (length table.now.rows.items) 0
        (kernel_of program.now).statement }
    requires emitted { length pass.old.emitted.items ≡ length pass.old.cells.signals.items }
    requires args { pass.old.cells.args.items ≡ [] }
    requires declared { length pass.old.cells.signals.items ≤ length (kernel_of program.now).signals }
    requires levels { 0 < length table.now.rows.items }
    ensures { IfOk result (λ r. Runs (table_of (kernel_of program.now)) (program_flat_step
        (table_of (kernel_of program.now)) (cells_in table.now) (kernel_of program.now).statement
        (control_in marked.now) (env_of pass.old.cells.signals.items)) r pass.old pass.new) }
{
    let at = Place { depth: 0, level: 0 };
    match marked.control() {
        Control::Fresh => {
            let end = start(alloc, program, table, program.term(), at, pass)?;
            Ok(run_of(end))
        }
        Control::At(mark) => {
            let end = resume(alloc, program, table, program.term(), mark, at, pass)?;
            Ok(run_of(end))
        }
        Control::Ended => Ok(Some(Ran {
            code: None,
            next: None,
        })),
    }
}
