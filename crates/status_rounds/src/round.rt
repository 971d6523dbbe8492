//! One round.

ghost use Rattle.std.specs.Prelude.{◌≡◌, ◌<◌, ◌≤◌, [], length, IfOk, OnOk};
ghost use Rattle.host_expr.specs.Environment.{env_of};
ghost use Rattle.hh_term.specs.MustCan.{table_of, gives, Executed};
ghost use Rattle.hh_term.specs.ProgramView.{kernel_of};
ghost use Rattle.hh_term.specs.Views.{control_in};
ghost use Rattle.status_table.specs.TableView.{cells_in};
ghost use Rattle.status_table.specs.Walking.{AllPut, Fits, Tallied};
ghost use Rattle.status_rounds.specs.Given.{given_all};
ghost use Rattle.status_rounds.specs.Rounds.{Concluded, Conclusions, HasPlace, PutsOne, Ready, Seen, Taken};
ghost use Rattle.status_rounds.specs.Rounds.{Went, shape_of};

use hh_base::value::{NoMemory, Value};
use hh_term::mark::{Control, Marked};
use hh_term::program::Program;
use host_expr::cell::Cell;
use status_table::declared::kind_of;
use status_table::state::{Pass, Raise, Statuses, add_executed};
use status_table::tally::{Known, Tally};
use status_table::walk::{Place, resume, start};
use std::alloc::Global;
use std::mem;

/// Counts the given inputs as emissions.
fn give(
    alloc: Global,
    program: &Program,
    inputs: &[(u32, Value)],
    tallies: &mut Vec<Tally>,
) -> Result<(), NoMemory>
    ensures { OnOk result (Tallied (table_of (kernel_of program.now))
        (gives (given_all inputs.now) 0 Executed) tallies.old.items tallies.new.items) }
{
    for input in inputs {
        let cell = Cell::Known(input.1.copy(alloc)?);
        add_executed(alloc, program, input.0, cell, tallies)?;
    }
    Ok(())
}

/// Walks the program where its control rests.
fn visit(
    alloc: Global,
    program: &Program,
    marked: &Marked,
    table: &Statuses,
    pass: &mut Pass,
) -> Result<(), NoMemory>
    requires fits { Fits (length pass.old.cells.signals.items) (length table.now.rows.items) 0
        (kernel_of program.now).statement }
    requires tallies { length pass.old.tallies.items ≡ length pass.old.cells.signals.items }
    requires args { pass.old.cells.args.items ≡ [] }
    requires declared { length pass.old.cells.signals.items ≤ length (kernel_of program.now).signals }
    requires levels { 0 < length table.now.rows.items }
    ensures { OnOk result (Seen (table_of (kernel_of program.now)) (cells_in table.now)
        (kernel_of program.now).statement (control_in marked.now) pass.old pass.new) }
{
    let at = Place {
        depth: 0,
        level: 0,
        sure: true,
    };
    let mut codes = [false; 258];
    match marked.control() {
        Control::Fresh => {
            start(alloc, program, table, program.term(), at, pass, &mut codes)?;
            Ok(())
        }
        Control::At(mark) => {
            resume(
                alloc,
                program,
                table,
                program.term(),
                mark,
                at,
                pass,
                &mut codes,
            )?;
            Ok(())
        }
        Control::Ended => Ok(()),
    }
}

/// Gives a signal of the interface the status and the value that its emissions make, and tells whether that
/// is more than was known.
fn conclude(
    alloc: Global,
    program: &Program,
    signal: u32,
    pass: &mut Pass,
) -> Result<bool, NoMemory>
    requires cell { signal < length pass.old.cells.signals.items }
    requires tally { signal < length pass.old.tallies.items }
    ensures { IfOk result (λ changed. Concluded (table_of (kernel_of program.now)) signal changed pass.old
        pass.new) }
{
    let tally = mem::replace(&mut pass.tallies[signal as usize], Tally::new());
    let cell = &mut pass.cells.signals[signal as usize];
    let known = tally.solved(alloc, kind_of(program, signal), cell.preval.copy(alloc)?);
    let before = Known {
        status: cell.status,
        value: mem::replace(&mut cell.value, Cell::Unknown),
    };
    let changed = !known.is_same(&before);
    cell.status = known.status;
    cell.value = known.value;
    Ok(changed)
}

/// Concludes each signal of the interface, and tells whether more is known of one.
fn conclude_all(alloc: Global, program: &Program, pass: &mut Pass) -> Result<bool, NoMemory>
    requires cells { (kernel_of program.now).interface ≤ length pass.old.cells.signals.items }
    requires tallies { (kernel_of program.now).interface ≤ length pass.old.tallies.items }
    ensures { IfOk result (λ changed. Conclusions (table_of (kernel_of program.now))
        (kernel_of program.now).interface changed pass.old pass.new) }
{
    let mut changed = false;
    for signal in 0..program.interface_len() {
        changed |= conclude(alloc, program, signal, pass)?;
    }
    Ok(changed)
}

/// Puts a raise into the table.
fn put(table: &mut Statuses, raise: Raise)
    requires { HasPlace (shape_of table.old) raise.signal raise.level }
    ensures puts { PutsOne raise (cells_in table.old) (cells_in table.new) }
    ensures shape { shape_of table.new ≡ shape_of table.old }
{
    let row = &mut table.rows[raise.level];
    row[raise.signal as usize] = raise.known;
}

/// Puts all raises into the table.
fn put_raises(table: &mut Statuses, raised: &mut Vec<Raise>)
    requires { AllPut (λ s n v. HasPlace (shape_of table.old) s n) raised.old.items }
    ensures taken { Taken raised.old.items (cells_in table.old) (cells_in table.new) }
    ensures shape { shape_of table.new ≡ shape_of table.old }
    ensures none { raised.new.items ≡ [] }
{
    while let Some(raise) = raised.pop() {
        put(table, raise);
    }
}

/// One round: walks the program, concludes its interface and raises the table. Tells whether that changed
/// something.
pub fn round(
    alloc: Global,
    program: &Program,
    marked: &Marked,
    inputs: &[(u32, Value)],
    table: &mut Statuses,
    pass: &mut Pass,
) -> Result<bool, NoMemory>
    requires { Ready (kernel_of program.now) table.old pass.old }
    ensures ready { OnOk result (Ready (kernel_of program.now) table.new pass.new) }
    ensures went { IfOk result (λ more. Went (kernel_of program.now) (control_in marked.now) inputs.now more
        (env_of pass.old.cells.signals.items) (env_of pass.new.cells.signals.items) (cells_in table.old)
        (cells_in table.new)) }
{
    give(alloc, program, inputs, &mut pass.tallies)?;
    visit(alloc, program, marked, table, pass)?;
    let changed = conclude_all(alloc, program, pass)?;
    let raises = !pass.raised.is_empty();
    put_raises(table, &mut pass.raised);
    Ok(changed | raises)
}
