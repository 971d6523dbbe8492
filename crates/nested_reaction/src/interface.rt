//! The interface of a program as the outermost scopes of a reaction, solved one inside another.

ghost use Rattle.std.specs.Prelude.{◌≡◌, ◌+◌, ◌<◌, ◌≤◌, [], suc, length, IfOk};
ghost use Rattle.host_expr.specs.Environment.{blank, environment_of};
ghost use Rattle.hh_term.specs.MustCan.{round, table_of};
ghost use Rattle.hh_term.specs.ProgramView.{kernel_of};
ghost use Rattle.hh_term.specs.Reaction.{Last, given_bag, nest, nothing_done, outers_from, solved, solved_cell};
ghost use Rattle.hh_term.specs.Reaction.{with_given};
ghost use Rattle.hh_term.specs.Views.{control_in};
ghost use Rattle.nested_reaction.specs.View.{body_of, last_at, lasts_of, must_can_of, outer_at};

use crate::bag::Bag;
use crate::environment::{copy_signal, unsolved, with};
use crate::must_can::{MustCan, hide, raised};
use crate::walk::{resume, start};
use hh_base::value::{NoMemory, Value};
use hh_term::mark::{Control, Marked};
use hh_term::program::Program;
use host_expr::cell::{Cell, Cells, SigCell};
use std::alloc::Global;

/// The value given to the signal, as an emission.
fn given(alloc: Global, inputs: &[(u32, Value)], signal: u32) -> Result<Bag, NoMemory>
    ensures { IfOk result (λ b. (l : Last) → b.items ≡ given_bag (outer_at inputs.now signal l)) }
{
    match inputs {
        [] => Ok(Vec::new(alloc)),
        [first, rest @ ..] => {
            if first.0 != signal {
                return given(alloc, rest, signal);
            }
            let mut bag = Vec::new(alloc);
            bag.push((signal, Cell::Known(first.1.copy(alloc)?)))?;
            Ok(bag)
        }
    }
}

/// A given input is one more emission.
fn with_given(
    alloc: Global,
    inputs: &[(u32, Value)],
    signal: u32,
    mut body: MustCan,
) -> Result<MustCan, NoMemory>
    ensures { IfOk result (λ a. (l : Last) →
        must_can_of a ≡ with_given (outer_at inputs.now signal l) (must_can_of body)) }
{
    let mut must = given(alloc, inputs, signal)?;
    must.append(&mut body.must)?;
    let mut can = given(alloc, inputs, signal)?;
    can.append(&mut body.can)?;
    body.must = must;
    body.can = can;
    Ok(body)
}

/// A program that has ended does nothing.
fn nothing_done(alloc: Global) -> MustCan
    ensures { must_can_of result ≡ nothing_done }
{
    MustCan {
        must: Vec::new(alloc),
        code: None,
        can: Vec::new(alloc),
        codes: [false; 258],
    }
}

/// What the program must and can do where its control rests.
fn walk(
    alloc: Global,
    program: &Program,
    marked: &Marked,
    cells: &Cells,
) -> Result<MustCan, NoMemory>
    requires { cells.now.args.items ≡ [] }
    ensures { IfOk result (λ a. must_can_of a ≡ body_of (kernel_of program.now) (control_in marked.now)
        (environment_of cells.now)) }
{
    match marked.control() {
        Control::Fresh => start(alloc, program, program.term(), true, cells),
        Control::At(mark) => resume(alloc, program, program.term(), mark, true, cells),
        Control::Ended => Ok(nothing_done(alloc)),
    }
}

/// The next signal of the interface.
fn next(program: &Program, signal: u32) -> u32
    requires { signal < (kernel_of program.now).interface }
    ensures { result ≡ suc signal }
{
    signal.saturating_add(1).min(program.interface_len())
}

/// What the program must and can do inside the scopes of the signals of the interface from this one on,
/// which had these last statuses and values.
#[cycle(nest)]
fn nest(
    alloc: Global,
    program: &Program,
    marked: &Marked,
    inputs: &[(u32, Value)],
    signal: u32,
    lasts: &[(bool, Value)],
    cells: &Cells,
) -> Result<MustCan, NoMemory>
    requires args { cells.now.args.items ≡ [] }
    requires signals { signal + length lasts.now ≤ (kernel_of program.now).interface }
    ensures { IfOk result (λ a. must_can_of a ≡ nest (table_of (kernel_of program.now))
        (outers_from signal inputs.now (lasts_of lasts.now))
        (body_of (kernel_of program.now) (control_in marked.now))
        (environment_of cells.now)) }
{
    match lasts {
        [] => walk(alloc, program, marked, cells),
        [last, rest @ ..] => {
            let cell = solved_cell(alloc, program, marked, inputs, signal, last, rest, cells)?;
            let inner = with(alloc, cells, signal, cell)?;
            let body = nest(
                alloc,
                program,
                marked,
                inputs,
                next(program, signal),
                rest,
                &inner,
            )?;
            let body = with_given(alloc, inputs, signal, body)?;
            hide(alloc, signal, body)
        }
    }
}

/// One round over a signal of the interface; `rest` are the last statuses and values of those behind it.
#[cycle(nest)]
#[inline(never)]
fn interface_round(
    alloc: Global,
    program: &Program,
    marked: &Marked,
    inputs: &[(u32, Value)],
    signal: u32,
    rest: &[(bool, Value)],
    cells: &Cells,
    cell: SigCell,
) -> Result<SigCell, NoMemory>
    requires signals { signal + length rest.now < (kernel_of program.now).interface }
    ensures { IfOk result (λ d. (l : Last) → d ≡ round (table_of (kernel_of program.now)) signal
        (λ F. with_given (outer_at inputs.now signal l) (nest (table_of (kernel_of program.now))
        (outers_from (suc signal) inputs.now (lasts_of rest.now))
        (body_of (kernel_of program.now) (control_in marked.now)) F))
        (environment_of cells.now) cell) }
{
    let inner = with(alloc, cells, signal, copy_signal(alloc, &cell)?)?;
    let body = nest(
        alloc,
        program,
        marked,
        inputs,
        next(program, signal),
        rest,
        &inner,
    )?;
    let body = with_given(alloc, inputs, signal, body)?;
    raised(alloc, program, signal, &cell, &body)
}

/// A signal of the interface in two rounds.
#[cycle(nest)]
#[inline(never)]
fn solved_cell(
    alloc: Global,
    program: &Program,
    marked: &Marked,
    inputs: &[(u32, Value)],
    signal: u32,
    last: &(bool, Value),
    rest: &[(bool, Value)],
    cells: &Cells,
) -> Result<SigCell, NoMemory>
    requires signals { signal + length rest.now < (kernel_of program.now).interface }
    ensures { IfOk result (λ d. d ≡ solved_cell (table_of (kernel_of program.now))
        (outer_at inputs.now signal (last_at last.now)) (nest (table_of (kernel_of program.now))
        (outers_from (suc signal) inputs.now (lasts_of rest.now))
        (body_of (kernel_of program.now) (control_in marked.now)))
        (environment_of cells.now)) }
{
    let opened = unsolved(last.0, last.1.copy(alloc)?);
    let once = interface_round(alloc, program, marked, inputs, signal, rest, cells, opened)?;
    interface_round(alloc, program, marked, inputs, signal, rest, cells, once)
}

fn solved(
    alloc: Global,
    program: &Program,
    marked: &Marked,
    inputs: &[(u32, Value)],
    signal: u32,
    lasts: &[(bool, Value)],
    cells: Cells,
) -> Result<Cells, NoMemory>
    requires signals { signal + length lasts.now ≤ (kernel_of program.now).interface }
    ensures { IfOk result (λ c. environment_of c ≡ solved (table_of (kernel_of program.now))
        (outers_from signal inputs.now (lasts_of lasts.now))
        (body_of (kernel_of program.now) (control_in marked.now))
        (environment_of cells)) }
{
    match lasts {
        [] => Ok(cells),
        [last, rest @ ..] => {
            let cell = solved_cell(alloc, program, marked, inputs, signal, last, rest, &cells)?;
            let inner = with(alloc, &cells, signal, cell)?;
            solved(
                alloc,
                program,
                marked,
                inputs,
                next(program, signal),
                rest,
                inner,
            )
        }
    }
}

/// What is known of the interface in the reaction of the program where its control rests, after these last
/// statuses and values of its interface, to these inputs. A signal that the cells do not have is not of the
/// interface.
pub fn solve(
    alloc: Global,
    program: &Program,
    marked: &Marked,
    before: &[(bool, Value)],
    inputs: &[(u32, Value)],
) -> Result<Cells, NoMemory>
    requires { length before.now ≡ (kernel_of program.now).interface }
    ensures { IfOk result (λ c. environment_of c ≡ solved (table_of (kernel_of program.now))
        (outers_from 0 inputs.now (lasts_of before.now))
        (body_of (kernel_of program.now) (control_in marked.now)) blank) }
{
    let cells = Cells {
        signals: Vec::new(alloc),
        args: Vec::new(alloc),
    };
    solved(alloc, program, marked, inputs, 0, before, cells)
}
