//! What is said of a signal where its scope is left.

ghost use Rattle.std.specs.Prelude.{◌≡◌, ◌∷◌, ◌++◌, ◌&&◌, [], None, Some, cond, true, false, IfOk};
ghost use Rattle.hh_base.specs.Value.{is_valued};
ghost use Rattle.host_expr.specs.Combination.{in_range, is_overflowed, is_several, numbers_in, whole_sum};
ghost use Rattle.host_expr.specs.Environment.{is_decided, is_known};
ghost use Rattle.hh_term.specs.MustCan.{table_of};
ghost use Rattle.hh_term.specs.ProgramView.{kernel_of};
ghost use Rattle.hh_term.specs.Step.{doubled_by, leave, overflow_by, scope_mark, values_of, wrapped};
ghost use Rattle.nested_step.specs.View.{scope_of, step_of, stepped_of};

use crate::declared::position_of;
use crate::marks::next_in_scope;
use crate::stepped::Stepped;
use hh_base::value::{CombineWord, FaultKind, Kind, NoMemory, Tri, Value};
use hh_term::program::Program;
use host_expr::cell::{Cell, SigCell};
use nested_reaction::bag::{Bag, cells_of, without};
use nested_reaction::combination::values_in;
use nested_reaction::declared::{kind_of, word_of};
use std::alloc::Global;

/// Whether the status and the value are known.
pub fn is_settled(cell: &SigCell) -> bool
    ensures { result ≡ (is_decided cell.now.status && is_known cell.now.value) }
{
    cell.status != Tri::Unknown && !matches!(cell.value, Cell::Unknown)
}

fn is_valued(kind: Kind) -> bool
    ensures { result ≡ is_valued kind }
{
    kind != Kind::Pure
}

/// Whether these are several values of a valued signal without a combine word.
fn is_several(kind: Kind, word: Option<CombineWord>, values: &[Value]) -> bool
    ensures { result ≡ is_several kind word values.now }
{
    match (word, values) {
        (None, [_, _, ..]) => is_valued(kind),
        _ => false,
    }
}

/// The whole sum of the numbers. One past 128 bits, for which no memory holds the numbers, is want of memory.
fn sum(values: &[Value]) -> Result<i128, NoMemory>
    ensures { IfOk result (λ n. n ≡ whole_sum (numbers_in values.now)) }
{
    match values {
        [] => Ok(0),
        [Value::Int(number), rest @ ..] => {
            i128::from(*number).checked_add(sum(rest)?).ok_or(NoMemory)
        }
        [_, rest @ ..] => sum(rest),
    }
}

fn is_out_of_range(sum: i128) -> bool
    ensures { result ≡ cond (in_range sum) false true }
{
    i64::try_from(sum).is_err()
}

/// Whether these are several numbers whose sum 64 bits do not hold.
fn is_overflowed(word: Option<CombineWord>, values: &[Value]) -> Result<bool, NoMemory>
    ensures { IfOk result (λ b. b ≡ is_overflowed word values.now) }
{
    match (word, values) {
        (Some(CombineWord::Plus), [_, _, ..]) => Ok(is_out_of_range(sum(values)?)),
        _ => Ok(false),
    }
}

fn values_of(
    alloc: Global,
    program: &Program,
    signal: u32,
    bag: &Bag,
) -> Result<Vec<Value>, NoMemory>
    ensures { IfOk result (λ v. v.items ≡ values_of (table_of (kernel_of program.now)) signal bag.now.items) }
{
    let cells = cells_of(alloc, signal, bag)?;
    values_in(alloc, kind_of(program, signal), &cells)
}

/// The step, with what is wrong with these values of the signal.
fn judged(
    program: &Program,
    signal: u32,
    values: &[Value],
    mut a: Stepped,
) -> Result<Stepped, NoMemory>
    ensures { IfOk result (λ b. stepped_of b ≡ record (stepped_of a) {
      faults = overflow_by (table_of (kernel_of program.now)) signal values.now ++ a.faults.items;
      doubled = doubled_by (table_of (kernel_of program.now)) signal values.now ++ a.doubled.items;
    }) }
{
    let word = word_of(program, signal);
    if is_overflowed(word, values)? {
        a.faults
            .insert(0, (position_of(program, signal), FaultKind::Overflow))?;
    }
    if is_several(kind_of(program, signal), word, values) {
        a.doubled.insert(0, signal)?;
    }
    Ok(a)
}

/// The step of a body outside the scope of the signal.
pub fn leave(alloc: Global, program: &Program, signal: u32, a: Stepped) -> Result<Stepped, NoMemory>
    ensures { IfOk result (λ b. stepped_of b ≡ leave (table_of (kernel_of program.now)) signal (stepped_of a)) }
{
    let values = values_of(alloc, program, signal, &a.bag)?;
    let mut left = judged(program, signal, &values, a)?;
    left.bag = without(alloc, signal, &left.bag)?;
    Ok(left)
}

fn leave_solved(
    alloc: Global,
    program: &Program,
    signal: u32,
    cell: &SigCell,
    mut a: Stepped,
) -> Result<Stepped, NoMemory>
    ensures { IfOk result (λ b. stepped_of b ≡ leave (table_of (kernel_of program.now)) signal
        (wrapped (scope_mark cell.now) (stepped_of a))) }
{
    a.next = next_in_scope(alloc, cell, a.next)?;
    leave(alloc, program, signal, a)
}

/// The step of a scope from that of its body, where its signal has this cell: undefined where that is undecided.
pub fn leave_scope(
    alloc: Global,
    program: &Program,
    signal: u32,
    cell: &SigCell,
    body: Option<Stepped>,
) -> Result<Option<Stepped>, NoMemory>
    ensures { IfOk result (λ b. step_of b ≡ scope_of (table_of (kernel_of program.now)) signal cell.now
        (step_of body)) }
{
    match body {
        Some(a) if is_settled(cell) => Ok(Some(leave_solved(alloc, program, signal, cell, a)?)),
        _ => Ok(None),
    }
}
