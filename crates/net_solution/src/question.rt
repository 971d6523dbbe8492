//! What a reaction of nets begins with.
ghost use Rattle.std.specs.Prelude.{◌≡◌, IfOk, get_or, None as ANone};
ghost use Rattle.std.specs.List.{list_any};
ghost use Rattle.net_solution.specs.Places.{question_of};
ghost use Rattle.net_solution.specs.Question.{state_of, first_item, is_last_item, is_part_item, item_value};
ghost use Rattle.net_solution.specs.Question.{is_given};

use hh_base::item::Item;
use hh_base::memory::NoMemory;
use hh_base::value::{Kind, Value, default_of};
use host_expr::cell::Cells;
use std::alloc::Global;

/// What a reaction of nets begins with, lent by the caller: the states of the registers, the signals'
/// cells, of
/// which only the previous values count, as the last values; the first item of the queue of each exec; and
/// the
/// inputs that are given, with their values.
#[derive(Clone, Copy)]
pub struct Asked<'a> {
    pub registers: &'a [bool],
    pub cells: &'a Cells,
    pub answered: &'a [Option<Item>],
    pub given: &'a [(u32, Value)],
}

fn is_last_item(item: &Option<Item>) -> bool
    ensures { result ≡ is_last_item item.now }
{
    match item {
        Some(item) => item.last,
        None => false,
    }
}

fn is_part_item(item: &Option<Item>) -> bool
    ensures { result ≡ is_part_item item.now }
{
    match item {
        Some(item) => !item.last,
        None => false,
    }
}

fn item_value(alloc: Global, kind: Kind, item: &Option<Item>) -> Result<Value, NoMemory>
    ensures { IfOk result (λ v. v ≡ item_value kind item.now) }
{
    match item {
        Some(item) => Ok(item.value.copy(alloc)?),
        None => Ok(default_of(alloc, kind)),
    }
}

/// The state of a register.
pub fn state_of(asked: &Asked<'_>, register: u32) -> bool
    ensures { result ≡ state_of (question_of asked.now) register }
{
    match asked.registers.get(register as usize) {
        Some(state) => *state,
        None => false,
    }
}

/// Whether the first item of an exec is there and is its last one.
pub fn is_last(asked: &Asked<'_>, exec: u32) -> bool
    ensures { result ≡ is_last_item (first_item (question_of asked.now) exec) }
{
    match asked.answered.get(exec as usize) {
        Some(item) => is_last_item(item),
        None => false,
    }
}

/// Whether the first item of an exec is there and is not its last one.
pub fn is_part(asked: &Asked<'_>, exec: u32) -> bool
    ensures { result ≡ is_part_item (first_item (question_of asked.now) exec) }
{
    match asked.answered.get(exec as usize) {
        Some(item) => is_part_item(item),
        None => false,
    }
}

/// What the first item of an exec has as its value, and where there is none what a signal of the kind counts
/// as.
pub fn answer_of(alloc: Global, asked: &Asked<'_>, kind: Kind, exec: u32) -> Result<Value, NoMemory>
    ensures { IfOk result (λ v. v ≡ item_value kind (first_item (question_of asked.now) exec)) }
{
    match asked.answered.get(exec as usize) {
        Some(item) => item_value(alloc, kind, item),
        None => Ok(default_of(alloc, kind)),
    }
}

/// Whether an input is given.
pub fn is_given(asked: &Asked<'_>, signal: u32) -> bool
    ensures { result ≡ is_given (question_of asked.now) signal }
{
    asked.given.iter().any(|given| given.0 == signal)
}
