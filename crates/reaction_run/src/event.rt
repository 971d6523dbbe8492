//! What happens to a machine.

ghost use Rattle.std.specs.Prelude.{◌≡◌, IfOk};

use exec_instance::answer::Answers;
use hh_base::value::{NoMemory, Value};
use sqlite_items::Items;
use std::alloc::Global;

/// An input that the environment gives: an `in` or `inout` signal and its value, `Unit` for a pure one.
#[derive(Drop)]
pub struct Input {
    pub signal: u32,
    pub value: Value,
}

impl Input {
    /// An input of its own that is the same.
    pub fn copy(&self, alloc: Global) -> Result<Input, NoMemory>
        ensures { IfOk result (λ i. i ≡ self.now) }
    {
        Ok(Input {
            signal: self.signal,
            value: self.value.copy(alloc)?,
        })
    }
}

/// The inputs of one reaction. Contracts see the list.
pub type Inputs = Items<Input>;

/// A copy of the inputs, in their order.
pub fn copy_inputs(alloc: Global, inputs: &[Input]) -> Result<Inputs, NoMemory>
    ensures { IfOk result (λ i. i ≡ inputs.now) }
{
    let mut copies = Vec::with_capacity(alloc, inputs.len())?;
    for input in inputs {
        copies.push(input.copy(alloc)?)?;
    }
    Ok(Items::from_vec(copies))
}

/// A copy of the answers, in their order.
pub fn copy_answers(alloc: Global, answers: &Answers) -> Result<Answers, NoMemory>
    ensures { IfOk result (λ a. a ≡ answers.now) }
{
    let mut copies = Vec::with_capacity(alloc, answers.len())?;
    for answer in answers.as_slice() {
        copies.push(answer.copy(alloc)?)?;
    }
    Ok(Answers::from_vec(copies))
}

/// An event of a machine: a reaction to inputs, with the answers that were taken for it; a reaction without
/// inputs, where answers wait; and that the machine is put back to its start.
#[derive(Drop)]
pub enum Event {
    React(Inputs, Answers),
    Pump(Answers),
    Reset,
}
