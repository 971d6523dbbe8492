//! Which inputs fit an interface, and which ids need no answer more.

ghost use Rattle.std.specs.Prelude.{◌≡◌, ℕ, List, ◌↔◌, IsTrue};
ghost use Rattle.std.specs.List.{AllByRecursion, list_any};
ghost use Rattle.reaction_run.specs.Reacting.{is_given, InputFits, InputsFit, is_last_for};

use crate::apart::all_differ;
use crate::event::Input;
use exec_instance::answer::Answers;
use hh_base::value::Dir;
use hh_term::program::SignalDecl;

fn is_given(dir: Dir) -> bool
    ensures { result ≡ is_given dir }
{
    match dir {
        Dir::Input | Dir::Both => true,
        Dir::Output | Dir::Local => false,
    }
}

fn input_fits(interface: &[SignalDecl], input: &Input) -> bool
    ensures { IsTrue result ↔ InputFits interface.now input.now }
{
    match interface.get(input.signal as usize) {
        Some(signal) => is_given(signal.dir) && input.value.kind() == signal.kind,
        None => false,
    }
}

fn each_fits(interface: &[SignalDecl], inputs: &[Input]) -> bool
    ensures { IsTrue result ↔ AllByRecursion (InputFits interface.now) inputs.now }
{
    inputs.iter().all(|input| input_fits(interface, input))
}

/// Whether each input names an `in` or `inout` signal of the interface and has its kind, and no signal stands
/// twice.
pub fn inputs_fit(interface: &[SignalDecl], inputs: &[Input]) -> bool
    ensures { IsTrue result ↔ InputsFit interface.now inputs.now }
{
    each_fits(interface, inputs) && all_differ(interface.len(), inputs)
}

/// Whether one of the answers is a last one to the instance with this id.
pub fn has_last_for(answers: &Answers, id: u64) -> bool
    ensures { result ≡ list_any (is_last_for id) answers.now }
{
    answers
        .as_slice()
        .iter()
        .any(|answer| answer.last && answer.id == id)
}
