//! The reader of scenarios.
ghost use Rattle.std.specs.Prelude.{◌≡◌, ◌<◌, ◌≤◌, ◌⊎◌, ◌∷◌, ◌++◌, ℕ, true, List, All, codes, length};
ghost use Rattle.std.specs.Prelude.{IfOk, IfErr, MatchOption, MatchResult, OnOk};
ghost use Rattle.std.specs.Option.{option_to_list};
ghost use Rattle.hh_term.specs.declared.program.SignalDecl.{SignalDecl as ADeclaration};
ghost use Rattle.scenario_lines.specs.declared.line.Line.{Line as ALine};
ghost use Rattle.scenario_lines.specs.declared.line.Mode.{Mode as AMode};
ghost use Rattle.scenario_lines.specs.Interface.{HasNames};
ghost use Rattle.scenario_lines.specs.Lines.{begins_with, is_skipped, parts_of};
ghost use Rattle.scenario_lines.specs.Reader.{IsTheLine, TakesPart, command_word};
ghost use Rattle.scenario_lines.specs.Scenario.{AreInputs, IsFirstRefused, IsInput, IsLine, IsRefused};
ghost use Rattle.scenario_lines.specs.Scenario.{IsScenario, answer_word};
ghost use Rattle.scenario_lines.specs.Tells.{Tells};

use crate::command::{Command, command_of};
use crate::cut::cut;
use crate::interface::NameIndex;
use crate::line::{Line, Mode, ScenarioFault};
use crate::lines::split_line;
use crate::literals::{read_carried, read_id, read_value};
use crate::parts::{has_none, next_part, one_part, two_parts};
use exec_instance::answer::Answer;
use hh_base::value::NoMemory;
use hh_term::program::SignalDecl;
use reaction_run::event::{Input, Inputs};
use std::alloc::Global;

/// The input that a part of a line gives.
fn read_input(alloc: Global, part: &[u8], index: &NameIndex) -> Result<Option<Input>, NoMemory>
    ensures { IfOk result (Tells (IsInput index.now part.now)) }
{
    let (name, rest) = cut(part, b'(');
    let Some((signal, kind)) = index.find_input(name) else {
        return Ok(None);
    };
    let Some(value) = read_carried(alloc, rest)? else {
        return Ok(None);
    };
    if value.kind() != kind {
        return Ok(None);
    }
    Ok(Some(Input { signal, value }))
}

/// The input that the part gives, unless the line named its signal before. `noted` has for each signal the
/// number of the last line that named it.
fn take_input(
    alloc: Global,
    part: &[u8],
    number: u64,
    index: &NameIndex,
    noted: &mut [u64],
) -> Result<Option<Input>, NoMemory>
    requires { length noted.old ≡ length index.now }
    ensures { IfOk result (λ o. TakesPart index.now part.now number noted.old o noted.new) }
{
    let Some(input) = read_input(alloc, part, index)? else {
        return Ok(None);
    };
    if noted[input.signal as usize] == number {
        return Ok(None);
    }
    noted[input.signal as usize] = number;
    Ok(Some(input))
}

/// The inputs that the parts of a line give.
fn read_inputs(
    alloc: Global,
    line: &[u8],
    number: u64,
    index: &NameIndex,
    noted: &mut [u64],
) -> Result<Option<Inputs>, NoMemory>
    requires noted_each { length noted.old ≡ length index.now }
    requires noted_before { All (λ n. n < number) noted.old }
    ensures inputs { IfOk result (Tells (AreInputs index.now (parts_of line.now))) }
    ensures noted { OnOk result (All (λ n. n ≤ number) noted.new) }
{
    let mut inputs = Vec::new(alloc);
    let mut rest = line;
    while let Some((part, behind)) = next_part(rest) {
        let Some(input) = take_input(alloc, part, number, index, noted)? else {
            return Ok(None);
        };
        inputs.push(input)?;
        rest = behind;
    }
    Ok(Some(Inputs::from_vec(inputs)))
}

/// The line whose command is `react`.
fn read_react(
    alloc: Global,
    rest: &[u8],
    number: u64,
    index: &NameIndex,
    noted: &mut [u64],
) -> Result<Option<Line>, NoMemory>
    requires noted_each { length noted.old ≡ length index.now }
    requires noted_before { All (λ n. n < number) noted.old }
    ensures line { (mode : AMode) →
        IfOk result (Tells (IsLine mode index.now (codes "react" ∷ parts_of rest.now))) }
    ensures noted { OnOk result (All (λ n. n ≤ number) noted.new) }
{
    match read_inputs(alloc, rest, number, index, noted)? {
        Some(inputs) => Ok(Some(Line::React(inputs))),
        None => Ok(None),
    }
}

/// The line whose command is `work`.
fn read_work(rest: &[u8], mode: Mode) -> Option<Line>
    ensures { (signals : List ADeclaration) →
        Tells (IsLine mode signals (codes "work" ∷ parts_of rest.now)) result }
{
    if mode == Mode::Serve {
        return None;
    }
    let digits = one_part(rest)?;
    let id = read_id(digits)?;
    Some(Line::Work(id))
}

/// The line whose command is `notify`, or `more` where the answer is not the last one.
fn read_answer(alloc: Global, rest: &[u8], last: bool) -> Result<Option<Line>, NoMemory>
    ensures { (mode : AMode) (signals : List ADeclaration)
        → IfOk result (Tells (IsLine mode signals (answer_word last ∷ parts_of rest.now))) }
{
    let Some((digits, literal)) = two_parts(rest) else {
        return Ok(None);
    };
    let Some(id) = read_id(digits) else {
        return Ok(None);
    };
    match read_value(alloc, literal)? {
        Some(value) => Ok(Some(Line::Notify(Answer { id, value, last }))),
        None => Ok(None),
    }
}

/// The line whose command is `reset`.
fn read_reset(rest: &[u8]) -> Option<Line>
    ensures { (mode : AMode) (signals : List ADeclaration) →
        Tells (IsLine mode signals (codes "reset" ∷ parts_of rest.now)) result }
{
    has_none(rest).then_some(Line::Reset)
}

/// The line whose command is `settle`.
fn read_settle(rest: &[u8], mode: Mode) -> Option<Line>
    ensures { (signals : List ADeclaration) →
        Tells (IsLine mode signals (codes "settle" ∷ parts_of rest.now)) result }
{
    if mode == Mode::Play {
        return None;
    }
    has_none(rest).then_some(Line::Settle)
}

/// The line of this command.
fn read_command(
    alloc: Global,
    command: Command,
    rest: &[u8],
    mode: Mode,
    number: u64,
    index: &NameIndex,
    noted: &mut [u64],
) -> Result<Option<Line>, NoMemory>
    requires noted_each { length noted.old ≡ length index.now }
    requires noted_before { All (λ n. n < number) noted.old }
    ensures line { IfOk result (Tells (IsLine mode index.now (command_word command ∷ parts_of rest.now))) }
    ensures noted { OnOk result (All (λ n. n ≤ number) noted.new) }
{
    match command {
        Command::React => read_react(alloc, rest, number, index, noted),
        Command::Work => Ok(read_work(rest, mode)),
        Command::Notify => read_answer(alloc, rest, true),
        Command::More => read_answer(alloc, rest, false),
        Command::Reset => Ok(read_reset(rest)),
        Command::Settle => Ok(read_settle(rest, mode)),
    }
}

/// The line that begins with this word.
fn read_word(
    alloc: Global,
    word: &[u8],
    rest: &[u8],
    mode: Mode,
    number: u64,
    index: &NameIndex,
    noted: &mut [u64],
) -> Result<Option<Line>, NoMemory>
    requires noted_each { length noted.old ≡ length index.now }
    requires noted_before { All (λ n. n < number) noted.old }
    ensures line { IfOk result (Tells (IsLine mode index.now (word.now ∷ parts_of rest.now))) }
    ensures noted { OnOk result (All (λ n. n ≤ number) noted.new) }
{
    match command_of(word) {
        Some(command) => read_command(alloc, command, rest, mode, number, index, noted),
        None => Ok(None),
    }
}

/// Whether the word begins a line that is skipped.
fn is_comment(word: &[u8]) -> bool
    ensures { result ≡ begins_with 35 word.now }
{
    match word.first() {
        Some(first) => *first == b'#',
        None => false,
    }
}

/// The line of this number, unless it is skipped.
fn read_line(
    alloc: Global,
    line: &[u8],
    mode: Mode,
    number: u64,
    index: &NameIndex,
    noted: &mut [u64],
) -> Result<Option<Line>, ScenarioFault>
    requires noted_each { length noted.old ≡ length index.now }
    requires noted_before { All (λ n. n < number) noted.old }
    ensures line { IfOk result (λ o. MatchOption o (is_skipped (parts_of line.now) ≡ true)
        (IsTheLine mode index.now (parts_of line.now))) }
    ensures noted { OnOk result (All (λ n. n ≤ number) noted.new) }
    ensures refused { IfErr result (λ e. (e ≡ ScenarioFault.NoMemory)
        ⊎ ((e ≡ ScenarioFault.Refused number) × IsRefused mode index.now line.now)) }
{
    let Some((word, rest)) = next_part(line) else {
        return Ok(None);
    };
    if is_comment(word) {
        return Ok(None);
    }
    match read_word(alloc, word, rest, mode, number, index, noted)? {
        Some(read) => Ok(Some(read)),
        None => Err(ScenarioFault::Refused(number)),
    }
}

/// Adds the line, if there is one.
fn push_line(lines: &mut Vec<Line>, line: Option<Line>) -> Result<(), NoMemory>
    ensures { OnOk result (lines.new.items ≡ lines.old.items ++ option_to_list line) }
{
    if let Some(line) = line {
        lines.push(line)?;
    }
    Ok(())
}

/// Reads a scenario: the lines of a text that is played or served on a machine with these signals. `work` lines
/// stand in what is played, and `settle` lines in what is served. The first line that is none is the fault.
pub fn read_scenario(
    alloc: Global,
    text: &[u8],
    signals: &[SignalDecl],
    mode: Mode,
) -> Result<Vec<Line>, ScenarioFault>
    requires { HasNames signals.now }
    ensures found { IfOk result (λ lines. IsScenario mode signals.now text.now lines.items) }
    ensures only { (lines : List ALine) → IsScenario mode signals.now text.now lines
        → MatchResult result (λ v. v.items ≡ lines) (λ e. e ≡ ScenarioFault.NoMemory) }
    ensures refused { IfErr result (λ e. (n : ℕ) → e ≡ ScenarioFault.Refused n
        → IsFirstRefused mode signals.now text.now n) }
{
    let index = NameIndex::new(alloc, signals)?;
    let mut last_lines = vec![in alloc; 0u64; signals.len()]?;
    let noted = last_lines.as_mut_slice();
    let mut lines = Vec::new(alloc);
    let mut number = 0u64;
    let mut rest = text;
    'lines: while !rest.is_empty() {
        let (line, behind) = split_line(rest);
        number += 1;
        let read = read_line(alloc, line, mode, number, &index, noted)?;
        push_line(&mut lines, read)?;
        rest = behind;
    }
    Ok(lines)
}
