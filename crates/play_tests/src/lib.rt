//! `hiphop` over sources and sinks in memory: what cannot happen there, and tests of whole calls.
#![tactic(auto)]

ghost use Rattle.std.specs.Prelude.{◌≡◌, ◌≢◌, ◌≤◌, ◌⊎◌, ℕ, [], List, length};
ghost use Rattle.hh_term.specs.declared.program.Program.{Program as AProgram};
ghost use Rattle.scenario_lines.specs.declared.line.Line.{Line as ALine};
ghost use Rattle.host_hooks.specs.Stored.{promises_of};
ghost use Rattle.hiphop_main.specs.declared.limits.TheConstants.{INPUT_LIMIT};
ghost use Rattle.hiphop_main.specs.Gen.{IsGen};
ghost use Rattle.hiphop_main.specs.Obeys.{IsPlay};
ghost use Rattle.hiphop_main.specs.Play.{IsInput, IsLogText};
ghost use Rattle.play_tests.specs.InMemory.{IsSummary, ObeysInMemory};

use hh_base::command_line::CommandLine;
use hh_io::sure::{SureSink, SureSource};
use hiphop_main::command::hiphop;
use hiphop_main::ending::Cause;
use host_hooks::table::HookTable;
use std::alloc::Global;

#[cfg(test)]
mod examples;
#[cfg(test)]
mod generator;
#[cfg(test)]
mod reading;
#[cfg(test)]
mod tests;
#[cfg(test)]
mod texts;

/// What a call answers, and what it wrote.
#[derive(Drop)]
pub struct InMemory {
    pub cause: Cause,
    pub text: Vec<u8>,
}

/// A call of `hiphop` over an input and an output that never fail.
pub fn hiphop_in_memory(
    alloc: Global,
    words: &CommandLine,
    hooks: &HookTable,
    input: Vec<u8>,
) -> InMemory
    // The text is the one that is due, or a prefix of it where memory ran out.
    ensures obeys { ObeysInMemory (promises_of hooks.now) words.now input.items result.text.items result.cause }

    // So the text of a call of `play` that is fine is the print of a legal log of the input,
    ensures log { IsPlay words.now → result.cause ≡ Cause.Fine →
        IsLogText (promises_of hooks.now) input.items result.text.items [] }

    // and that of a call of `gen` sums up what was played of the made text,
    ensures summed { (seed size : ℕ) → IsGen words.now seed size → result.cause ≡ Cause.Fine
        → IsSummary (promises_of hooks.now) seed size result.text.items }

    // a program with its scenario is played, unless memory runs out,
    ensures complete { IsPlay words.now → length input.items ≤ INPUT_LIMIT → (p : AProgram) (ls : List ALine)
        → IsInput (promises_of hooks.now) input.items p ls
        → (result.cause ≡ Cause.Fine) ⊎ (result.cause ≡ Cause.NoMemory) }

    // and no read and no write fails.
    ensures no_read_fault { result.cause ≢ Cause.ReadFault }
    ensures no_write_fault { result.cause ≢ Cause.WriteFault }
{
    let mut source = SureSource::new(input);
    let mut sink = SureSink::new(alloc);
    let cause = hiphop(alloc, words, hooks, &mut source, &mut sink);
    InMemory {
        cause,
        text: sink.into_bytes(),
    }
}
