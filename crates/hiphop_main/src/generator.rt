//! `hiphop gen`: a program of any size, made from a seed, played and summed up.

ghost use Rattle.std.specs.Prelude.{◌≡◌, ◌≤◌, ◌↔◌, IsTrue};
ghost use Rattle.host_hooks.specs.Stored.{promises_of};
ghost use Rattle.hiphop_main.specs.Ends.{Ends};
ghost use Rattle.hiphop_main.specs.Gen.{AnswersWords, IsGenWord, SumsUp};
ghost use Rattle.hiphop_main.specs.Summary as spec;

use crate::ending::Cause;
use crate::play::play_input;
use crate::refusal::refuse;
use crate::summary::summary;
use gen_words::order::{Order, OrderFault, read_order};
use hh_base::command_line::CommandLine;
use hh_io::fault::SinkFault;
use hh_io::sink::{Sink, put_all};
use hh_io::sure::SureSink;
use host_hooks::table::HookTable;
use scenario_make::make::make;
use std::alloc::Global;

/// Whether the first word is `gen`.
pub fn is_gen(words: &CommandLine) -> bool
    ensures { IsTrue result ↔ IsGenWord words.now }
{
    match words.get(0) {
        Some(word) => word == "gen",
        None => false,
    }
}

/// Writes the line that sums up what was played.
fn write_summary<K: Sink>(alloc: Global, order: Order, text: &[u8], sink: &mut K) -> Cause
    ensures { Ends Cause.Fine (spec.summary order.seed order.size text.now) (K.state sink.old)
        (K.state sink.new) result }
{
    let Ok(line) = summary(alloc, order, text) else {
        return Cause::NoMemory;
    };
    match put_all(sink, line.as_bytes()) {
        Ok(()) => Cause::Fine,
        Err(SinkFault::Failed) => Cause::WriteFault,
        Err(SinkFault::NoMemory) => Cause::NoMemory,
    }
}

/// Makes the text, plays it in memory, and writes its summary.
fn play_made<K: Sink>(alloc: Global, order: Order, hooks: &HookTable, sink: &mut K) -> Cause
    requires { order.size ≤ 1000 }
    ensures { SumsUp (promises_of hooks.now) order.seed order.size (K.state sink.old)
        (K.state sink.new) result }
{
    let Ok(input) = make(alloc, order.seed, order.size) else {
        return Cause::NoMemory;
    };
    let mut log = SureSink::new(alloc);
    match play_input(alloc, &input, hooks, &mut log) {
        Cause::Fine => write_summary(alloc, order, log.as_bytes(), sink),
        Cause::NoMemory => Cause::NoMemory,
        due => refuse(alloc, sink, due),
    }
}

/// Does what the words behind the first ask for, where these hooks are stored: makes a program of that seed
/// and size with its scenario, plays it, and writes one line that sums the play up. Words that `clap` does
/// not take are answered by the usage line.
pub fn gen_run<K: Sink>(
    alloc: Global,
    words: &CommandLine,
    hooks: &HookTable,
    sink: &mut K,
) -> Cause
    ensures { AnswersWords (promises_of hooks.now) words.now (K.state sink.old) (K.state sink.new) result }
{
    match read_order(alloc, words) {
        Ok(order) => play_made(alloc, order, hooks, sink),
        Err(OrderFault::Refused) => refuse(alloc, sink, Cause::Usage),
        Err(OrderFault::NoMemory) => Cause::NoMemory,
    }
}
