//! The program's one call.

ghost use Rattle.std.specs.Prelude.{◌≡◌, ◌↔◌, IsTrue};
ghost use Rattle.host_hooks.specs.Stored.{promises_of};
ghost use Rattle.hiphop_main.specs.Exchange.{exchange};
ghost use Rattle.hiphop_main.specs.Obeys.{IsPlay, Obeys};

use crate::ending::Cause;
use crate::generator::{gen_run, is_gen};
use crate::play::play;
use crate::refusal::refuse;
use hh_base::command_line::CommandLine;
use hh_io::sink::Sink;
use hh_io::source::Source;
use host_hooks::table::HookTable;
use std::alloc::Global;

/// Whether the words are those of `play`.
fn is_play(words: &CommandLine) -> bool
    ensures { IsTrue result ↔ IsPlay words.now }
{
    let Some(word) = words.get(0) else {
        return false;
    };
    words.len() == 1 && word == "play"
}

/// Does what the words ask for, where these hooks are stored, and answers how that ended: the exit status is
/// `status` of the answer.
/// `play` and `gen` are the commands so far, and all other words are answered by the usage line.
pub fn hiphop<S: Source, K: Sink>(
    alloc: Global,
    words: &CommandLine,
    hooks: &HookTable,
    source: &mut S,
    sink: &mut K,
) -> Cause
    ensures { Obeys (promises_of hooks.now) words.now
        (exchange (S.state source.old) (S.state source.new) (K.state sink.old) (K.state sink.new)) result }
{
    if is_play(words) {
        play(alloc, hooks, source, sink)
    } else if is_gen(words) {
        gen_run(alloc, words, hooks, sink)
    } else {
        refuse(alloc, sink, Cause::Usage)
    }
}
