//! Calls of `gen`, with sums worked out by hand.

use hh_base::command_line::CommandLine;
use hh_io::memory::{MemSink, MemSource};
use hiphop_main::command::hiphop;
use hiphop_main::ending::Cause;
use host_hooks::table::HookTable;
use std::alloc::Global;
use std::test::Fail;

const USAGE: &str =
    "! usage: hiphop play, compile, play_net, serve [--workers N], gen --seed N --size N\n";

/// What a call with these words, parted by spaces, answers and writes. Its source has no bytes and fails at
/// once.
fn call(alloc: Global, line: &str) -> Result<(Cause, Vec<u8>), Fail> {
    let mut words = CommandLine::new(alloc);
    for word in line.split(' ') {
        words.push(alloc, word)?;
    }
    let mut source = MemSource::new(Vec::new(alloc), Vec::from_slice(alloc, &[0])?);
    let mut sink = MemSink::new(alloc, Vec::new(alloc));
    let hooks = HookTable::new(alloc);
    let cause = hiphop(alloc, &words, &hooks, &mut source, &mut sink);
    Ok((cause, sink.into_bytes()))
}

#[test]
fn sums_plays_up(rt: HostRuntime) -> Result<(), Fail> {
    let table = [
        (
            "gen --seed 0 --size 1",
            "gen seed=0 size=1 lines=100 refused=0 bytes=417\n",
        ),
        (
            "gen --seed=0 --size=1",
            "gen seed=0 size=1 lines=100 refused=0 bytes=417\n",
        ),
        (
            "gen --size 1 --seed 2",
            "gen seed=2 size=1 lines=100 refused=0 bytes=592\n",
        ),
    ];
    for (line, text) in table {
        let (cause, written) = call(rt.alloc(), line)?;
        assert_eq!(rt; cause.status(), 0, "{line}");
        assert_eq!(rt; written.as_slice(), text.as_bytes(), "{line}");
    }
    Ok(())
}

#[test]
fn refuses_words(rt: HostRuntime) -> Result<(), Fail> {
    for line in [
        "gen",
        "gen --size 1",
        "gen --seed 1",
        "gen --seed 4294967296 --size 1",
        "gen --seed -1 --size 1",
        "gen --seed 0 --size 0",
        "gen --seed 0 --size 1001",
        "gen --seed 0 --size one",
        "gen --seed 0 --seed 0 --size 1",
        "gen --seed 0 --size 1 more",
        "gen --help",
        "gen help",
    ] {
        let (cause, written) = call(rt.alloc(), line)?;
        assert_eq!(rt; cause.status(), 2, "{line}");
        assert_eq!(rt; written.as_slice(), USAGE.as_bytes(), "{line}");
    }
    Ok(())
}
