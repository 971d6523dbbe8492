//! Whole calls, with expected texts worked out by hand.

use hh_base::command_line::CommandLine;
use hh_io::memory::{MemSink, MemSource};
use hiphop_main::command::hiphop;
use hiphop_main::ending::Cause;
use host_hooks::table::HookTable;
use std::alloc::Global;
use std::process::Abort;
use std::test::Fail;

const PAUSE: &str =
    "module M(in A, out O) { pause; if (A.now) { emit O; } }\n%% scenario\nreact\nreact A\nreact A\n";

/// What a call answers and writes, where the source and the sink take at most this many bytes at a time and
/// fail at these calls.
#[derive(Drop)]
struct Played {
    cause: Cause,
    text: Vec<u8>,
}

fn call(
    alloc: Global,
    word: &str,
    input: &[u8],
    most: usize,
    read_fails: &[u64],
    write_fails: &[u64],
) -> Result<Played, Fail> {
    let mut words = CommandLine::new(alloc);
    words.push(alloc, word)?;
    let most = most.max(1);
    let mut source = MemSource::in_steps(
        Vec::from_slice(alloc, input)?,
        Vec::from_slice(alloc, read_fails)?,
        most,
    );
    let mut sink = MemSink::in_steps(alloc, Vec::from_slice(alloc, write_fails)?, most);
    let hooks = HookTable::new(alloc);
    let cause = hiphop(alloc, &words, &hooks, &mut source, &mut sink);
    Ok(Played {
        cause,
        text: sink.into_bytes(),
    })
}

fn check(rt: &impl Abort, alloc: Global, input: &str, status: u8, text: &str) -> Result<(), Fail> {
    for most in [1, 7, 1_000_000] {
        let played = call(alloc, "play", input.as_bytes(), most, &[], &[])?;
        assert_eq!(rt; played.cause.status(), status, "{input}");
        assert_eq!(rt; played.text.as_slice(), text.as_bytes(), "{input}");
    }
    Ok(())
}

#[test]
fn plays_scenarios(rt: HostRuntime) -> Result<(), Fail> {
    let table = [
        (
            "module M() {}\n%% scenario\nreact\nreact\n",
            0,
            "1: done\n2:\n",
        ),
        (PAUSE, 0, "1:\n2: O done\n3:\n"),
        (
            "module M(in A, out P, out Q) { if (A.now) { emit P; } else { emit Q; } pause; emit P; }\n%% scenario\nreact A\nreact",
            0,
            "1: P\n2: P done\n",
        ),
        ("module M(out O) {}", 0, ""),
        ("module M() {}\r\n%% scenario\r\nreact", 0, "1: done\n"),
        (
            "module M() {}\n%% scenario\r",
            3,
            "! module 14 Unexpected\n",
        ),
        (
            "module M() {}\n %% scenario\nreact",
            3,
            "! module 15 Unexpected\n",
        ),
        ("", 3, "! module 0 NoModule\n"),
        (
            "host text_size(text): int;\nmodule M() {}",
            3,
            "! module 0 NoHook\n",
        ),
        (
            "module M(in A) {}\n%% scenario\nreact A A\n",
            4,
            "! scenario 1\n",
        ),
        (
            "module M(in A) {}\n%% scenario\nreact\n%% scenario\n",
            4,
            "! scenario 2\n",
        ),
    ];
    for (input, status, text) in table {
        check(&rt, rt.alloc(), input, status, text)?;
    }
    Ok(())
}

#[test]
fn tells_failed_reads(rt: HostRuntime) -> Result<(), Fail> {
    for at in 0..2 {
        let played = call(rt.alloc(), "play", PAUSE.as_bytes(), 1_000_000, &[at], &[])?;
        assert_eq!(rt; played.cause.status(), 1);
        assert_eq!(rt; played.text.len(), 0);
    }
    Ok(())
}

#[test]
fn tells_failed_writes(rt: HostRuntime) -> Result<(), Fail> {
    for at in 0..14u8 {
        let played = call(
            rt.alloc(),
            "play",
            PAUSE.as_bytes(),
            1,
            &[],
            &[u64::from(at)],
        )?;
        assert_eq!(rt; played.cause.status(), 6);
        assert_eq!(rt; played.text.len(), usize::from(at));
    }
    Ok(())
}

#[test]
fn tells_faults_at_the_first_call(rt: HostRuntime) -> Result<(), Fail> {
    let input = b"module M() {}\n%% scenario\nreact\nreact\n".as_slice();
    for (reads, writes, status) in [
        ([0u64].as_slice(), [].as_slice(), 1),
        ([].as_slice(), [0u64].as_slice(), 6),
    ] {
        let played = call(rt.alloc(), "play", input, 1_000_000, reads, writes)?;
        assert_eq!(rt; played.cause.status(), status);
        assert_eq!(rt; played.text.len(), 0);
    }
    Ok(())
}

#[test]
fn refuses_what_is_too_long(rt: HostRuntime) -> Result<(), Fail> {
    for (byte, size, status) in [(b' ', 16_777_216, 3), (b' ', 16_777_217, 8)] {
        let input = vec![in rt.alloc(); byte; size]?;
        let played = call(rt.alloc(), "play", &input, 1_000_000, &[], &[])?;
        assert_eq!(rt; played.cause.status(), status);
    }
    Ok(())
}

#[test]
fn knows_its_words(rt: HostRuntime) -> Result<(), Fail> {
    for word in ["", "Play", "compile", "play "] {
        let played = call(rt.alloc(), word, PAUSE.as_bytes(), 9, &[0], &[])?;
        assert_eq!(rt; played.cause.status(), 2);
        assert_eq!(rt;
            played.text.as_slice(),
            b"! usage: hiphop play, compile, play_net, serve [--workers N], gen --seed N --size N\n".as_slice()
        );
    }
    Ok(())
}

/// A text of this many copies of a piece between two others.
fn repeated(
    alloc: Global,
    before: &str,
    piece: &str,
    count: usize,
    after: &str,
) -> Result<String, Fail> {
    let mut text = String::from_str(alloc, before)?;
    for _ in 0..count {
        text.push_str(piece)?;
    }
    text.push_str(after)?;
    Ok(text)
}

/// Texts at a limit and one past it: what stands before, so many copies of a piece, what stands inside, as many
/// copies of what closes a piece, and what is written.
const LIMITS: [(&str, &str, usize, &str, &str, &str); 14] = [
    ("module M() {", "pause;", 32768, "}", "", "1:\n"),
    (
        "module M() {",
        "pause;",
        32769,
        "}",
        "",
        "! module 0 TooLarge 65537\n",
    ),
    ("module ", "n", 255, "() {}", "", "1: done\n"),
    ("module ", "n", 256, "() {}", "", "! module 7 NameLong\n"),
    ("module M() ", "{", 128, "", "}", "1: done\n"),
    (
        "module M() ",
        "{",
        129,
        "",
        "}",
        "! module 139 DeepNesting\n",
    ),
    ("module M() {", "trap T {", 32, "}", "}", "1: done\n"),
    (
        "module M() {",
        "trap T {",
        33,
        "}",
        "}",
        "! module 0 TrapsDeep 33\n",
    ),
    ("module M() {", "loop {", 18, "pause; }", "}", "1:\n"),
    (
        "module M() {",
        "loop {",
        19,
        "pause; }",
        "}",
        "! module 0 CopyLarge 1572862\n",
    ),
    (
        "body f(): int { 1 } module M() {",
        "async call f();",
        1025,
        "}",
        "",
        "! module 0 ManyAsyncs 1025\n",
    ),
    (
        "module M() { if (true",
        " && true",
        511,
        ") {} }",
        "",
        "1: done\n",
    ),
    (
        "module M() { if (true",
        " && true",
        512,
        ") {} }",
        "",
        "! module 4113 ExprLarge\n",
    ),
    (
        "module M() { if (\"",
        "a",
        4097,
        "\" == \"\") {} }",
        "",
        "! module 17 TextLong\n",
    ),
];

#[test]
fn keeps_its_limits(rt: HostRuntime) -> Result<(), Fail> {
    for (before, piece, count, inside, close, want) in LIMITS {
        let opened = repeated(rt.alloc(), before, piece, count, inside)?;
        let input = repeated(
            rt.alloc(),
            opened.as_str(),
            close,
            count,
            "\n%% scenario\nreact",
        )?;
        let played = call(rt.alloc(), "play", input.as_bytes(), 1_000_000, &[], &[])?;
        assert_eq!(rt;
            played.text.as_slice(),
            want.as_bytes(),
            "{before}{piece} {count}"
        );
    }
    Ok(())
}

/// A chain of so many modules, which each nest 64 tests and then run the next one.
fn chained(alloc: Global, modules: u8) -> Result<String, Fail> {
    let mut text = String::new(alloc);
    for place in 0..modules {
        let next = u32::from(place) + 1;
        let begun = format!(in alloc; "module N{place}() {{")?;
        let runs = format!(in alloc; "run N{next}();}}")?;
        let nested = repeated(alloc, begun.as_str(), "if (true) {", 64, runs.as_str())?;
        let closed = repeated(alloc, nested.as_str(), "}", 64, "\n")?;
        text.push_str(closed.as_str())?;
    }
    let last = format!(in alloc; "module N{modules}() {{}}\n%% scenario\nreact")?;
    text.push_str(last.as_str())?;
    Ok(text)
}

#[test]
fn counts_heights_through_runs(rt: HostRuntime) -> Result<(), Fail> {
    for (modules, want) in [(2, "1: done\n"), (16, "! module 0 TooDeep 1025\n")] {
        let input = chained(rt.alloc(), modules)?;
        let played = call(rt.alloc(), "play", input.as_bytes(), 1_000_000, &[], &[])?;
        assert_eq!(rt; played.text.as_slice(), want.as_bytes());
    }
    Ok(())
}

#[test]
fn plays_a_long_scenario(rt: HostRuntime) -> Result<(), Fail> {
    let input = repeated(
        rt.alloc(),
        "module M() {}\n%% scenario\n",
        "react\n",
        10_000,
        "",
    )?;
    let played = call(rt.alloc(), "play", input.as_bytes(), 1_000_000, &[], &[])?;
    assert_eq!(rt; played.cause.status(), 0);
    assert_eq!(rt;
        played.text.len(),
        9 * 3 + 90 * 4 + 900 * 5 + 9_000 * 6 + 7 + 5
    );
    Ok(())
}
