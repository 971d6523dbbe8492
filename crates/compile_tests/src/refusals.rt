//! Texts that each step refuses, in the order of the steps, and texts that are taken.

use crate::verdict::expect;
use std::alloc::Global;
use std::test::Fail;

const UNREAD: [(&[u8], &str); 4] = [
    (b"\xffmodule M() {}", "0 NotUtf8"),
    (b"module M() { # \x80 }", "15 NotUtf8"),
    (b"module M(n\xed\xa0\x80) {}", "10 NotUtf8"),
    (b"module M() {} // x\xf0\x9f\x98", "18 NotUtf8"),
];

const REFUSED: [(&str, &str); 40] = [
    // Tokens and grammar.
    ("", "0 NoModule"),
    ("body f(a: int): int { a + true }", "0 NoModule"),
    ("module M() { ; loop { } }", "13 Unexpected"),
    ("module M() { loop { ; } emit Q; }", "20 Unexpected"),
    ("module M() { emit Q; loop { }", "29 EndOfText"),
    (
        "module M(out V: int) { emit Q(9223372036854775808); }",
        "30 NumberLarge",
    ),
    ("module M() { run M(); /* x }", "22 CommentOpen"),
    ("module M(in A) { await count(65, A.now); }", "29 BadCount"),
    // Names, kinds and runs.
    ("module M() { loop { } if (1) { } }", "26 KindWrong"),
    ("module M(in A) { loop { } emit A; }", "31 EmitsInput"),
    ("module M() { loop { } run M(); }", "26 RunCycle"),
    (
        "module M() { loop { } } module N() { emit Q; }",
        "42 UnknownSignal",
    ),
    // Loops whose bodies may end at once.
    ("module M() { loop { } }", "13 InstantLoop"),
    ("module M(out A) { loop { emit A; } }", "18 InstantLoop"),
    (
        "module M() { loop { trap T { break T; pause; } } }",
        "13 InstantLoop",
    ),
    (
        "module M(in A) { loop { if (A.now) { pause; } } }",
        "17 InstantLoop",
    ),
    (
        "module M(in A) { loop { await immediate (A.now); } }",
        "17 InstantLoop",
    ),
    (
        "module M(in A) { loop { abort immediate (A.now) { halt; } } }",
        "17 InstantLoop",
    ),
    (
        "module M(in A) { loop { trap T { abort (A.now) { break T; } pause; } } }",
        "17 InstantLoop",
    ),
    (
        "module M(in A) { loop { suspend (A.now) { trap W { do { break W; } every (A.now); } } } }",
        "17 InstantLoop",
    ),
    // The first of several such loops, an outer one before an inner one.
    (
        "module M(in A, out O) { loop { pause; } loop { if (A.now) { pause; } } loop { } }",
        "40 InstantLoop",
    ),
    (
        "module M(in A) { loop { if (A.now) { loop { nothing; } } } }",
        "17 InstantLoop",
    ),
    (
        "module M(in A) { loop { pause; loop { signal S { emit S; } } } }",
        "31 InstantLoop",
    ),
    (
        "module M(in A, out O) { do { trap T { trap U { loop { trap V { if (A.now) { break U; } else { if (A.pre) { break T; } } } } } } } every (A.now); }",
        "47 InstantLoop",
    ),
    // Those of modules that are run count at their own positions, and those of others do not.
    (
        "module M() { run B(); run A(); } module A() { /* é */ loop { trap T { fork { break T; } par { pause; } } } } module B() { loop { } }",
        "55 InstantLoop",
    ),
    (
        "module M(in A) { run N(); every (A.now) { loop { suspend (A.now) { } } } } module N() { pause; loop { } }",
        "42 InstantLoop",
    ),
    (
        "module N() { pause; } module M() { loop { } }",
        "fine 0 0 0 0",
    ),
    (
        "module M(in A, out O) { loop { fork { await immediate (A.now); } par { pause; } emit O; } } module N() { loop { } }",
        "fine 2 2 0 0",
    ),
    // Loops whose bodies never end at once.
    (
        "module M(in A, out O) { trap T { loop { if (A.now) { break T; } else { pause; } } } emit O; }",
        "fine 2 2 0 0",
    ),
    (
        "module M(in A, out O) { trap T { trap U { loop { if (A.now) { break U; } else { break T; } } } emit O; } pause; }",
        "fine 2 2 0 0",
    ),
    (
        "module M(in A, out O) { loop { trap T { fork { break T; } par { pause; } } suspend immediate (A.now) { } weakabort (A.now) { } pause; emit O; } }",
        "fine 2 2 0 0",
    ),
    (
        "module M(in A, out O) { loop { trap T { weakabort (A.now) { trap U { pause; break T; } } pause; } emit O; } }",
        "fine 2 2 0 0",
    ),
    ("module M(in A) { loop { await (A.now); } }", "fine 1 1 0 0"),
    (
        "module M(in A) { loop { every (A.now) { loop { pause; } } } }",
        "fine 1 1 0 0",
    ),
    (
        "module M(out O) { loop { halt; } loop { sustain O; } }",
        "fine 1 1 0 0",
    ),
    // Local signals, one for each time that a module is run, and for what `abort count` counts.
    (
        "module M(in A, out B: int) { signal S, T { emit S; } run N(); run N(); } module N() { signal S { emit S; } }",
        "fine 6 2 0 0",
    ),
    (
        "module M(in A) { abort count(2, A.now) { halt; } abort (A.now) { halt; } }",
        "fine 2 1 0 0",
    ),
    // Bodies and hosts, also those that are not called, and the asyncs.
    (
        "host g(): pure; body f(a: int): int { a } body h(): bool { true } module M() { async call f(1); run N(); run N(); } module N() { async call g(); }",
        "fine 0 0 3 3",
    ),
    (
        "module M(in A) { loop { async call f(1); } } body f(a: int): int { a }",
        "fine 1 1 1 1",
    ),
    (
        "host text_sizes(text): int; module M(in A) { }",
        "fine 1 1 1 0",
    ),
];

fn expect_of_bytes(alloc: Global, rows: &[(&[u8], &str)]) -> Result<(), Fail> {
    for (text, want) in rows {
        expect(alloc, text, want)?;
    }
    Ok(())
}

fn expect_of_texts(alloc: Global, rows: &[(&str, &str)]) -> Result<(), Fail> {
    for (text, want) in rows {
        expect(alloc, text.as_bytes(), want)?;
    }
    Ok(())
}

#[test]
fn refuses_what_is_no_text(rt: HostRuntime) -> Result<(), Fail> {
    expect_of_bytes(rt.alloc(), &UNREAD)
}

#[test]
fn refuses_by_the_first_step(rt: HostRuntime) -> Result<(), Fail> {
    expect_of_texts(rt.alloc(), &REFUSED)
}
