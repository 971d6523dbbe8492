//! Texts at the limits of an expanded program, and behind them.

use crate::verdict::expect;
use std::alloc::Global;
use std::test::Fail;

/// A text in pieces, each as often as its number says.
type Pieces = &'static [(&'static str, u32)];

fn add_pieces(text: &mut String, pieces: &[(&str, u32)]) -> Result<(), Fail> {
    for (piece, times) in pieces {
        for _ in 0..*times {
            text.push_str(piece)?;
        }
    }
    Ok(())
}

const IN_PIECES: [(Pieces, &str); 26] = [
    // The size.
    (
        &[
            ("module M() { if (true) { nothing; } ", 1),
            ("run B(); ", 31),
            ("nothing; ", 1022),
            ("} module B() { ", 1),
            ("nothing; ", 1024),
            ("}", 1),
        ],
        "fine 0 0 0 0",
    ),
    (
        &[
            ("module M() { ", 1),
            ("run B(); ", 31),
            ("nothing; ", 1025),
            ("} module B() { ", 1),
            ("nothing; ", 1024),
            ("}", 1),
        ],
        "0 TooLarge 65537",
    ),
    // Traps.
    (
        &[
            ("module M(in A) { ", 1),
            ("abort (A.now) { ", 32),
            ("} ", 33),
        ],
        "fine 1 1 0 0",
    ),
    (
        &[
            ("module M(in A) { ", 1),
            ("abort (A.now) { ", 33),
            ("} ", 34),
        ],
        "0 TrapsDeep 33",
    ),
    (
        &[
            ("module M() { ", 1),
            ("trap T { ", 33),
            ("break T; ", 1),
            ("} ", 34),
        ],
        "0 TrapsDeep 33",
    ),
    (
        &[
            ("module M(in A) { ", 1),
            ("abort (A.now) { ", 16),
            ("weakabort count(2, A.now) { ", 16),
            ("await (A.now); ", 1),
            ("} ", 33),
        ],
        "0 TrapsDeep 33",
    ),
    (
        &[
            ("module M(in A) { ", 1),
            ("trap T { ", 20),
            ("run N(); ", 1),
            ("} ", 21),
            ("module N(in A) { ", 1),
            ("abort immediate (A.now) { ", 20),
            ("pause; ", 1),
            ("} ", 21),
        ],
        "0 TrapsDeep 40",
    ),
    // Asyncs.
    (
        &[
            ("module M() { ", 1),
            ("run Z(); ", 16),
            ("} module Z() { ", 1),
            ("async call f(1); ", 64),
            ("} body f(a: int): int { a }", 1),
        ],
        "fine 0 0 1 1024",
    ),
    (
        &[
            ("module M() { async call f(2); ", 1),
            ("run Z(); ", 16),
            ("} module Z() { ", 1),
            ("async call f(1); ", 64),
            ("} body f(a: int): int { a }", 1),
        ],
        "0 ManyAsyncs 1025",
    ),
    (
        &[
            ("module M() { run Y(); run Y(); } module Y() { ", 1),
            ("run Z(); ", 16),
            ("} module Z() { ", 1),
            ("async call f(1); ", 64),
            ("} body f(a: int): int { a }", 1),
        ],
        "0 ManyAsyncs 2048",
    ),
    // The copied size.
    (
        &[
            ("module M() { ", 1),
            ("loop { ", 18),
            ("pause; ", 1),
            ("} ", 19),
        ],
        "fine 0 0 0 0",
    ),
    (
        &[
            ("module M() { ", 1),
            ("loop { ", 19),
            ("pause; ", 1),
            ("} ", 20),
        ],
        "0 CopyLarge 1572862",
    ),
    (
        &[
            ("module M() { ", 1),
            ("loop { ", 110),
            ("pause; ", 1),
            ("} ", 111),
        ],
        "0 CopyLarge 18446744073709551615",
    ),
    (
        &[
            ("module M() { nothing; ", 1),
            ("loop { ", 17),
            ("nothing; loop { pause; } ", 1),
            ("} ", 18),
        ],
        "fine 0 0 0 0",
    ),
    (
        &[
            ("module M(in A) { if (A.now) { ", 1),
            ("loop { ", 17),
            ("nothing; loop { pause; } ", 1),
            ("} ", 19),
        ],
        "0 CopyLarge 1048577",
    ),
    (
        &[
            ("module M() { nothing; ", 1),
            ("loop { ", 17),
            ("nothing; loop { pause; } ", 1),
            ("} ", 17),
            ("nothing; }", 1),
        ],
        "0 CopyLarge 1048578",
    ),
    (
        &[
            ("module M() { ", 1),
            ("loop { ", 19),
            ("signal T: text = \"", 1),
            ("a", 64),
            ("\" { pause; } ", 1),
            ("} ", 20),
        ],
        "0 CopyLarge 2621438",
    ),
    (
        &[
            ("module M() { ", 1),
            ("loop { ", 19),
            ("signal T: text = \"", 1),
            ("a", 63),
            ("é\" { pause; } ", 1),
            ("} ", 20),
        ],
        "0 CopyLarge 3145726",
    ),
    (
        &[
            ("body f(): int { 1 } module M() { ", 1),
            ("loop { ", 19),
            ("async call f() kill \"\" suspend \"x\" resume \"", 1),
            ("a", 65),
            ("\"; ", 1),
            ("} ", 20),
        ],
        "0 CopyLarge 3145726",
    ),
    // First values of the interface count nothing.
    (
        &[
            ("module M(in T: text = \"", 1),
            ("a", 4096),
            ("\") { ", 1),
            ("loop { ", 18),
            ("pause; ", 1),
            ("} ", 19),
        ],
        "fine 1 1 0 0",
    ),
    // The order of the reasons.
    (
        &[("module M() { ", 1), ("loop { ", 19), ("} ", 20)],
        "0 CopyLarge 1572862",
    ),
    (
        &[("module M() { ", 1), ("loop { ", 18), ("} ", 19)],
        "132 InstantLoop",
    ),
    (
        &[
            ("module M() { ", 1),
            ("trap T { ", 33),
            ("async call f(1); ", 1025),
            ("} ", 34),
            ("body f(a: int): int { a }", 1),
        ],
        "0 TrapsDeep 33",
    ),
    (
        &[
            ("module M() { ", 1),
            ("loop { ", 20),
            ("async call f(1); ", 1025),
            ("} ", 21),
            ("body f(a: int): int { a }", 1),
        ],
        "0 ManyAsyncs 1025",
    ),
    // Brackets, which the reader counts.
    (
        &[("module M() ", 1), ("{ ", 128), ("} ", 128)],
        "fine 0 0 0 0",
    ),
    (
        &[("module M() ", 1), ("{", 129), ("}", 129)],
        "139 DeepNesting",
    ),
];

/// How often a module runs the next one twice, what the last one is, and what comes of the text.
const DOUBLED: [(u32, &str, &str); 24] = [
    (70, "{ pause; }", "0 TooLarge 18446744073709551615"),
    (63, "{ pause; }", "0 TooLarge 18446744073709551615"),
    (62, "{ pause; }", "0 TooLarge 9223372036854775807"),
    (14, "{ halt; }", "fine 3 3 0 0"),
    (17, "{ halt; }", "0 TooLarge 393215"),
    (17, "{ sustain O; }", "0 TooLarge 655359"),
    (17, "{ sustain V(1); }", "0 TooLarge 786431"),
    (17, "{ await (A.now); }", "0 TooLarge 1179647"),
    (17, "{ await immediate (A.now); }", "0 TooLarge 1179647"),
    (17, "{ await count(3, A.now); }", "0 TooLarge 3538943"),
    (17, "{ abort (A.now) { pause; } }", "0 TooLarge 1966079"),
    (
        17,
        "{ abort immediate (A.now) { pause; } }",
        "0 TooLarge 2359295",
    ),
    (
        17,
        "{ abort count(2, A.now) { pause; } }",
        "0 TooLarge 3932159",
    ),
    (17, "{ weakabort (A.now) { pause; } }", "0 TooLarge 1703935"),
    (
        17,
        "{ weakabort immediate (A.now) { pause; } }",
        "0 TooLarge 1703935",
    ),
    (
        17,
        "{ weakabort count(2, A.now) { pause; } }",
        "0 TooLarge 3276799",
    ),
    (
        17,
        "{ suspend immediate (A.now) { pause; } }",
        "0 TooLarge 1179647",
    ),
    (17, "{ do { pause; } every (A.now); }", "0 TooLarge 2490367"),
    (17, "{ every (A.now) { pause; } }", "0 TooLarge 3670015"),
    (
        17,
        "{ every immediate (A.now) { pause; } }",
        "0 TooLarge 3670015",
    ),
    (
        17,
        "{ every count(3, A.now) { emit O; pause; } }",
        "0 TooLarge 9437183",
    ),
    (
        17,
        "{ fork { } par { pause; } par { emit O; } }",
        "0 TooLarge 786431",
    ),
    (
        17,
        "{ loop { loop { loop { loop { loop { loop { loop { loop { nothing; } } } } } } } } loop { } loop { } loop { } }",
        "0 TooLarge 2490367",
    ),
    (15, "{ nothing; }", "fine 3 3 0 0"),
];

fn doubled(alloc: Global, times: u32, last: &str) -> Result<String, Fail> {
    let mut text = String::from_str(alloc, "module M")?;
    for next in 1..=times {
        write!(
            text,
            "(in A, out V: int combine plus, out O) {{ run Z{next}(); run Z{next}(); }} module Z{next}"
        )?;
    }
    write!(text, "(in A, out V: int combine plus, out O) {last}")?;
    Ok(text)
}

/// What stands behind eight runs that stand 120 tests deep each, where the program is as high as may be.
const HIGHEST: [(Pieces, &str); 2] = [
    (
        &[("{ if (true) ", 63), ("{ emit O; ", 1), ("} ", 64)],
        "fine 2 2 0 0",
    ),
    (
        &[
            ("{ if (true) ", 60),
            ("{ loop { emit O; pause; } ", 1),
            ("} ", 61),
        ],
        "fine 2 2 0 0",
    ),
];

/// The same where it is higher, and what comes of the text.
const TOO_HIGH: [(Pieces, &str); 9] = [
    (
        &[("{ if (true) ", 64), ("{ emit O; ", 1), ("} ", 65)],
        "0 TooDeep 1025",
    ),
    (
        &[
            ("{ if (true) ", 61),
            ("{ loop { emit O; pause; } ", 1),
            ("} ", 62),
        ],
        "0 TooDeep 1025",
    ),
    (
        &[
            ("{ if (true) ", 60),
            ("{ abort (A.now) { pause; } ", 1),
            ("} ", 61),
        ],
        "0 TooDeep 1027",
    ),
    (
        &[
            ("{ if (true) ", 60),
            ("{ every (A.now) { sustain O; } ", 1),
            ("} ", 61),
        ],
        "0 TooDeep 1032",
    ),
    (
        &[
            ("{ if (true) ", 24),
            ("{ ", 1),
            ("trap T { ", 40),
            ("loop { } ", 1),
            ("} ", 65),
        ],
        "0 TooDeep 1027",
    ),
    (
        &[
            ("{ if (true) ", 62),
            ("{ nothing; nothing; if (true) { if (true) { } } ", 1),
            ("} ", 63),
        ],
        "0 TooDeep 1026",
    ),
    (
        &[
            ("{ if (true) ", 64),
            ("{ } ", 1),
            ("} nothing; nothing; ", 1),
            ("} ", 63),
        ],
        "0 TooDeep 1027",
    ),
    (
        &[
            ("{ if (true) ", 62),
            ("{ fork { } par { } par { if (true) { if (true) { } } } ", 1),
            ("} ", 63),
        ],
        "0 TooDeep 1026",
    ),
    (
        &[
            ("{ if (true) ", 62),
            ("{ { } { } { if (true) { if (true) { } } } { } ", 1),
            ("} ", 63),
        ],
        "0 TooDeep 1027",
    ),
];

fn deep(alloc: Global, last: &[(&str, u32)]) -> Result<String, Fail> {
    let mut text = String::from_str(alloc, "module Y0(in A, out O) ")?;
    for next in 1..=8 {
        add_pieces(&mut text, &[("{ if (true) ", 120)])?;
        write!(text, "{{ run Y{next}(); }} ")?;
        add_pieces(&mut text, &[("} ", 120)])?;
        write!(text, "module Y{next}(in A, out O) ")?;
    }
    add_pieces(&mut text, last)?;
    Ok(text)
}

fn expect_of_pieces(alloc: Global, rows: &[(Pieces, &str)]) -> Result<(), Fail> {
    for (pieces, want) in rows {
        let mut text = String::new(alloc);
        add_pieces(&mut text, pieces)?;
        expect(alloc, text.as_bytes(), want)?;
    }
    Ok(())
}

fn expect_of_doubled(alloc: Global, rows: &[(u32, &str, &str)]) -> Result<(), Fail> {
    for (times, last, want) in rows {
        let text = doubled(alloc, *times, last)?;
        expect(alloc, text.as_bytes(), want)?;
    }
    Ok(())
}

fn expect_of_deep(alloc: Global, rows: &[(Pieces, &str)]) -> Result<(), Fail> {
    for (last, want) in rows {
        let text = deep(alloc, last)?;
        expect(alloc, text.as_bytes(), want)?;
    }
    Ok(())
}

#[test]
fn keeps_limits(rt: HostRuntime) -> Result<(), Fail> {
    expect_of_pieces(rt.alloc(), &IN_PIECES)
}

#[test]
fn counts_what_is_run_twice(rt: HostRuntime) -> Result<(), Fail> {
    expect_of_doubled(rt.alloc(), &DOUBLED)
}

#[test]
fn takes_the_highest(rt: HostRuntime) -> Result<(), Fail> {
    expect_of_deep(rt.alloc(), &HIGHEST)
}

#[test]
fn counts_heights(rt: HostRuntime) -> Result<(), Fail> {
    expect_of_deep(rt.alloc(), &TOO_HIGH)
}
