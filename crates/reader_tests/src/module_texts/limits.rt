//! Texts at the limits of nesting and of sizes, as the pieces that they are made of, each so often.

use super::{is_read, is_refused, repeated};
use std::alloc::{AllocError, Global};
use std::process::Abort;
use std::test::Fail;

/// Texts with 128 open brackets.
const DEEPEST: [&[(&str, usize)]; 4] = [
    &[("module M() ", 1), ("{", 128), ("}", 128)],
    &[
        ("module M() ", 1),
        ("{", 128),
        ("}", 127),
        ("{", 127),
        ("}", 128),
    ],
    &[
        ("module M() { if (", 1),
        ("(", 126),
        ("a", 1),
        (")", 126),
        (") {} }", 1),
    ],
    &[
        ("body f(): int { ", 1),
        ("(", 127),
        ("1", 1),
        (")", 127),
        (" } module M() {}", 1),
    ],
];

/// Texts with more brackets, or with a fault that comes before.
const TOO_DEEP: [(&[(&str, usize)], &str, u32); 7] = [
    (
        &[("module M() ", 1), ("{", 129), ("}", 129)],
        "DeepNesting",
        139,
    ),
    (&[("module M() ", 1), ("{", 129)], "DeepNesting", 139),
    (&[("module M() ", 1), ("{", 128)], "EndOfText", 139),
    (
        &[("module M() ", 1), ("{", 128), ("if {", 1), ("}", 128)],
        "Unexpected",
        142,
    ),
    (
        &[
            ("module M() { if (", 1),
            ("(", 127),
            ("a", 1),
            (")", 127),
            (") {} }", 1),
        ],
        "DeepNesting",
        143,
    ),
    (
        &[
            ("module M() { if (", 1),
            ("(", 126),
            ("a(", 1),
            (")", 127),
            (") {} }", 1),
        ],
        "Unexpected",
        144,
    ),
    (
        &[
            ("body f(): int { ", 1),
            ("(", 128),
            ("1", 1),
            (")", 128),
            (" } module M() {}", 1),
        ],
        "DeepNesting",
        143,
    ),
];

/// Statements behind `module M() { ` and 127 brackets, and the place of the bracket that is one too many.
const OPENINGS: [(&str, u32); 21] = [
    ("{}", 140),
    ("emit S(1);", 146),
    ("sustain S(1);", 149),
    ("if (a) {}", 143),
    ("loop {}", 145),
    ("fork {}", 145),
    ("await (a);", 146),
    ("await count(1, a);", 151),
    ("await immediate (a);", 156),
    ("every (a) {}", 146),
    ("every count(1, a) {}", 151),
    ("do {} every (a);", 143),
    ("abort (a) {}", 146),
    ("weakabort (a) {}", 150),
    ("suspend (a) {}", 148),
    ("suspend immediate (a) {}", 158),
    ("signal S {}", 149),
    ("trap T {}", 147),
    ("run N();", 145),
    ("async (O) call f();", 146),
    ("async call f();", 152),
];

/// Texts with expressions of 1,024 leaves and operators.
const LARGEST: [&[(&str, usize)]; 4] = [
    &[
        ("body f(): int { - 1", 1),
        ("+ 1", 511),
        ("} module M() {}", 1),
    ],
    &[
        ("body f(): bool { ", 1),
        ("a.now||", 510),
        ("(a.now ? (1) : (2)) } module M() {}", 1),
    ],
    &[
        ("module M() { async call f(", 1),
        ("1+", 511),
        ("-1, ", 1),
        ("1+", 511),
        ("-1); }", 1),
    ],
    &[
        ("module M() { if (", 1),
        ("1+", 511),
        ("-1) { emit S(", 1),
        ("1+", 511),
        ("-1); } }", 1),
    ],
];

/// Texts with one leaf or operator more, or with a fault at that token that comes before.
const TOO_LARGE: [(&[(&str, usize)], &str, u32); 10] = [
    (
        &[
            ("body f(): int { - 1", 1),
            ("+ 1", 512),
            ("} module M() {}", 1),
        ],
        "ExprLarge",
        1552,
    ),
    (
        &[
            ("body f(): int { 1", 1),
            ("+ 1", 512),
            ("} module M() {}", 1),
        ],
        "ExprLarge",
        1552,
    ),
    (
        &[
            ("body f(): int { - 1", 1),
            ("+ 1", 511),
            ("? 1 : 2 } module M() {}", 1),
        ],
        "ExprLarge",
        1552,
    ),
    (
        &[
            ("body f(): int { ", 1),
            ("1+", 512),
            ("-1 } module M() {}", 1),
        ],
        "ExprLarge",
        1040,
    ),
    (
        &[
            ("body f(): int { ", 1),
            ("1+", 512),
            ("(1) } module M() {}", 1),
        ],
        "ExprLarge",
        1041,
    ),
    (
        &[
            ("body f(): bool { ", 1),
            ("a.now||", 511),
            ("a.now ? 1 : 2 } module M() {}", 1),
        ],
        "ExprLarge",
        3602,
    ),
    (
        &[
            ("module M() { async call f(", 1),
            ("1+", 511),
            ("-1, ", 1),
            ("1+", 512),
            ("1); }", 1),
        ],
        "ExprLarge",
        2076,
    ),
    (
        &[
            ("body f(): int { - 1", 1),
            ("+ 1", 511),
            ("! } module M() {}", 1),
        ],
        "Unexpected",
        1552,
    ),
    (
        &[
            ("body f(): int { - 1", 1),
            ("+ 1", 511),
            (" 1 } module M() {}", 1),
        ],
        "Unexpected",
        1553,
    ),
    (
        &[
            ("body f(): int { ", 1),
            ("1+", 512),
            ("9223372036854775808 } module M() {}", 1),
        ],
        "NumberLarge",
        1040,
    ),
];

/// A name of 255 bytes and a text of 4,096.
const LONGEST: [&[(&str, usize)]; 2] = [
    &[("module ", 1), ("a", 255), ("() {}", 1)],
    &[("module M(in T: text = \"", 1), ("a", 4096), ("\") {}", 1)],
];

/// Names and texts that are one byte longer.
const TOO_LONG: [(&[(&str, usize)], &str, u32); 3] = [
    (&[("module ", 1), ("a", 256), ("() {}", 1)], "NameLong", 7),
    (&[("module M() { ", 1), ("a", 256)], "NameLong", 13),
    (
        &[("module M(in T: text = \"", 1), ("a", 4097), ("\") {}", 1)],
        "TextLong",
        22,
    ),
];

fn read_all(rt: &impl Abort, alloc: Global, rows: &[&[(&str, usize)]]) -> Result<(), Fail> {
    for (row, pieces) in rows.iter().enumerate() {
        let text = repeated(alloc, pieces)?;
        assert!(rt; is_read(alloc, text.as_str()), "row {row}");
    }
    Ok(())
}

fn refuse_all(
    rt: &impl Abort,
    alloc: Global,
    rows: &[(&[(&str, usize)], &str, u32)],
) -> Result<(), Fail> {
    for (row, (pieces, kind, pos)) in rows.iter().enumerate() {
        let text = repeated(alloc, pieces)?;
        assert!(rt; is_refused(alloc, text.as_str(), *kind, *pos), "row {row}");
    }
    Ok(())
}

#[test]
fn keeps_limits(rt: HostRuntime) -> Result<(), Fail> {
    let alloc = rt.alloc();
    read_all(&rt, alloc, &DEEPEST)?;
    refuse_all(&rt, alloc, &TOO_DEEP)?;
    read_all(&rt, alloc, &LARGEST)?;
    refuse_all(&rt, alloc, &TOO_LARGE)?;
    read_all(&rt, alloc, &LONGEST)?;
    refuse_all(&rt, alloc, &TOO_LONG)
}

/// `module M() { ` and this statement, in so many brackets more.
fn nested(alloc: Global, statement: &str, brackets: usize) -> Result<String, AllocError> {
    let pieces = [
        ("module M() { ", 1),
        ("{", brackets),
        (statement, 1),
        ("}", brackets),
        (" }", 1),
    ];
    repeated(alloc, &pieces)
}

#[test]
fn keeps_depth_at_each_bracket(rt: HostRuntime) -> Result<(), Fail> {
    let alloc = rt.alloc();
    for (statement, pos) in OPENINGS {
        let deepest = nested(alloc, statement, 126)?;
        assert!(rt; is_read(alloc, deepest.as_str()), "{statement}");
        let deeper = nested(alloc, statement, 127)?;
        assert!(rt;
            is_refused(alloc, deeper.as_str(), "DeepNesting", pos),
            "{statement}"
        );
    }
    Ok(())
}
