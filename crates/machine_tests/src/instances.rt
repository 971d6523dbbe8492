//! Programs with asyncs: answers, and the effects that are told.

use crate::playing::{play_each, played};
use std::test::Fail;

const ALONE: &str = "\
body think(a: int): int { a + 1 }
module M(out V: int) { async (V) call think(4); }";

const ABORTED: &str = "\
body think(a: int): int { a + 1 }
module M(in A, out V: int) { abort (A.now) { async (V) call think(4); } }";

const AGAIN: &str = "\
body think(a: int): int { a + 1 }
module M(in R, out V: int) { do { async (V) call think(4); } every (R.now); }";

const HELD: &str = "\
body think(a: int): int { a + 1 }
module M(in A, out V: int) { suspend (A.now) { async (V) call think(4) suspend \"held\" resume \"back\"; } }";

const BESIDE: &str = "\
body think(a: int): int { a + 1 }
module M(in A, out V: int) {
  fork { async (V) call think(4); } par {
    loop { if (A.now) { signal S { if (S.now) { } else { emit S; } } } pause; }
  }
}";

const ANSWERED: [(&str, &str, &str); 7] = [
    (
        ALONE,
        "react / notify 1 5 / react",
        "1: / !start 1 think(4) / 2: V=5 done / !end 1 5",
    ),
    (
        ALONE,
        "react / notify 1 true / react",
        "1: / !start 1 think(4) / 2: / !drop 1 mistyped",
    ),
    (
        ALONE,
        "react / reset / react",
        "1: / !start 1 think(4) / reset / !kill 1 / 2: / !start 2 think(4)",
    ),
    (
        ABORTED,
        "react / react A / notify 1 5 / notify 9 5 / react",
        "1: / !start 1 think(4) / 2: done / !kill 1 / 3: / !drop 1 stale / !drop 9 unknown",
    ),
    (
        AGAIN,
        "react / notify 1 5 / react R / notify 1 7 / react",
        "1: / !start 1 think(4) / 2: / !kill 1 / !start 2 think(4) / 3: / !drop 1 stale",
    ),
    (
        "body part(a: int): int { 10 / a } module M(out N: int) { async (N) call part(0); }",
        "react / notify 1 0 / react",
        "1: / !start 1 part(0) / 2: N=0 done / !end 1 0",
    ),
    // What a refused reaction took waits, and enters in the next one.
    (
        BESIDE,
        "react / notify 1 5 / react A / react",
        "1: / !start 1 think(4) / -: causality / 2: V=5 / !end 1 5",
    ),
];

const SUSPENDED: [(&str, &str, &str); 3] = [
    (
        HELD,
        "react / react A / notify 1 5 / react A / notify 1 6 / react A / react",
        "1: / !start 1 think(4) / 2: / !suspend 1 \"held\" / 3: / 4: / !drop 1 repeated / 5: V=5 done / !end 1 5",
    ),
    (
        HELD,
        "react / react A / react A / react",
        "1: / !start 1 think(4) / 2: / !suspend 1 \"held\" / 3: / 4: / !resume 1 \"back\"",
    ),
    (
        HELD,
        "react / react A / more 1 5 / react A / notify 1 6 / more 1 8 / react / react",
        "1: / !start 1 think(4) / 2: / !suspend 1 \"held\" / 3: / 4: V=5 / !drop 1 repeated / !more 1 5 / !resume 1 \"back\" / 5: V=6 done / !end 1 6",
    ),
];

const IN_PARTS: [(&str, &str, &str); 1] = [(
    ALONE,
    "react / more 1 5 / more 1 6 / notify 1 7 / react / react / react",
    "1: / !start 1 think(4) / 2: V=5 / !more 1 5 / 3: V=6 / !more 1 6 / 4: V=7 done / !end 1 7",
)];

const PUMPED: [(&str, &str, &str); 3] = [
    // Nothing waits: it is idle, and the number of the next reaction stays.
    (
        ALONE,
        "pump / react / pump / notify 1 5 / pump / pump",
        "1: / !start 1 think(4) / 2: V=5 done / !end 1 5",
    ),
    (
        BESIDE,
        "react / notify 1 5 / react A / pump / pump",
        "1: / !start 1 think(4) / -: causality / 2: V=5 / !end 1 5",
    ),
    // Answers that wait stay at a reset, and so does the last id.
    (
        BESIDE,
        "react / notify 1 5 / react A / reset / pump",
        "1: / !start 1 think(4) / -: causality / reset / !kill 1 / 2: / !drop 1 stale / !start 2 think(4)",
    ),
];

/// Ids that are given in one reaction, those of equal places by incarnation.
const STARTED: [(&str, &str, &str); 3] = [
    (
        "host f(int): int; module M(in A) { fork { async call f(1); } par { if (A.now) { async call f(2); } } par { async call f(3) kill \"k\"; } }",
        "react A / notify 2 0 / react / reset",
        "1: / !start 1 f(1) / !start 2 f(2) / !start 3 f(3) / 2: / !end 2 0 / reset / !kill 1 / !kill 3 \"k\"",
    ),
    // One that is started and killed in one reaction is neither, and uses no id.
    (
        "host f(int): int; module M() { trap T { fork { async call f(1); } par { break T; } } async call f(2); }",
        "react",
        "1: / !start 1 f(2)",
    ),
    // One that ends and is started again in one reaction.
    (
        "host f(text): bool; module M(out B: bool, out T: text) { loop { async (B) call f(\"a\\\"b\"); } }",
        "react / notify 1 true / react / notify 2 false / react",
        "1: / !start 1 f(\"a\\\"b\") / 2: B=true / !end 1 true / !start 2 f(\"a\\\"b\") / 3: B=false / !end 2 false / !start 3 f(\"a\\\"b\")",
    ),
];

#[test]
fn answers(rt: HostRuntime) -> Result<(), Fail> {
    play_each(rt.alloc(), &ANSWERED)?;
    play_each(rt.alloc(), &IN_PARTS)
}

#[test]
fn holding(rt: HostRuntime) -> Result<(), Fail> {
    play_each(rt.alloc(), &SUSPENDED)
}

#[test]
fn pumping(rt: HostRuntime) -> Result<(), Fail> {
    play_each(rt.alloc(), &PUMPED)
}

#[test]
fn starting(rt: HostRuntime) -> Result<(), Fail> {
    play_each(rt.alloc(), &STARTED)
}

#[test]
fn last_ids(rt: HostRuntime) -> Result<(), Fail> {
    for (last, want) in [
        (
            18_446_744_073_709_550_592,
            "-: worn 18446744073709550592 / -: worn 18446744073709550592",
        ),
        (
            18_446_744_073_709_550_591,
            "1: / !start 18446744073709550592 think(4) / -: worn 18446744073709550592",
        ),
    ] {
        let found = played(rt.alloc(), ALONE, last, "react / react")?;
        assert_eq!(rt; found.as_str(), want);
    }
    // Without asyncs no id is used.
    let found = played(rt.alloc(), "module M() { }", u64::MAX, "react")?;
    assert_eq!(rt; found.as_str(), "1: done");
    Ok(())
}
