//! Programs without asyncs, each with a script and what a machine of it replies.

use crate::playing::play_each;
use std::test::Fail;

const ABRO: &str = "\
module ABRO(in A, in B, in R, out O) {
  do { fork { await (A.now); } par { await (B.now); } emit O; } every (R.now);
}";

const REINCARNATION: &str = "\
module M(out P, out Q) { loop { signal S { if (S.now) { emit P; } else { emit Q; } pause; emit S; } } }";

const LEVELS: &str = "\
module M(in A, out N: int combine plus) {
  loop {
    fork { trap T { loop { emit N(1); if (A.now) { break T; } pause; } } } par { pause; }
  }
}";

const FROZEN_LOCAL: &str = "\
module M(in A, in R, out N: int) {
  suspend (A.now) {
    do {
      signal S: int {
        loop {
          emit S(S.preval + 1);
          if (S.pre) { emit N(S.nowval * 10); } else { emit N(S.nowval); }
          pause;
        }
      }
    } every (R.now);
  }
}";

const CAUSAL: [(&str, &str, &str); 7] = [
    (
        ABRO,
        "react / react A / react B / react A B / react R A B / react A B",
        "1: / 2: / 3: O / 4: / 5: / 6: O",
    ),
    (REINCARNATION, "react / react", "1: Q / 2: Q"),
    (
        LEVELS,
        "react / react A / react / react",
        "1: N=1 / 2: N=2 / 3: N=1 / 4: N=1",
    ),
    (
        FROZEN_LOCAL,
        "react / react A / react / react R / react A R / react",
        "1: N=1 / 2: / 3: N=20 / 4: N=1 / 5: / 6: N=20",
    ),
    // One signal decides another in the other branch, in whatever order they stand.
    (
        "module M(out X, out Y) { fork { if (Y.now) { emit X; } } par { emit Y; } }",
        "react",
        "1: X Y done",
    ),
    // A program that has ended does nothing more.
    ("module M() { }", "react / react", "1: done / 2:"),
    (
        "module M(in A, out O) { pause; if (A.now) { emit O; } }",
        "react / react A / react A",
        "1: / 2: O done / 3:",
    ),
];

const NOT_CAUSAL: [(&str, &str, &str); 7] = [
    (
        "module M(out S) { if (S.now) { } else { emit S; } }",
        "react",
        "-: causality S",
    ),
    (
        "module M(out S) { if (S.now) { emit S; } }",
        "react",
        "-: causality S",
    ),
    (
        "module M() { signal S { if (S.now) { } else { emit S; } } }",
        "react",
        "-: causality",
    ),
    (
        "module M(out X, out Y) { if (Y.now) { emit X; } emit Y; }",
        "react",
        "-: causality X Y",
    ),
    // What is not known to run decides nothing.
    (
        "module M(out X) { if (X.now) { signal T { emit T; if (T.now) { } else { emit X; } } } }",
        "react",
        "-: causality X",
    ),
    (
        "module M(out V: int) { emit V(V.nowval + 1); }",
        "react",
        "-: causality V",
    ),
    // Names stand in the order of the interface, and a refusal leaves the program where it stood.
    (
        "module M(in A, out O, inout X) { run N(I = O, J = X); run N(I = A, J = O); } module N(in I, inout J) { if (I.now) { emit J; } }",
        "react A / react",
        "-: causality O X / 1: done",
    ),
];

const VALUED: [(&str, &str, &str); 9] = [
    (
        "module M(out V: int combine plus) { emit V(1); emit V(2); emit V(3); }",
        "react",
        "1: V=6 done",
    ),
    (
        "module M(out V: int combine plus) { emit V(9223372036854775807); emit V(1); }",
        "react",
        "-: fault 13 overflow",
    ),
    (
        "module M(out V: int combine plus) { emit V(9223372036854775807); emit V(1); emit V(-1); }",
        "react",
        "1: V=9223372036854775807 done",
    ),
    (
        "module M(out V: int) { emit V(1); emit V(2); }",
        "react / react",
        "-: multiple V / -: multiple V",
    ),
    (
        "module M(out V: int) { loop { emit V(V.preval + 1); pause; } }",
        "react / react / react",
        "1: V=1 / 2: V=2 / 3: V=3",
    ),
    (
        "module M(in A, out V: int) { loop { if (A.now) { emit V(1 / 0); } pause; } }",
        "react / react A / react",
        "1: / -: fault 58 divide / 2:",
    ),
    // A given input is one emission beside those of the program.
    (
        "module M(inout V: int combine max) { loop { emit V(3); pause; } }",
        "react V=5 / react V=2 / react",
        "1: V=5 / 2: V=3 / 3: V=3",
    ),
    (
        "module M(inout V: int) { loop { if (V.now) { emit V(3); } pause; } }",
        "react / react V=5",
        "-: causality V / -: multiple V",
    ),
    // Several emissions without a combine word come before faults.
    (
        "module M(out U: int, out V: int) { emit U(1 / 0); emit V(1); emit V(2); }",
        "react",
        "-: multiple V",
    ),
];

const HELD: [(&str, &str, &str); 5] = [
    (
        "module M(in A, out X) { abort (A.now) { sustain X; } }",
        "react / react A",
        "1: X / 2: done",
    ),
    (
        "module M(in A, out X) { weakabort (A.now) { sustain X; } }",
        "react / react A",
        "1: X / 2: X done",
    ),
    (
        "module M(in A, out X) { suspend (A.now) { sustain X; } }",
        "react A / react A / react",
        "1: X / 2: / 3: X",
    ),
    (
        "module M(in A, out X) { suspend immediate (A.now) { sustain X; } }",
        "react A / react A / react / react A",
        "1: / 2: / 3: X / 4:",
    ),
    (
        "module M(in A, out O) { abort count(2, A.now) { halt; } emit O; }",
        "react A / react A / react / react A / react A",
        "1: / 2: / 3: / 4: O done / 5:",
    ),
];

#[test]
fn causality(rt: HostRuntime) -> Result<(), Fail> {
    play_each(rt.alloc(), &CAUSAL)?;
    play_each(rt.alloc(), &NOT_CAUSAL)
}

#[test]
fn values(rt: HostRuntime) -> Result<(), Fail> {
    play_each(rt.alloc(), &VALUED)
}

#[test]
fn preemption(rt: HostRuntime) -> Result<(), Fail> {
    play_each(rt.alloc(), &HELD)
}
