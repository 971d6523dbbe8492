//! Whole texts, and what `play` writes for them: expected texts worked out by hand.

ghost use Rattle.std.specs.Prelude.{◌≡◌, IfOk};
ghost use Rattle.hh_base.specs.declared.value.Kind.TheVariants as kind;
ghost use Rattle.host_hooks.specs.Law.{IsAllowedBy, kinds_of};
ghost use Rattle.host_hooks.specs.Shipped.{one_text, size_law, two_texts};
ghost use Rattle.shipped_hooks.specs.Shipping.{IsSameText};

use crate::hiphop_in_memory;
use hh_base::command_line::CommandLine;
use hh_base::memory::NoMemory;
use hh_base::value::Value;
use host_hooks::shipped::text_size;
use host_hooks::table::HookTable;
use shipped_hooks::store::{compare, store_same_text, store_text_size};
use std::alloc::Global;
use std::process::Abort;
use std::test::Fail;

/// A session that asks for a name and a word, looks them up in the background, and watches the clock.
const LOGIN: &str = "\
host same_text(text, text): bool;
body minutes(n: int): int { n * 60 }
module Login(in user: text, in word: text, in login, in logout, in tick, out ok: bool, out left: int, out state: text) {
  every (login.now) {
    emit state(\"checking\");
    async (ok) call same_text(user.nowval, word.nowval) kill \"drop check\";
    if (ok.nowval) {
      emit state(\"open\");
      weakabort (logout.now) {
        abort count(3, tick.now) { async (left) call minutes(2) kill \"stop clock\"; halt; }
      }
      emit state(\"closed\");
    } else { emit state(\"denied\"); }
  }
}
";

const LOGIN_SCENARIO: &str = "\
react
react user(\"ann\") word(\"ann\") login
work 1
react
react tick
work 2
react
react tick
react tick
react login
react word(\"zed\") login
work 4
react
";

const LOGIN_LOG: &str = "\
1:
2: state=\"checking\"
!start 1 same_text(\"ann\", \"ann\")
3: ok=true state=\"open\"
!end 1 true
!start 2 minutes(2)
4:
5: left=120
!end 2 120
6:
7: state=\"closed\"
8: state=\"checking\"
!start 3 same_text(\"ann\", \"ann\")
9: state=\"checking\"
!kill 3 \"drop check\"
!start 4 same_text(\"ann\", \"zed\")
10: ok=false state=\"denied\"
!end 4 false
";

/// Modules, a scenario and its log.
const PLAYED: [(&str, &str, &str); 54] = [
    ("module M() {}", "react\nreact\n", "1: done\n2:\n"),
    (
        "module M(out P, out Q) { loop { signal S { if (S.now) { emit P; } else { emit Q; } pause; emit S; } } }",
        "react\nreact\n",
        "1: Q\n2: Q\n",
    ),
    (
        "module M(in A, out N: int combine plus) { loop { fork { trap T { loop { emit N(1); if (A.now) { break T; } pause; } } } par { pause; } } }",
        "react\nreact A\nreact\nreact\n",
        "1: N=1\n2: N=2\n3: N=1\n4: N=1\n",
    ),
    (
        "module ABRO(in A, in B, in R, out O) { do { fork { await (A.now); } par { await (B.now); } emit O; } every (R.now); }",
        "react\nreact A\nreact B\nreact A B\nreact R A B\nreact A B\n",
        "1:\n2:\n3: O\n4:\n5:\n6: O\n",
    ),
    (
        "module M(out S) { if (S.now) {} else { emit S; } }",
        "react\n",
        "-: causality S\n",
    ),
    (
        "module M() { signal S { if (S.now) {} else { emit S; } } }",
        "react\n",
        "-: causality\n",
    ),
    (
        "module M(out S) { if (S.now) { emit S; } }",
        "react\n",
        "-: causality S\n",
    ),
    (
        "module M(out X, out Y) { fork { if (Y.now) { emit X; } } par { emit Y; } }",
        "react\n",
        "1: X Y done\n",
    ),
    (
        "module M(out X, out Y) { if (Y.now) { emit X; } emit Y; }",
        "react\n",
        "-: causality X Y\n",
    ),
    (
        "module M(out V: int combine plus) { emit V(1); emit V(2); emit V(3); }",
        "react\n",
        "1: V=6 done\n",
    ),
    (
        "module M(out V: int combine plus) { emit V(9223372036854775807); emit V(1); }",
        "react\n",
        "-: fault 13 overflow\n",
    ),
    (
        "module M(out V: int combine plus) { emit V(9223372036854775807); emit V(1); emit V(-1); }",
        "react\n",
        "1: V=9223372036854775807 done\n",
    ),
    (
        "module M(out V: int) { emit V(1); emit V(2); }",
        "react\nreact\n",
        "-: multiple V\n-: multiple V\n",
    ),
    (
        "module M(out V: int) { emit V(V.nowval + 1); }",
        "react\n",
        "-: causality V\n",
    ),
    (
        "module M(out V: int) { loop { emit V(V.preval + 1); pause; } }",
        "react\nreact\nreact\n",
        "1: V=1\n2: V=2\n3: V=3\n",
    ),
    (
        "module M(in A, out X) { abort (A.now) { sustain X; } }",
        "react\nreact A\n",
        "1: X\n2: done\n",
    ),
    (
        "module M(in A, out X) { weakabort (A.now) { sustain X; } }",
        "react\nreact A\n",
        "1: X\n2: X done\n",
    ),
    (
        "body think(a: int): int { a + 1 } module M(out V: int) { async (V) call think(4); }",
        "react\nwork 1\nreact\n",
        "1:\n!start 1 think(4)\n2: V=5 done\n!end 1 5\n",
    ),
    (
        "body think(a: int): int { a + 1 } module M(out V: int) { async (V) call think(4); }",
        "react\nnotify 1 true\nreact\n",
        "1:\n!start 1 think(4)\n2:\n!drop 1 mistyped\n",
    ),
    (
        "body think(a: int): int { a + 1 } module M(out V: int) { async (V) call think(4); }",
        "react\nreset\nreact\n",
        "1:\n!start 1 think(4)\nreset\n!kill 1\n2:\n!start 2 think(4)\n",
    ),
    (
        "body think(a: int): int { a + 1 } module M(in A, out V: int) { abort (A.now) { async (V) call think(4); } }",
        "react\nreact A\nnotify 1 5\nnotify 9 5\nreact\n",
        "1:\n!start 1 think(4)\n2: done\n!kill 1\n3:\n!drop 1 stale\n!drop 9 unknown\n",
    ),
    (
        "body think(a: int): int { a + 1 } module M(in R, out V: int) { do { async (V) call think(4); } every (R.now); }",
        "react\nnotify 1 5\nreact R\nnotify 1 7\nreact\n",
        "1:\n!start 1 think(4)\n2:\n!kill 1\n!start 2 think(4)\n3:\n!drop 1 stale\n",
    ),
    (
        "body think(a: int): int { a + 1 } module M(in A, out V: int) { suspend (A.now) { async (V) call think(4) suspend \"held\" resume \"back\"; } }",
        "react\nreact A\nnotify 1 5\nreact A\nnotify 1 6\nreact A\nreact\n",
        "1:\n!start 1 think(4)\n2:\n!suspend 1 \"held\"\n3:\n4:\n!drop 1 repeated\n5: V=5 done\n!end 1 5\n",
    ),
    (
        "body think(a: int): int { a + 1 } module M(in A, out V: int) { suspend (A.now) { async (V) call think(4) suspend \"held\" resume \"back\"; } }",
        "react\nreact A\nreact A\nreact\n",
        "1:\n!start 1 think(4)\n2:\n!suspend 1 \"held\"\n3:\n4:\n!resume 1 \"back\"\n",
    ),
    (
        "body think(a: int): int { a + 1 } module M(in A, out V: int) { fork { async (V) call think(4); } par { loop { if (A.now) { signal S { if (S.now) {} else { emit S; } } } pause; } } }",
        "react\nnotify 1 5\nreact A\nreact\n",
        "1:\n!start 1 think(4)\n-: causality\n2: V=5\n!end 1 5\n",
    ),
    (
        "module M(in A, out V: int) { loop { if (A.now) { emit V(1 / 0); } pause; } }",
        "react\nreact A\nreact\n",
        "1:\n-: fault 58 divide\n2:\n",
    ),
    (
        "module M(in A, out O) { pause; if (A.now) { emit O; } }",
        "react\nreact A\nreact A\n",
        "1:\n2: O done\n3:\n",
    ),
    (
        "module M(in A, out P, out Q) { if (A.now) { emit P; } else { emit Q; } pause; emit P; }",
        "react A\nreact\n",
        "1: P\n2: P done\n",
    ),
    (
        "module M(in A, out O) { run N(I = A, J = O); pause; run N(I = A, J = O); } module N(in I, out J) { if (I.now) { emit J; } }",
        "react A\nreact A\n",
        "1: O\n2: O done\n",
    ),
    (
        "module M(in A: int, out V: int) { emit V(A.nowval * 2); pause; emit V(V.preval + 1); }",
        "react A(3)\nreact\n",
        "1: V=6\n2: V=7 done\n",
    ),
    (
        "module M(in A: int, out V: int) { emit V(10 / A.nowval); }",
        "react A(0)\nreact A(5)\n",
        "-: fault 44 divide\n1: V=2 done\n",
    ),
    (
        "module M(in A, out X) { suspend (A.now) { sustain X; } }",
        "react A\nreact A\nreact\n",
        "1: X\n2:\n3: X\n",
    ),
    (
        "module M(out X) { if (X.now) { signal T { emit T; if (T.now) {} else { emit X; } } } }",
        "react\n",
        "-: causality X\n",
    ),
    (
        "body part(a: int): int { 10 / a } module M(out N: int) { async (N) call part(0); }",
        "react\nwork 1\nreact\n",
        "1:\n!start 1 part(0)\n2: N=0 done\n!end 1 0\n",
    ),
    (
        "host text_size(text): int; module M(out N: int) { async (N) call text_size(\"abcd\"); }",
        "react\nwork 1\nreact\n",
        "1:\n!start 1 text_size(\"abcd\")\n2: N=4 done\n!end 1 4\n",
    ),
    (
        "module M(in A, in R, out N: int) { suspend (A.now) { do { signal S: int { loop { emit S(S.preval + 1); if (S.pre) { emit N(S.nowval * 10); } else { emit N(S.nowval); } pause; } } } every (R.now); } }",
        "react\nreact A\nreact\nreact R\nreact A R\nreact\n",
        "1: N=1\n2:\n3: N=20\n4: N=1\n5:\n6: N=20\n",
    ),
    (
        "body think(a: int): int { a + 1 } module M(out V: int) { async (V) call think(4); }",
        "react\nmore 1 5\nmore 1 6\nnotify 1 7\nreact\nreact\nreact\n",
        "1:\n!start 1 think(4)\n2: V=5\n!more 1 5\n3: V=6\n!more 1 6\n4: V=7 done\n!end 1 7\n",
    ),
    (
        "body think(a: int): int { a + 1 } module M(in A, out V: int) { suspend (A.now) { async (V) call think(4) suspend \"held\" resume \"back\"; } }",
        "react\nreact A\nmore 1 5\nreact A\nnotify 1 6\nmore 1 8\nreact\nreact\n",
        "1:\n!start 1 think(4)\n2:\n!suspend 1 \"held\"\n3:\n4: V=5\n!drop 1 repeated\n!more 1 5\n!resume 1 \"back\"\n5: V=6 done\n!end 1 6\n",
    ),
    (
        "module M(in A, out X) { await count(2, A.now); emit X; }",
        "react A\nreact A\nreact\nreact A\n",
        "1:\n2:\n3:\n4: X done\n",
    ),
    (
        "module M(in A, out X) { every count(2, A.now) { emit X; } }",
        "react A\nreact A\nreact A\nreact A\nreact A\n",
        "1:\n2:\n3: X\n4:\n5: X\n",
    ),
    (
        "module M(in A, out X) { do { emit X; } every count(2, A.now); }",
        "react A\nreact A\nreact A\n",
        "1: X\n2:\n3: X\n",
    ),
    (
        "module M(in A, out X) { abort count(2, A.now) { sustain X; } }",
        "react A\nreact A\nreact A\n",
        "1: X\n2: X\n3: done\n",
    ),
    (
        "module M(in A, out X) { await immediate (A.now); emit X; }",
        "react\nreact A\n",
        "1:\n2: X done\n",
    ),
    (
        "module M(in A, out X) { await immediate (A.now); emit X; }",
        "react A\n",
        "1: X done\n",
    ),
    (
        "module M(in A, out X) { every immediate (A.now) { emit X; } }",
        "react A\nreact\nreact A\n",
        "1: X\n2:\n3: X\n",
    ),
    (
        "module M(in A, out X) { suspend immediate (A.now) { sustain X; } }",
        "react A\nreact\nreact A\n",
        "1:\n2: X\n3:\n",
    ),
    (
        "module M(in A, out X) { abort immediate (A.now) { sustain X; } }",
        "react A\n",
        "1: done\n",
    ),
    (
        "module M(in A, out X) { weakabort immediate (A.now) { sustain X; } }",
        "react A\n",
        "1: X done\n",
    ),
    (
        "module M(out X, out Y) { trap T { trap U { fork { break T; } par { break U; } } emit X; } emit Y; }",
        "react\n",
        "1: Y done\n",
    ),
    (
        "module M(out A: int combine min, out B: int combine max, out C: bool combine and, out D: bool combine or) { emit A(1); emit A(2); emit B(1); emit B(2); emit C(true); emit C(false); emit D(true); emit D(false); }",
        "react\n",
        "1: A=1 B=2 C=false D=true done\n",
    ),
    (
        "module M(inout X: int combine plus) { emit X(1); }",
        "react X(2)\nreact X(2)\n",
        "1: X=3 done\n2: X=2\n",
    ),
    (
        "module M(in T: text, out U: text) { emit U(T.nowval + \"!\"); }",
        "  react   T(\"a  \\\"b\\\"\")  \r\n# nothing\n\n",
        "1: U=\"a  \\\"b\\\"!\" done\n",
    ),
    (
        "module M() { signal S: text = \"0123456789abcdef\" { loop { emit S(S.preval + S.preval); pause; } } }",
        "react\nreact\nreact\nreact\nreact\nreact\nreact\nreact\nreact\n",
        "1:\n2:\n3:\n4:\n5:\n6:\n7:\n8:\n-: fault 74 textlong\n",
    ),
    (LOGIN, LOGIN_SCENARIO, LOGIN_LOG),
];

/// Modules that are refused, and the line that says so.
const REFUSED: [(&str, &str); 28] = [
    (
        "module M() {} body f(): int { 1 @ 2 }",
        "! module 32 BadChar\n",
    ),
    (
        "module M(in A) { await count(0, A.now); }",
        "! module 29 BadCount\n",
    ),
    (
        "module M(out T: text = \"\\r\\n\") { }",
        "! module 24 BadEscape\n",
    ),
    ("module M() { /*/ }", "! module 13 CommentOpen\n"),
    ("module M() { } body f(a: int", "! module 28 EndOfText\n"),
    (
        "module M(in A: int = 9223372036854775809) {}",
        "! module 21 NumberLarge\n",
    ),
    ("module M(out O) { emit O(); }", "! module 25 Unexpected\n"),
    (
        "module M(out T: text) { emit T(\"abc\\",
        "! module 31 TextOpen\n",
    ),
    ("", "! module 0 NoModule\n"),
    (
        "host absent(int): int; module M() {}",
        "! module 0 NoHook\n",
    ),
    (
        "module M(){ } host text_size(): int;",
        "! module 14 NoHook\n",
    ),
    (
        "module M(out A) { loop { emit A; } }",
        "! module 18 InstantLoop\n",
    ),
    (
        "module M(in A) { loop { if (A.now) { pause; } } }",
        "! module 17 InstantLoop\n",
    ),
    ("module M() { run M(); }", "! module 17 RunCycle\n"),
    (
        "module M() { run A(); } module A() { run M(); }",
        "! module 17 RunCycle\n",
    ),
    (
        "module M(in A) { run N(); } module N(in X) { }",
        "! module 21 BadBinding\n",
    ),
    (
        "module M(in A) { run N(Y = A); } module N() { }",
        "! module 23 BadBinding\n",
    ),
    ("module M(in A) { emit A; }", "! module 22 EmitsInput\n"),
    (
        "module M(in A) { run N(X = A); } module N(inout X) { }",
        "! module 27 EmitsInput\n",
    ),
    ("module M(in A: int = true) { }", "! module 12 KindWrong\n"),
    ("module M(out O) { emit O(1); }", "! module 25 KindWrong\n"),
    (
        "module M() {} module N() {} module M() {}",
        "! module 35 TwiceDeclared\n",
    ),
    (
        "module M(in A, out B, inout A) {}",
        "! module 28 TwiceDeclared\n",
    ),
    (
        "module M(out V: int) { async (V) call M(); }",
        "! module 38 UnknownBody\n",
    ),
    ("module M() { run N(); }", "! module 17 UnknownModule\n"),
    (
        "module M(in A) { if (A.now && B.now) { } }",
        "! module 30 UnknownSignal\n",
    ),
    (
        "module M() { trap T { pause; } break T; }",
        "! module 37 UnknownTrap\n",
    ),
    (
        "module M(in A, in A: int = true combine and) { }",
        "! module 18 TwiceDeclared\n",
    ),
];

/// Lines that no scenario of `LINED` has.
const NO_LINES: [&str; 21] = [
    "react O",
    "react B",
    "react A A",
    "react A(1)",
    "react I",
    "react I(true)",
    "react I( 5 )",
    "react I(1)A",
    "React",
    "reactA",
    "react\tA",
    "react T(\"a)",
    "settle",
    "reset A",
    "work",
    "work 1 2",
    "work 18446744073709551616",
    "notify 1",
    "notify 1 Unit",
    "more 1",
    "%% scenario",
];

/// Inputs with and without values.
const LINED: &str = "module M(in A, in I: int, in T: text, out O) {}";

/// The input has this status and this text.
fn check(
    rt: &impl Abort,
    alloc: Global,
    hooks: &HookTable,
    input: &str,
    status: u8,
    text: &str,
) -> Result<(), Fail> {
    let mut words = CommandLine::new(alloc);
    words.push(alloc, "play")?;
    let bytes = Vec::from_slice(alloc, input.as_bytes())?;
    let played = hiphop_in_memory(alloc, &words, hooks, bytes);
    assert_eq!(rt; played.cause.status(), status, "{input}");
    assert_eq!(rt; played.text.as_slice(), text.as_bytes(), "{input}");
    Ok(())
}

fn plays_each(
    rt: &impl Abort,
    alloc: Global,
    hooks: &HookTable,
    rows: &[(&str, &str, &str)],
) -> Result<(), Fail> {
    for (modules, scenario, log) in rows {
        let input = format!(in alloc; "{modules}\n%% scenario\n{scenario}")?;
        check(rt, alloc, hooks, input.as_str(), 0, log)?;
    }
    Ok(())
}

fn refuses_each(
    rt: &impl Abort,
    alloc: Global,
    hooks: &HookTable,
    rows: &[(&str, &str)],
) -> Result<(), Fail> {
    for (modules, line) in rows {
        check(rt, alloc, hooks, modules, 3, line)?;
    }
    Ok(())
}

fn refuses_lines(
    rt: &impl Abort,
    alloc: Global,
    hooks: &HookTable,
    lines: &[&str],
) -> Result<(), Fail> {
    for line in lines {
        let input = format!(in alloc; "{LINED}\n%% scenario\n# none\nreact\n{line}\nreact O")?;
        check(rt, alloc, hooks, input.as_str(), 4, "! scenario 3\n")?;
    }
    Ok(())
}

/// All rows.
fn keeps_to_the_tables(rt: &impl Abort, alloc: Global, hooks: &HookTable) -> Result<(), Fail> {
    plays_each(rt, alloc, hooks, &PLAYED)?;
    refuses_each(rt, alloc, hooks, &REFUSED)?;
    refuses_lines(rt, alloc, hooks, &NO_LINES)
}

#[test]
fn plays_texts(rt: HostRuntime) -> Result<(), Fail> {
    let alloc = rt.alloc();
    let mut hooks = HookTable::new(alloc);
    let size = Box::new(
        alloc,
        |args: &[Value]| -> Result<Value, NoMemory>
            requires { kinds_of args.now ≡ one_text }
            ensures { IfOk result (λ v. ∥ IsAllowedBy size_law kind.Int args.now v ∥₁) }
        { Ok(text_size(args)) },
    )?;
    store_text_size(alloc, &mut hooks, size)?;
    let same = Box::new(
        alloc,
        |args: &[Value]| -> Result<Value, NoMemory>
            requires { kinds_of args.now ≡ two_texts }
            ensures { IfOk result (λ v. ∥ IsSameText args.now v ∥₁) }
        { Ok(compare(args)) },
    )?;
    store_same_text(alloc, &mut hooks, same)?;
    keeps_to_the_tables(&rt, alloc, &hooks)
}
