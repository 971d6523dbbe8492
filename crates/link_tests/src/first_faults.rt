//! Texts with faults of names, kinds and runs, each with its first one.

use link_faults::fault::LinkFault;
use link_resolve::link::{LinkError, link};
use module_reader::read::read;
use std::alloc::Global;
use std::test::Fail;

/// The place and the kind of the first fault, and a text.
const FIRST: [&str; 144] = [
    "28 TwiceDeclared module M(in A, out B, inout A) {}",
    "25 TwiceDeclared body f(): int { 1 } host f(): int; module M() { }",
    "15 TwiceDeclared body f(a: int, a: bool): int { a } module M() { }",
    "30 TwiceDeclared module M(in A) { signal A, B, A { emit A; } }",
    "35 TwiceDeclared module M() {} module N() {} module M() {}",
    "39 TwiceDeclared body f(): int { 1 } module M() {} host f(text): int;",
    "38 TwiceDeclared module M() { loop { signal S, T: int, S, S { pause; } } }",
    "38 TwiceDeclared module M() {} body f(a: int, b: bool, a: text): int { b ? a : 2 }",
    "46 TwiceDeclared module M() {} module N() { trap T { signal X, X { break T; } } }",
    "40 TwiceDeclared host g(): int; body h(): int { 1 } body h(): bool { true } body h(): text { 1 } module M() {}",
    "26 TwiceDeclared module M(in é, in e, out é: int = true) {}",
    "18 TwiceDeclared module M(in A, in A: int = true combine and) { }",
    "61 TwiceDeclared module M(in A: int) { run N(X = A); } module N(in X: int, in X) { }",
    "47 TwiceDeclared module M(in X) { run N(); } module N(in X, out X: int) { emit X(1); }",
    "30 UnknownSignal module M(in A) { if (A.now && B.now) { } }",
    "26 UnknownSignal body f(a: int): int { 1 + a.nowval } module M() { }",
    "20 UnknownSignal module M() { async (V) call g(U.now); }",
    "30 UnknownSignal module M(out V: int) { emit V(U.now); }",
    "36 UnknownSignal module M(in A) { loop { pause; emit O; } }",
    "50 UnknownSignal body f(a: int): int { a } module M(in A) { async (V) call f(1); }",
    "27 UnknownSignal module M(in A) { run N(X = B); } module N(in X) { }",
    "26 UnknownSignal body f(a: int): int { a + b } module M() { }",
    "34 UnknownSignal module M(in A: bool, out O) { if (A) { emit O; } }",
    "43 UnknownSignal module M(out O) { signal S { emit S; } if (S.now) { emit O; } }",
    "48 UnknownSignal module M(in A) { run N(); } module N() { abort (A.now) { halt; } }",
    "30 UnknownSignal module M() { trap T { sustain T; } }",
    "41 UnknownSignal module M(out V: int) { emit V(V.preval + W.preval * X.preval); }",
    "32 UnknownSignal module M(in A) { await count(2, M.now); }",
    "66 UnknownSignal body f(a: int): int { a } module M(out V: int) { async (V) call f(a); }",
    "18 UnknownSignal module M() { emit Q; } module N(in A, in A) { }",
    "28 UnknownSignal module M(out V: int) { emit Q(1 + true); }",
    "37 UnknownSignal module M(out V: int) { emit V(true + X.nowval); }",
    "17 UnknownModule module M() { run N(); }",
    "17 UnknownModule module M() { run N(); run N(); } module M() { }",
    "17 UnknownModule module M() { run N(A = B); }",
    "24 UnknownModule module M() { pause; run f(); } body f(): int { 1 }",
    "37 UnknownModule module M(in A) { every (A.now) { run n(); } } module N() { }",
    "36 UnknownModule module M() { } module N(in X) { run L(A = X); }",
    "21 UnknownModule module M(in A) { run N(X = A, X = A); }",
    "28 UnknownModule module M() { signal S { run S(); } }",
    "54 UnknownModule body f(a: int): int { a } module M(out B: bool) { run N(X = Q); async (B) call f(true); }",
    "37 UnknownTrap module M() { trap T { pause; } break T; }",
    "19 UnknownTrap module M() { break T; }",
    "61 UnknownTrap module M() { trap T { run N(); } } module N() { pause; break T; }",
    "59 UnknownTrap module M() { fork { trap T { pause; } } par { pause; break T; } }",
    "37 UnknownTrap module M() { trap T { trap U { break t; } } }",
    "53 UnknownTrap module M(in A) { abort (A.now) { loop { pause; break A; } } }",
    "80 UnknownTrap module M() { } module L() { trap Out { nothing; } } module N() { trap M { break Out; } }",
    "19 UnknownTrap module M() { break T; run N(); emit Q; }",
    "93 UnknownTrap module M(out O) { trap T { signal T { emit T; } } signal O: int { emit O(1); } emit O; break T; }",
    "24 UnknownBody module M() { async call f(); }",
    "38 UnknownBody module M(out V: int) { async (V) call M(); }",
    "64 UnknownBody body f(a: int): int { a } module M(out V: int) { async (V) call F(1); }",
    "46 UnknownBody module M() { } module N() { loop { async call g(1 + 1, \"a\"); } }",
    "65 UnknownBody module M(in A, out O) { if (A.now) { emit O; } else { async call think(A.now) kill \"k\"; } } host text_size(text): int;",
    "44 UnknownBody module M() { signal f: int { async (f) call f(1); } }",
    "24 UnknownBody module M() { async call g(); } module M() { }",
    "32 KindWrong module M(out V: int) { emit V(1 + true); }",
    "26 KindWrong module M(in A: int) { if (A.nowval) { } }",
    "25 KindWrong module M(out O) { emit O(1); }",
    "28 KindWrong module M(out V: int) { emit V; }",
    "19 KindWrong module M(in A, out O = 1) { }",
    "50 KindWrong body f(a: int): int { a } module M() { async call f(); }",
    "57 KindWrong body f(a: int): int { a } module M(out B: bool) { async (B) call f(1); }",
    "27 KindWrong module M(out O) { emit O(1 + true); }",
    "23 KindWrong body f(a: int): bool { a } module M() { }",
    "29 KindWrong module M(in V: int) { async (V) call f(1, 2); } body f(a: int): bool { true }",
    "12 KindWrong module M(in A: int = true) { }",
    "38 KindWrong module M(out V: bool combine and, out W: bool combine plus) { }",
    "20 KindWrong module M() { signal S: text = \"a\" combine max { pause; } }",
    "30 KindWrong module M() { loop { signal T, S: pure combine or { pause; } } }",
    "20 KindWrong module M() { signal S: text = -1 { } }",
    "35 KindWrong module M(out B: bool) { emit B(\"a\" < \"b\"); }",
    "39 KindWrong module M(in A, out B: bool) { emit B(1 == A.now); }",
    "39 KindWrong module M(out B: bool) { emit B(true && !1); }",
    "35 KindWrong module M(out V: int) { emit V(2 * (-false)); }",
    "42 KindWrong module M(out T: text) { emit T(\"a\" + (\"b\" - \"c\")); }",
    "37 KindWrong module M(out V: int) { emit V(1 == 1 ? 2 : \"b\"); }",
    "32 KindWrong module M(out V: int) { emit V(1 ? 2 : 3); }",
    "31 KindWrong body f(a: text): text { a + (a % a) } module M() { }",
    "39 KindWrong module M(in A: int) { await immediate (\"x\"); }",
    "37 KindWrong module M(in A: int) { every count(3, A.nowval * 2) { } }",
    "44 KindWrong module M(in T: text) { do { pause; } every (T.preval); }",
    "29 KindWrong module M(in A: int) { abort ((A.nowval)) { pause; } }",
    "41 KindWrong module M(in A: int) { weakabort count(2, 1) { pause; } }",
    "32 KindWrong module M(in A: text) { suspend (A.nowval + \"\") { pause; } }",
    "41 KindWrong module M(in A: int) { suspend immediate (-A.nowval) { pause; } }",
    "99 KindWrong module M(in A: int, out O, out V: bool) { loop { if (A.now) { emit O; } else { if (true) { sustain V; } } } }",
    "30 KindWrong module M(out V: int) { emit V(true); }",
    "45 KindWrong module M(in A: text, out V: int) { sustain V(A.nowval); }",
    "52 KindWrong body f(a: int): int { a } module M() { async call f(\"a\"); }",
    "50 KindWrong body f(a: int): int { a } module M() { async call f(1, true); }",
    "49 KindWrong host ping(): pure; module M(out V: int) { async (V) call ping(); }",
    "105 KindWrong host same_text(text, text): bool; module M(in A: text, out B: bool) { async (B) call same_text(A.nowval, A.now); }",
    "23 KindWrong body f(a: int): bool { ((a)) } module M() { }",
    "17 KindWrong body f(): text { 1 == 1 } module M() { }",
    "12 KindWrong module M(in A: int = \"a\", in B, out B) { emit A; }",
    "27 KindWrong module M(in I: int) { emit I; }",
    "56 KindWrong body f(a: int): int { a } module M(in B: bool) { async (B) call f(1); }",
    "27 KindWrong module M(out P) { emit P(1 + true); }",
    "50 KindWrong body f(a: int): int { a } module M() { async call f(true, 1); }",
    "75 KindWrong module M(in A, out O) { signal O: int { emit O(1); signal O: bool { emit O(2); } } }",
    "26 KindWrong module M() { async call f(1); } body f(a: bool): int { 1 } body f(a: int): int { 1 }",
    "33 KindWrong module M(out B: bool) { emit B(1 + true == X.nowval); }",
    "25 KindWrong module M(out P) { emit P(1 + X.nowval); }",
    "57 KindWrong body f(a: int): int { a } module M(out B: bool) { async (B) call f(); }",
    "22 EmitsInput module M(in A) { emit A; }",
    "27 EmitsInput module M(in A) { run N(X = A); } module N(out X) { emit X; }",
    "21 EmitsInput module M(in X) { run N(); } module N(out X, in Y) { }",
    "35 EmitsInput module M(in S) { signal S { } emit S; }",
    "34 EmitsInput module M(in A) { run N(A = A, B = A); } module N(in A, out B) { emit B; }",
    "37 EmitsInput module M(in A: int) { loop { sustain A(1); } }",
    "55 EmitsInput body f(a: int): int { a } module M(in V: int) { async (V) call f(1); }",
    "27 EmitsInput module M(in A) { run N(X = A); } module N(inout X) { }",
    "42 EmitsInput module M(in X, out Y) { run N(Y = Y); run N2(); } module N(in Y) { } module N2(out X) { }",
    "60 EmitsInput module M(in A, inout B) { emit B; signal A { emit A; } emit A; }",
    "52 EmitsInput module M() { } module N(in I: text) { trap T { emit I(\"a\"); break T; } }",
    "41 EmitsInput module M(in A, out V: int) { loop { emit A; emit V; } }",
    "41 EmitsInput module M(in A, out O) { run N(I = O, J = A); } module N(in I, out J) { }",
    "23 BadBinding module M(in A) { run N(Y = A); } module N() { }",
    "21 BadBinding module M(in A) { run N(); } module N(in X) { }",
    "30 BadBinding module M(in X) { run N(Y = X, Y = X); } module N(in Y) { }",
    "28 BadBinding module M(in X: int) { run N(Y = X); } module N(in Y) { }",
    "26 BadBinding module M(in X: int) { run N(); } module N(in X) { }",
    "30 BadBinding module M(in A) { run N(X = A, L = A); } module N(in X) { signal L { } }",
    "30 BadBinding module M(in A) { run N(X = A, X = A); } module N(in X) { }",
    "23 BadBinding module M(in A) { run N(X = A); } module N(in X: int) { }",
    "21 BadBinding module M(in X) { run N(); } module N(in X: int) { }",
    "56 BadBinding module M(in X: int, out Y: bool) { signal X: bool { run N(); } } module N(in X: int, out Y: bool) { }",
    "30 BadBinding module M() { signal S { } run N(); } module N(inout S) { }",
    "30 BadBinding module M(out O: text) { run N(J = O); } module N(out J: pure) { emit J; }",
    "17 BadBinding module M() { run N(); } module N(in X) { run M(); }",
    "23 BadBinding module M(in A) { run N(X = A); } module N(in X: int) { } module N(in X) { }",
    "23 BadBinding module M(in A) { run N(X = A); } module N(in X: int, in X) { }",
    "24 RunCycle module M() { pause; run M(); }",
    "41 RunCycle module A() { run B(); } module B() { run C(); } module C() { run B(); }",
    "26 RunCycle module A() { run B(); run A(); } module B() { }",
    "17 RunCycle module M() { run A(); } module A() { run M(); }",
    "41 RunCycle module M() { run A(); } module A() { run B(); } module B() { run C(); } module C() { run A(); }",
    "55 RunCycle module M() { nothing; } module N() { loop { pause; run N(); } }",
    "95 RunCycle module M() { run A(); } module A() { run B(); run B(); } module B() { if (true) { } else { run B(); } }",
    "41 RunCycle module A() { } module M() { run A(); run B(); } module B() { run A(); run C(); } module C() { run A(); run M(); }",
    "21 RunCycle module M(in X) { run N(X = X); } module N(in X) { run M(); }",
    "17 RunCycle module M() { run M(); emit Q; }",
];

fn first_fault(alloc: Global, text: &str) -> Result<LinkFault, Fail> {
    if text.len() >= 1 << 32 {
        return Err(Fail::new("the text is too long"));
    }
    match link(alloc, &read(alloc, text)?) {
        Ok(_) => Err(Fail::new("the text is linked")),
        Err(LinkError::Fault(fault)) => Ok(fault),
        Err(fault) => Err(Fail::new(fault)),
    }
}

/// Whether each text has the fault that stands before it.
fn tell_each(alloc: Global, rows: &[&str]) -> Result<(), Fail> {
    for row in rows {
        let (_, behind) = row.split_once(' ').unwrap_or(("", *row));
        let (_, text) = behind.split_once(' ').unwrap_or(("", *row));
        let fault = first_fault(alloc, text)?;
        let found = format!(in alloc; "{} {} {text}", fault.pos.0, fault.kind)?;
        if found.as_str() != *row {
            return Err(Fail::new(found));
        }
    }
    Ok(())
}

#[test]
fn tells_the_first_fault(rt: HostRuntime) -> Result<(), Fail> {
    tell_each(rt.alloc(), &FIRST)
}
