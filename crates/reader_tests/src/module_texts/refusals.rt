//! Texts that are refused, each with the place of its first fault.

use super::is_refused;
use std::alloc::Global;
use std::process::Abort;

/// Tokens that may not stand where they do, in bodies, hosts, and the heads of modules.
const TOPS: [(&str, u32); 23] = [
    ("x", 0),
    ("module M() {} x", 14),
    ("module M() {} }", 14),
    ("module M;", 8),
    ("module if() {}", 7),
    ("module () {}", 7),
    ("module M {}", 9),
    ("module M() ;", 11),
    ("module M(in A {}", 14),
    ("body f() { 1 } module M() {}", 9),
    ("body f(): pure { 1 } module M() {}", 10),
    ("body f(a: pure): int { 1 } module M() {}", 10),
    ("body f(int): int { 1 } module M() {}", 7),
    ("body f(a): int { 1 } module M() {}", 8),
    ("body f(a: int,): int { 1 } module M() {}", 14),
    ("body f(): int; module M() {}", 13),
    ("body f(): int {} module M() {}", 15),
    ("body f(): int { 1; } module M() {}", 17),
    ("host f(); module M() {}", 8),
    ("host f(pure): int; module M() {}", 7),
    ("host f(a: int): int; module M() {}", 7),
    ("host f(int,): int; module M() {}", 11),
    ("host f(): int { 1 } module M() {}", 14),
];

/// The same in declarations of signals.
const SIGNALS: [(&str, u32); 26] = [
    ("module M(A) {}", 9),
    ("module M(in A,) {}", 14),
    ("module M(in host) {}", 12),
    ("module M(in in A) {}", 12),
    ("module M(in A B) {}", 14),
    ("module M(in A out B) {}", 14),
    ("module M(in A: A) {}", 15),
    ("module M(in A: = 1) {}", 15),
    ("module M(in A = 1 : int) {}", 18),
    ("module M(in A combine plus = 1) {}", 27),
    ("module M(in A combine A) {}", 22),
    ("module M(in A combine now) {}", 22),
    ("module M(in A combine) {}", 21),
    ("module M(in A =) {}", 15),
    ("module M(in A = a) {}", 16),
    ("module M(in A = (1)) {}", 16),
    ("module M(in A: int = 9223372036854775808) {}", 21),
    ("module M(in A: int = unit) {}", 21),
    ("module M(in A: int = - true) {}", 23),
    ("module M(in A: int = --1) {}", 22),
    ("module M(in A: int = 1 + 1) {}", 23),
    ("module M() { signal {} }", 20),
    ("module M() { signal S, {} }", 23),
    ("module M() { signal S; }", 21),
    ("module M() { signal in S {} }", 20),
    ("module M() { signal S = 9223372036854775808 {} }", 24),
];

/// The same in statements.
const STATEMENTS: [(&str, u32); 31] = [
    ("module M() { ; }", 13),
    ("module M() { S; }", 13),
    ("module M() { in A; }", 13),
    ("module M() { module N() {} }", 13),
    ("module M() { nothing }", 21),
    ("module M() { pause }", 19),
    ("module M() { halt }", 18),
    ("module M() { emit S(); }", 20),
    ("module M() { emit S }", 20),
    ("module M() { emit in; }", 18),
    ("module M() { emit S(1, 2); }", 21),
    ("module M() { sustain (1); }", 21),
    ("module M() { if a {} }", 16),
    ("module M() { if () {} }", 17),
    ("module M() { if (a) pause; }", 20),
    ("module M() { else {} }", 13),
    ("module M() { if (a) {} else if (b) {} }", 28),
    ("module M() { if (a) {} else {} else {} }", 31),
    ("module M() { loop pause; }", 18),
    ("module M() { fork par {} }", 18),
    ("module M() { fork { } par }", 26),
    ("module M() { par {} }", 13),
    ("module M() { trap {} }", 18),
    ("module M() { trap T; }", 19),
    ("module M() { break ; }", 19),
    ("module M() { break T }", 21),
    ("module M() { run N; }", 18),
    ("module M() { run N(A); }", 20),
    ("module M() { run N(A = 1); }", 23),
    ("module M() { run N(A = B,); }", 25),
    ("module M() { run N(A = B C = D); }", 25),
];

/// The same in statements that wait.
const DELAYS: [(&str, u32); 21] = [
    ("module M() { await a; }", 19),
    ("module M() { await ; }", 19),
    ("module M() { await (a) {} }", 23),
    ("module M() { await immediate count(1, a); }", 29),
    ("module M() { await count 1, a; }", 25),
    ("module M() { await count(a, a); }", 25),
    ("module M() { await count(-1, a); }", 25),
    ("module M() { await count(1); }", 26),
    ("module M() { await count(1, ); }", 28),
    ("module M() { every {} }", 19),
    ("module M() { every (a); }", 22),
    ("module M() { do {} }", 19),
    ("module M() { do pause; every (a); }", 16),
    ("module M() { do {} every immediate (a); }", 25),
    ("module M() { do {} every (a) {} }", 29),
    ("module M() { abort {} }", 19),
    ("module M() { abort (a); }", 22),
    ("module M() { weakabort {} }", 23),
    ("module M() { suspend count(1, a) {} }", 21),
    ("module M() { suspend immediate count(1, a) {} }", 31),
    ("module M() { suspend (a); }", 24),
];

/// The same in calls of bodies and hosts.
const CALLS: [(&str, u32); 13] = [
    ("module M() { async f(); }", 19),
    ("module M() { async call f; }", 25),
    ("module M() { async call f() }", 28),
    ("module M() { async call f(1,); }", 28),
    ("module M() { async () call f(); }", 20),
    ("module M() { async (S, T) call f(); }", 21),
    ("module M() { async (S) f(); }", 23),
    ("module M() { async call f() kill k; }", 33),
    ("module M() { async call f() kill; }", 32),
    ("module M() { async call f() kill \"k\" kill \"k\"; }", 37),
    (
        "module M() { async call f() suspend \"s\" kill \"k\"; }",
        40,
    ),
    ("module M() { async call f() resume \"r\" kill \"k\"; }", 39),
    (
        "module M() { async call f() resume \"r\" suspend \"s\"; }",
        39,
    ),
];

/// The same in expressions.
const EXPRESSIONS: [(&str, u32); 35] = [
    ("module M() { if (!!a) {} }", 18),
    ("module M() { if (--1 == 0) {} }", 18),
    ("module M() { if (- - 1 == 0) {} }", 19),
    ("module M() { if (!-1) {} }", 18),
    ("module M() { if (-!a) {} }", 18),
    ("module M() { if (a < b < c) {} }", 23),
    ("module M() { if (a == b != c) {} }", 24),
    ("module M() { if (a ? b : c ? d : e) {} }", 27),
    ("module M() { if (a ? b ? c : d : e) {} }", 23),
    ("module M() { if (a ? b ) {} }", 23),
    ("module M() { if (a ? : b) {} }", 21),
    ("module M() { if (a : b) {} }", 19),
    ("module M() { if (a.b) {} }", 19),
    ("module M() { if (a.in) {} }", 19),
    ("module M() { if (a.now.now) {} }", 22),
    ("module M() { if (1.now) {} }", 18),
    ("module M() { if (1now) {} }", 18),
    ("module M() { if (true.now) {} }", 21),
    ("module M() { if (\"a\".now) {} }", 20),
    ("module M() { if ((a).now) {} }", 20),
    ("module M() { if (a b) {} }", 19),
    ("module M() { if (a (b)) {} }", 19),
    ("module M() { if (a ! b) {} }", 19),
    ("module M() { if (a = b) {} }", 19),
    ("module M() { if (a < = b) {} }", 21),
    ("module M() { if (a, b) {} }", 18),
    ("module M() { if (a +) {} }", 20),
    ("module M() { if (+ a) {} }", 17),
    ("module M() { if (a * / b) {} }", 21),
    ("module M() { if (()) {} }", 18),
    ("module M() { if ((a) {} }", 21),
    ("module M() { if (a)) {} }", 19),
    ("module M() { if (module) {} }", 17),
    ("module M() { pause; 9223372036854775808 }", 20),
    ("module größe(in é) { emit é 1; }", 32),
];

/// Texts that end inside a body, a host or a module.
const ENDS: [(&str, u32); 14] = [
    ("module", 6),
    ("module ", 7),
    ("module größe", 14),
    ("module M()", 10),
    ("module M() {", 12),
    ("module M() { // x", 17),
    ("module M() { if (a) {}", 22),
    ("module M() { emit S(1", 21),
    ("module M(in A = - ", 18),
    ("module M() {} host", 18),
    ("body f(", 7),
    ("body f(): int { 1 ? 2 ", 22),
    ("body f(): int { a.", 18),
    ("host f(): int", 13),
];

/// Texts without a module.
const NO_MODULE: [(&str, u32); 7] = [
    ("", 0),
    ("  // x", 0),
    (" \n", 0),
    ("/**/", 0),
    ("body f(): int { 1 }", 0),
    ("host f(): int; host g(): bool;", 0),
    ("body f(): int { 1 } // module M() {}", 0),
];

const LARGE_NUMBERS: [(&str, u32); 7] = [
    ("body f(): int { 9223372036854775808 } module M() {}", 16),
    ("body f(): int { -9223372036854775808 } module M() {}", 17),
    (
        "body f(): int { 1 + (2 * 00009223372036854775808) } module M() {}",
        25,
    ),
    ("module M(in A: int = - 9223372036854775809) {}", 23),
    ("module M() { await count(9223372036854775809, a); }", 25),
    ("module M() { pause; 9223372036854775809 }", 20),
    ("module M() { if } /* é */ 99999999999999999999", 27),
];

const BAD_COUNTS: [(&str, u32); 8] = [
    ("module M() { await count(0, a); }", 25),
    ("module M() { await count(000, a); }", 25),
    ("module M() { await count(65, a); }", 25),
    ("module M() { await count(9223372036854775808, a); }", 25),
    ("module M() { every count(0, a) {} }", 25),
    ("module M() { do {} every count(65, a); }", 31),
    ("module M() { abort count(0, a) {} }", 25),
    ("module M() { weakabort count(65, a) {} }", 29),
];

/// Texts that are not made of tokens: their fault comes before each of the grammar.
const NO_TOKENS: [(&str, &str, u32); 10] = [
    ("module M() { $ }", "BadChar", 13),
    ("module M() { if & }", "BadChar", 16),
    ("module M() { if } /* ", "CommentOpen", 18),
    ("module M() {} /*/", "CommentOpen", 14),
    ("module M() { pause; } \"", "TextOpen", 22),
    ("module M() { async call f() kill \"k\\", "TextOpen", 33),
    (
        "module M() { async call f() kill \"k\t\"; }",
        "TextOpen",
        33,
    ),
    (
        "module M() { async call f() kill \"k\n\"; }",
        "TextOpen",
        33,
    ),
    (
        "module M() { async call f() kill \"k\\\n\"; }",
        "BadEscape",
        35,
    ),
    (
        "module M() { async call f() kill \"k\\r\"; }",
        "BadEscape",
        35,
    ),
];

fn refuse_all(rt: &impl Abort, alloc: Global, rows: &[(&str, u32)], kind: &str) {
    for (text, pos) in rows.iter() {
        assert!(rt; is_refused(alloc, text, kind, *pos), "{text}");
    }
}

#[test]
fn refuses_texts(rt: HostRuntime) {
    let alloc = rt.alloc();
    refuse_all(&rt, alloc, &TOPS, "Unexpected");
    refuse_all(&rt, alloc, &SIGNALS, "Unexpected");
    refuse_all(&rt, alloc, &STATEMENTS, "Unexpected");
    refuse_all(&rt, alloc, &DELAYS, "Unexpected");
    refuse_all(&rt, alloc, &CALLS, "Unexpected");
    refuse_all(&rt, alloc, &EXPRESSIONS, "Unexpected");
    refuse_all(&rt, alloc, &ENDS, "EndOfText");
    refuse_all(&rt, alloc, &NO_MODULE, "NoModule");
    refuse_all(&rt, alloc, &LARGE_NUMBERS, "NumberLarge");
    refuse_all(&rt, alloc, &BAD_COUNTS, "BadCount");
}

#[test]
fn refuses_what_is_not_made_of_tokens(rt: HostRuntime) {
    for (text, kind, pos) in NO_TOKENS {
        assert!(rt; is_refused(rt.alloc(), text, kind, pos), "{text}");
    }
}
