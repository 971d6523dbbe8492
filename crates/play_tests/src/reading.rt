//! Module texts of each form, and their print.

use crate::examples::printed;
use std::test::Fail;

/// A session that asks for a name and a word, looks them up in the background, and watches the clock.
const LOGIN: &str = "\
host same_text(text, text): bool;
body minutes(n: int): int { n * 60 }
module Login(in user: text, in word: text, in login, in logout, in tick, out ok: bool, out left: int, out state: text) {
  every (login.now) {
    emit state(\"checking\");
    async (ok) call same_text(user.nowval, word.nowval) kill \"drop check\";
    if (ok.nowval) {
      emit state(\"open\");
      weakabort (logout.now) {
        abort count(3, tick.now) { async (left) call minutes(2) kill \"stop clock\"; halt; }
      }
      emit state(\"closed\");
    } else { emit state(\"denied\"); }
  }
}
";

const LOGIN_PRINTED: &str = "\
host same_text ( text , text ) : bool ;
body minutes ( n : int ) : int { n * 60 }
module Login ( in user : text , in word : text , in login , in logout , in tick , out ok : bool , out left : int , out state : text ) \
{ every ( login . now ) { emit state ( \"checking\" ) ; async ( ok ) call same_text ( user . nowval , word . nowval ) kill \"drop check\" ; \
if ( ok . nowval ) { emit state ( \"open\" ) ; weakabort ( logout . now ) { abort count ( 3 , tick . now ) { async ( left ) call minutes ( 2 ) \
kill \"stop clock\" ; halt ; } } emit state ( \"closed\" ) ; } else { emit state ( \"denied\" ) ; } } }
";

/// Texts of each form, and their print.
const PRINTS: [(&str, &str); 74] = [
    ("module M(){}// nothing", "module M ( ) { }\n"),
    ("module/**/M(/* a */) { // b\n }", "module M ( ) { }\n"),
    (
        "module N(in A, out B) {} module M() {} host f(): int; body g(): int { 1 }",
        "module N ( in A , out B ) { }\nmodule M ( ) { }\nhost f ( ) : int ;\nbody g ( ) : int { 1 }\n",
    ),
    (
        "host f(): pure; host g(int, bool, text): text; host h(int): bool; module M() {}",
        "host f ( ) : pure ;\nhost g ( int , bool , text ) : text ;\nhost h ( int ) : bool ;\nmodule M ( ) { }\n",
    ),
    (
        "body f(): text { \"\" } body g(a: int, b: bool, c: text): int { a } module M() {}",
        "body f ( ) : text { \"\" }\nbody g ( a : int , b : bool , c : text ) : int { a }\nmodule M ( ) { }\n",
    ),
    (
        "body größe(é: text): text { é + \"ü\" } module M() {}",
        "body größe ( é : text ) : text { é + \"ü\" }\nmodule M ( ) { }\n",
    ),
    (
        "module now(in pre, out plus) { if (pre.now && pre.pre) { emit plus; } }",
        "module now ( in pre , out plus ) { if ( pre . now && pre . pre ) { emit plus ; } }\n",
    ),
    (
        "module M(in A, out B, inout C) {}",
        "module M ( in A , out B , inout C ) { }\n",
    ),
    (
        "module M(in A: pure, out B: int, inout C: bool, in D: text) {}",
        "module M ( in A , out B : int , inout C : bool , in D : text ) { }\n",
    ),
    (
        "module M(in A: int combine plus, in B: int combine min, in C: int combine max) {}",
        "module M ( in A : int combine plus , in B : int combine min , in C : int combine max ) { }\n",
    ),
    (
        "module M(in A: bool combine and, in B: bool combine or) {}",
        "module M ( in A : bool combine and , in B : bool combine or ) { }\n",
    ),
    (
        "module M(out O: pure, in V: int = -5 combine plus) {}",
        "module M ( out O , in V : int = - 5 combine plus ) { }\n",
    ),
    (
        "module M(in A: int = -9223372036854775808, in T: text = \"\") {}",
        "module M ( in A : int = - 9223372036854775808 , in T : text = \"\" ) { }\n",
    ),
    (
        "module M(in A: int = 9223372036854775807, in B: int = 007, in C: int = -0) {}",
        "module M ( in A : int = 9223372036854775807 , in B : int = 7 , in C : int = 0 ) { }\n",
    ),
    (
        "module M(in A: bool = true, in B: bool = false, in C: text = \"a\") {}",
        "module M ( in A : bool = true , in B : bool = false , in C : text = \"a\" ) { }\n",
    ),
    (
        "module M(in A: text = \"\\\"\\\\\\n\\té\") {}",
        "module M ( in A : text = \"\\\"\\\\\\n\\té\" ) { }\n",
    ),
    (
        "host f(): pure; module M(in S = 5 combine max) {}",
        "host f ( ) : pure ;\nmodule M ( in S = 5 combine max ) { }\n",
    ),
    (
        "module M(in A = true, in B combine or, in C: pure = \"c\") {}",
        "module M ( in A = true , in B combine or , in C = \"c\" ) { }\n",
    ),
    (
        "module M(inout A, in B: bool = false combine and) { if (A.now) {} sustain A; }",
        "module M ( inout A , in B : bool = false combine and ) { if ( A . now ) { } sustain A ; }\n",
    ),
    (
        "module M() { signal S {} signal T: pure {} }",
        "module M ( ) { signal S { } signal T { } }\n",
    ),
    (
        "module M() { signal S: int = -5 combine min, T: bool = true, U: text = \"a\\n\", V: int combine max { pause; } }",
        "module M ( ) { signal S : int = - 5 combine min , T : bool = true , U : text = \"a\\n\" , V : int combine max { pause ; } }\n",
    ),
    (
        "module M() { signal S = 5 combine plus, T: bool = false combine and, U: bool combine or {} }",
        "module M ( ) { signal S = 5 combine plus , T : bool = false combine and , U : bool combine or { } }\n",
    ),
    (
        "module M(out O) { pause; emit O; }",
        "module M ( out O ) { pause ; emit O ; }\n",
    ),
    (
        "module M() { nothing; pause; halt; }",
        "module M ( ) { nothing ; pause ; halt ; }\n",
    ),
    (
        "module M(out O: int = 3 combine plus) { emit O(1); sustain O(O.pre ? 1 : 2); }",
        "module M ( out O : int = 3 combine plus ) { emit O ( 1 ) ; sustain O ( O . pre ? 1 : 2 ) ; }\n",
    ),
    (
        "module M(out O) { emit O; sustain O; }",
        "module M ( out O ) { emit O ; sustain O ; }\n",
    ),
    ("module M() { { } }", "module M ( ) { { } }\n"),
    (
        "module M() { {} { pause; { halt; } } { {} {} } }",
        "module M ( ) { { } { pause ; { halt ; } } { { } { } } }\n",
    ),
    (
        "module M(in A) { if (A.now) {} if (A.now) { pause; } else { halt; } if (true) {} else {} }",
        "module M ( in A ) { if ( A . now ) { } if ( A . now ) { pause ; } else { halt ; } if ( true ) { } else { } }\n",
    ),
    (
        "module M(in A) { if (((A.now) || false) && !(A.pre)) {} else { halt; } }",
        "module M ( in A ) { if ( ( A . now || false ) && ! A . pre ) { } else { halt ; } }\n",
    ),
    (
        "module M() { if (a.now) { if (b.now) {} } else {} }",
        "module M ( ) { if ( a . now ) { if ( b . now ) { } } else { } }\n",
    ),
    (
        "module M() { if (a.now) { if (b.now) {} else {} } }",
        "module M ( ) { if ( a . now ) { if ( b . now ) { } else { } } }\n",
    ),
    (
        "module M() { loop { pause; } loop {} }",
        "module M ( ) { loop { pause ; } loop { } }\n",
    ),
    (
        "module M() { fork {} fork {} par {} fork {} par { pause; } par { halt; } }",
        "module M ( ) { fork { } fork { } par { } fork { } par { pause ; } par { halt ; } }\n",
    ),
    (
        "module M(in A) { await (A.now); await count(3, A.now); await immediate (A.now); }",
        "module M ( in A ) { await ( A . now ) ; await count ( 3 , A . now ) ; await immediate ( A . now ) ; }\n",
    ),
    (
        "module M(in A) { every (A.now) {} every count(064, A.now) {} every immediate (A.now) {} }",
        "module M ( in A ) { every ( A . now ) { } every count ( 64 , A . now ) { } every immediate ( A . now ) { } }\n",
    ),
    (
        "module M(in A) { do {} every (A.now); do { pause; } every count(1, A.now); }",
        "module M ( in A ) { do { } every ( A . now ) ; do { pause ; } every count ( 1 , A . now ) ; }\n",
    ),
    (
        "module M(in A) { abort (A.now) {} abort count(2, A.now) {} abort immediate (A.now) {} }",
        "module M ( in A ) { abort ( A . now ) { } abort count ( 2 , A . now ) { } abort immediate ( A . now ) { } }\n",
    ),
    (
        "module M(in A) { weakabort (A.now) {} weakabort count(2, A.now) {} weakabort immediate (A.now) {} }",
        "module M ( in A ) { weakabort ( A . now ) { } weakabort count ( 2 , A . now ) { } weakabort immediate ( A . now ) { } }\n",
    ),
    (
        "module M() { weakabort immediate (true) { } async call f() suspend \"s\"; }",
        "module M ( ) { weakabort immediate ( true ) { } async call f ( ) suspend \"s\" ; }\n",
    ),
    (
        "module M(in A) { suspend (A.now) {} suspend immediate (A.now) {} }",
        "module M ( in A ) { suspend ( A . now ) { } suspend immediate ( A . now ) { } }\n",
    ),
    (
        "module M() { trap T { break T; } trap U {} }",
        "module M ( ) { trap T { break T ; } trap U { } }\n",
    ),
    (
        "module M() { run N(); run N(A = B); run N(A = B, C = D); }",
        "module M ( ) { run N ( ) ; run N ( A = B ) ; run N ( A = B , C = D ) ; }\n",
    ),
    (
        "module M() { async call f(); async (O) call f(); async call f(1); async (O) call f(1, a, \"x\"); }",
        "module M ( ) { async call f ( ) ; async ( O ) call f ( ) ; async call f ( 1 ) ; async ( O ) call f ( 1 , a , \"x\" ) ; }\n",
    ),
    (
        "module M() { async call f() kill \"k\"; async call f() suspend \"s\"; async call f() resume \"r\"; }",
        "module M ( ) { async call f ( ) kill \"k\" ; async call f ( ) suspend \"s\" ; async call f ( ) resume \"r\" ; }\n",
    ),
    (
        "module M() { async call f() kill \"k\" suspend \"s\"; async call f() kill \"k\" resume \"r\"; async call f() suspend \"s\" resume \"r\"; }",
        "module M ( ) { async call f ( ) kill \"k\" suspend \"s\" ; async call f ( ) kill \"k\" resume \"r\" ; async call f ( ) suspend \"s\" resume \"r\" ; }\n",
    ),
    (
        "module M() { async (O) call g(1, a) kill \"k\" suspend \"\\\"\" resume \"\\\\\\t\"; }",
        "module M ( ) { async ( O ) call g ( 1 , a ) kill \"k\" suspend \"\\\"\" resume \"\\\\\\t\" ; }\n",
    ),
    (
        "body f(): int { 0009223372036854775807 } module M() {}",
        "body f ( ) : int { 9223372036854775807 }\nmodule M ( ) { }\n",
    ),
    (
        "body f(): bool { true || false } module M() {}",
        "body f ( ) : bool { true || false }\nmodule M ( ) { }\n",
    ),
    (
        "body f(): text { \"\\\"\\\\\\n\\té // \" } module M() {}",
        "body f ( ) : text { \"\\\"\\\\\\n\\té // \" }\nmodule M ( ) { }\n",
    ),
    (
        "body f(): int { a.now ? a.nowval : (a.pre ? a.preval : a) } module M() {}",
        "body f ( ) : int { a . now ? a . nowval : ( a . pre ? a . preval : a ) }\nmodule M ( ) { }\n",
    ),
    (
        "body f(a: int): bool { a <= 1 && a >= 2 || a > 3 && a != a.preval } module M() { async call f() resume \"r\"; }",
        "body f ( a : int ) : bool { a <= 1 && a >= 2 || a > 3 && a != a . preval }\nmodule M ( ) { async call f ( ) resume \"r\" ; }\n",
    ),
    (
        "body f(): bool { a == b && c < d } module M() {}",
        "body f ( ) : bool { a == b && c < d }\nmodule M ( ) { }\n",
    ),
    (
        "body f(): bool { !a && - 1 >= -(2) || !(!b) } module M() {}",
        "body f ( ) : bool { ! a && - 1 >= - 2 || ! ( ! b ) }\nmodule M ( ) { }\n",
    ),
    (
        "body f(): int { -a * -(b * c) - (-d) } module M() {}",
        "body f ( ) : int { - a * - ( b * c ) - - d }\nmodule M ( ) { }\n",
    ),
    (
        "body f(): int { (1 - (2 - 3)) * ((4) + -(5)) } module M() { { } }",
        "body f ( ) : int { ( 1 - ( 2 - 3 ) ) * ( 4 + - 5 ) }\nmodule M ( ) { { } }\n",
    ),
    (
        "body f(): int { 1 - 2 - 3 * 4 / 5 % 6 + (7 + 8) } module M() {}",
        "body f ( ) : int { 1 - 2 - 3 * 4 / 5 % 6 + ( 7 + 8 ) }\nmodule M ( ) { }\n",
    ),
    (
        "body f(): int { ((1 - 2) - 3) + (8 / 4) / 2 } module M() {}",
        "body f ( ) : int { 1 - 2 - 3 + 8 / 4 / 2 }\nmodule M ( ) { }\n",
    ),
    (
        "body f(): int { 1 + (2 * 3) % (4 / 5) - 8 / (4 / 2) } module M() {}",
        "body f ( ) : int { 1 + 2 * 3 % ( 4 / 5 ) - 8 / ( 4 / 2 ) }\nmodule M ( ) { }\n",
    ),
    (
        "body f(): bool { (a && b) && (c && d) || ((e || f) || (g || h)) } module M() {}",
        "body f ( ) : bool { a && b && ( c && d ) || ( e || f || ( g || h ) ) }\nmodule M ( ) { }\n",
    ),
    (
        "body f(): bool { (a == b) != ((c < d) == !(e || f)) } module M() {}",
        "body f ( ) : bool { ( a == b ) != ( ( c < d ) == ! ( e || f ) ) }\nmodule M ( ) { }\n",
    ),
    (
        "body f(): bool { (a + b) < (c - d) } module M() {}",
        "body f ( ) : bool { a + b < c - d }\nmodule M ( ) { }\n",
    ),
    (
        "body f(): bool { a ? b && c || d == e : f < g } module M() {}",
        "body f ( ) : bool { a ? b && c || d == e : f < g }\nmodule M ( ) { }\n",
    ),
    (
        "body f(): bool { (a || b) ? (c || d) : (e || f) } module M() {}",
        "body f ( ) : bool { a || b ? c || d : e || f }\nmodule M ( ) { }\n",
    ),
    (
        "body f(): bool { (a ? b : c) ? (d ? e : f) : (g ? h : i) } module M() {}",
        "body f ( ) : bool { ( a ? b : c ) ? ( d ? e : f ) : ( g ? h : i ) }\nmodule M ( ) { }\n",
    ),
    (
        "body f(): int { 1 + (a ? 2 : 3) } module M() { await ((a ? b : c)); }",
        "body f ( ) : int { 1 + ( a ? 2 : 3 ) }\nmodule M ( ) { await ( a ? b : c ) ; }\n",
    ),
    (
        "module nowval(in preval: int combine or, out min, out max, out and, out or) { if (preval.nowval == preval.preval) {} }",
        "module nowval ( in preval : int combine or , out min , out max , out and , out or ) { if ( preval . nowval == preval . preval ) { } }\n",
    ),
    (
        "body f(): int { a /* . */ . // .\n now } module M() {}",
        "body f ( ) : int { a . now }\nmodule M ( ) { }\n",
    ),
    (
        "module M(in A, in A) { emit X(y.now); run N(A = A, A = B); break T; } module M() {}",
        "module M ( in A , in A ) { emit X ( y . now ) ; run N ( A = A , A = B ) ; break T ; }\nmodule M ( ) { }\n",
    ),
    (
        "module M(in A = 0009223372036854775807, in B = - 0009223372036854775808) {}",
        "module M ( in A = 9223372036854775807 , in B = - 9223372036854775808 ) { }\n",
    ),
    (
        "module M(){if(a==b&&c<=d||!e){emit S;}else{}}",
        "module M ( ) { if ( a == b && c <= d || ! e ) { emit S ; } else { } }\n",
    ),
    (
        "module modules(in input, out outer) { emit iff; emit elsewhere; sustain counts(nowval); }",
        "module modules ( in input , out outer ) { emit iff ; emit elsewhere ; sustain counts ( nowval ) ; }\n",
    ),
    (
        "body f(): bool { (a && b) < c || (a ? b : c) || d && !(a ? b : c) && !(-a) == -(!b) } module M() {}",
        "body f ( ) : bool { ( a && b ) < c || ( a ? b : c ) || d && ! ( a ? b : c ) && ! ( - a ) == - ( ! b ) }\nmodule M ( ) { }\n",
    ),
    (LOGIN, LOGIN_PRINTED),
];

#[test]
fn prints_what_is_read(rt: HostRuntime) -> Result<(), Fail> {
    for (text, want) in PRINTS {
        assert_eq!(rt; printed(rt.alloc(), text)?.as_str(), want);
    }
    Ok(())
}
