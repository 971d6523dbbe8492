//! The examples of docs/LANGUAGE.md. Beside each stands its print: the same tokens, parted by spaces.

use module_printer::print::print;
use module_reader::read::read;
use std::alloc::Global;
use std::test::Fail;

const PARTS: [(&str, &str); 4] = [
    (
        "module Echo(in a, out b) { pause; if (a.now) { emit b; } }",
        "module Echo ( in a , out b ) { pause ; if ( a . now ) { emit b ; } }",
    ),
    (
        "body twice(n: int): int { n * 2 }",
        "body twice ( n : int ) : int { n * 2 }",
    ),
    (
        "host lookup(text, int): text;",
        "host lookup ( text , int ) : text ;",
    ),
    ("host log(text): pure;", "host log ( text ) : pure ;"),
];

const SIGNALS: [(&str, &str); 12] = [
    ("in tick", "in tick"),
    ("out done", "out done"),
    ("inout level: int", "inout level : int"),
    ("in word: text", "in word : text"),
    ("out ok: bool", "out ok : bool"),
    ("out left: int", "out left : int"),
    ("out done: pure", "out done"),
    ("out total: int = 5", "out total : int = 5"),
    (
        "out low: int = -9223372036854775808",
        "out low : int = - 9223372036854775808",
    ),
    ("out mood: text = \"calm\"", "out mood : text = \"calm\""),
    ("out open: bool = true", "out open : bool = true"),
    (
        "out total: int = 0 combine plus",
        "out total : int = 0 combine plus",
    ),
];

const STATEMENTS: [(&str, &str); 26] = [
    ("nothing;", "nothing ;"),
    ("pause;", "pause ;"),
    ("halt;", "halt ;"),
    ("emit done;", "emit done ;"),
    ("emit left(3);", "emit left ( 3 ) ;"),
    ("sustain alarm;", "sustain alarm ;"),
    (
        "sustain level(height.nowval);",
        "sustain level ( height . nowval ) ;",
    ),
    (
        "if (login.now) { emit open; } else { emit shut; }",
        "if ( login . now ) { emit open ; } else { emit shut ; }",
    ),
    (
        "if (login.now) { emit open; }",
        "if ( login . now ) { emit open ; }",
    ),
    ("loop { emit beat; pause; }", "loop { emit beat ; pause ; }"),
    (
        "fork { await (a.now); } par { emit b; } par { pause; }",
        "fork { await ( a . now ) ; } par { emit b ; } par { pause ; }",
    ),
    ("fork { pause; }", "fork { pause ; }"),
    ("{ emit a; emit b; }", "{ emit a ; emit b ; }"),
    ("await (a.now);", "await ( a . now ) ;"),
    (
        "every (tick.now) { emit beat; }",
        "every ( tick . now ) { emit beat ; }",
    ),
    (
        "do { emit beat; } every (tick.now);",
        "do { emit beat ; } every ( tick . now ) ;",
    ),
    (
        "abort (stop.now) { sustain alarm; }",
        "abort ( stop . now ) { sustain alarm ; }",
    ),
    (
        "weakabort (stop.now) { sustain alarm; }",
        "weakabort ( stop . now ) { sustain alarm ; }",
    ),
    (
        "suspend (hold.now) { sustain alarm; }",
        "suspend ( hold . now ) { sustain alarm ; }",
    ),
    (
        "suspend immediate (hold.now) { sustain alarm; }",
        "suspend immediate ( hold . now ) { sustain alarm ; }",
    ),
    (
        "signal s, n: int = 5 combine plus { emit s; emit n(2); }",
        "signal s , n : int = 5 combine plus { emit s ; emit n ( 2 ) ; }",
    ),
    (
        "trap done { fork { await (a.now); break done; } par { halt; } }",
        "trap done { fork { await ( a . now ) ; break done ; } par { halt ; } }",
    ),
    (
        "run Login(user = name, ok = granted);",
        "run Login ( user = name , ok = granted ) ;",
    ),
    ("run Login();", "run Login ( ) ;"),
    (
        "async (ok) call lookup(name.nowval, 3) kill \"stop\" suspend \"hold\" resume \"go\";",
        "async ( ok ) call lookup ( name . nowval , 3 ) kill \"stop\" suspend \"hold\" resume \"go\" ;",
    ),
    ("async call log(\"in\");", "async call log ( \"in\" ) ;"),
];

const DELAYS: [(&str, &str); 3] = [
    ("(a.now)", "( a . now )"),
    ("immediate (a.now)", "immediate ( a . now )"),
    ("count(3, a.now)", "count ( 3 , a . now )"),
];

const EXPRESSIONS: [(&str, &str); 23] = [
    ("a.now", "a . now"),
    ("a.pre", "a . pre"),
    ("level.nowval", "level . nowval"),
    ("level.preval", "level . preval"),
    ("5", "5"),
    ("\"text\"", "\"text\""),
    ("true", "true"),
    ("false", "false"),
    ("n", "n"),
    ("!a.now", "! a . now"),
    ("-level.nowval", "- level . nowval"),
    ("level.nowval * 60 % 7", "level . nowval * 60 % 7"),
    ("\"user \" + name.nowval", "\"user \" + name . nowval"),
    ("level.nowval + 1 <= 9", "level . nowval + 1 <= 9"),
    ("a.now && !b.now", "a . now && ! b . now"),
    ("a.now || b.now", "a . now || b . now"),
    ("a.now ? level.nowval : 0", "a . now ? level . nowval : 0"),
    ("9 - 4 - 3", "9 - 4 - 3"),
    ("(9 - 4) - 3", "9 - 4 - 3"),
    ("(1 < 2) == a.now", "( 1 < 2 ) == a . now"),
    (
        "a.now ? 1 : (b.now ? 2 : 3)",
        "a . now ? 1 : ( b . now ? 2 : 3 )",
    ),
    ("-(-1)", "- ( - 1 )"),
    ("-9223372036854775807 - 1", "- 9223372036854775807 - 1"),
];

const LOGIN: &str = "\
module Login(in user, in word, out ask_user, out ask_word, out welcome, out denied) {
  emit ask_user;
  pause;
  if (user.now) {
    emit ask_word;
    pause;
    if (word.now) { emit welcome; } else { emit denied; }
  } else {
    emit denied;
  }
}
";

const LOGIN_PRINTED: &str = "\
module Login ( in user , in word , out ask_user , out ask_word , out welcome , out denied ) { emit ask_user ; \
pause ; if ( user . now ) { emit ask_word ; pause ; if ( word . now ) { emit welcome ; } else { emit denied ; \
} } else { emit denied ; } }
";

const ABRO: &str = "\
// Emits o as soon as a and b have both come, and begins anew at each r.
module Abro(in a, in b, in r, out o) {
  do {
    fork { await (a.now); } par { await (b.now); }
    emit o;
  } every (r.now);
}
";

const ABRO_PRINTED: &str = "\
module Abro ( in a , in b , in r , out o ) { do { fork { await ( a . now ) ; } par { await ( b . now ) ; } \
emit o ; } every ( r . now ) ; }
";

const CLOCK: &str = "\
body seconds(minutes: int): int { minutes * 60 }

/* Asks how long two minutes are, and counts down at each tick. */
module Clock(in start, in tick, out left: int) {
  every (start.now) {
    async (left) call seconds(2) kill \"started anew\";
    every (tick.now) { emit left(left.preval - 1); }
  }
}
";

const CLOCK_PRINTED: &str = "\
body seconds ( minutes : int ) : int { minutes * 60 }
module Clock ( in start , in tick , out left : int ) { every ( start . now ) { async ( left ) call seconds ( 2 \
) kill \"started anew\" ; every ( tick . now ) { emit left ( left . preval - 1 ) ; } } }
";

const PROGRAMS: [(&str, &str); 3] = [
    (LOGIN, LOGIN_PRINTED),
    (ABRO, ABRO_PRINTED),
    (CLOCK, CLOCK_PRINTED),
];

const FAULTS: [(&str, &str, u32); 10] = [
    ("module M() { $ }", "BadChar", 13),
    ("module M() { 9223372036854775809", "NumberLarge", 13),
    ("module M() { \"ab", "TextOpen", 13),
    ("module M() { \"a\\r\"", "BadEscape", 15),
    ("module M() { /*/", "CommentOpen", 13),
    (
        "module M() { emit a(9223372036854775808); }",
        "NumberLarge",
        20,
    ),
    ("module M() { emit; }", "Unexpected", 17),
    ("module M() {", "EndOfText", 12),
    ("module M() { await count(0, a.now); }", "BadCount", 25),
    ("body twice(n: int): int { n * 2 }", "NoModule", 0),
];

/// What is printed of a text that is read.
pub fn printed(alloc: Global, text: &str) -> Result<String, Fail> {
    if text.len() >= 1 << 32 {
        return Err(Fail::new("the text is too long"));
    }
    match read(alloc, text) {
        Ok(modules) => Ok(String::from_utf8(print(alloc, &modules)?)?),
        Err(fault) => Err(Fail::new(fault)),
    }
}

/// The text is read, and so is its print, which is this one.
fn prints(alloc: Global, text: &str, want: &str) -> Result<(), Fail> {
    let found = printed(alloc, text)?;
    let again = printed(alloc, found.as_str())?;
    if found.as_str() != want || again.as_str() != want {
        return Err(Fail::new(found));
    }
    Ok(())
}

/// Each example is printed as its table says, where it stands between these texts.
fn prints_each(
    alloc: Global,
    before: &str,
    table: &[(&str, &str)],
    behind: &str,
) -> Result<(), Fail> {
    for (example, want) in table {
        let text = format!(in alloc; "{before}{example}{behind}")?;
        let want = format!(in alloc; "{before}{want}{behind}")?;
        prints(alloc, text.as_str(), want.as_str())?;
    }
    Ok(())
}

#[test]
fn reads_examples(rt: HostRuntime) -> Result<(), Fail> {
    let alloc = rt.alloc();
    prints_each(alloc, "", &PARTS, "\nmodule M ( ) { }\n")?;
    prints_each(alloc, "module M ( ", &SIGNALS, " ) { }\n")?;
    prints_each(alloc, "module M ( ) { ", &STATEMENTS, " }\n")?;
    prints_each(alloc, "module M ( ) { await ", &DELAYS, " ; }\n")?;
    prints_each(alloc, "module M ( ) { if ( ", &EXPRESSIONS, " ) { } }\n")?;
    prints_each(alloc, "", &PROGRAMS, "")
}

#[test]
fn refuses_faults(rt: HostRuntime) -> Result<(), Fail> {
    for (text, kind, pos) in FAULTS {
        if text.len() >= 1 << 32 {
            return Err(Fail::new("the text is too long"));
        }
        match read(rt.alloc(), text) {
            Ok(_) => return Err(Fail::new("a fault is read")),
            Err(fault) => assert!(rt; fault.word() == kind && fault.place() == pos, "{text}"),
        }
    }
    Ok(())
}
