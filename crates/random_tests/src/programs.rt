//! Texts of random small programs.

use crate::dice::Dice;
use std::alloc::Global;
use std::test::Fail;

/// What each program begins with: its interface of three signals.
const HEAD: &str = "\
body twice(n: int): int { n * 2 }
host ask(int): int;
module M(inout a, inout n: int combine plus, out w: int) { ";

/// Statements. A capital letter stands for a part: `P` a statement; `L` a new pure local and `M` a statement in
/// its scope, `I` and `J` the same of a number, `T` and `U` of a trap; `E` a test; `V` a number; `X` and `Z` a
/// pure signal and one of a number that are emitted; `B` a trap that is left.
const COMPOUND: [&str; 16] = [
    "if (E) { P } else { P } ",
    "if (E) { P } ",
    "{ P P } ",
    "{ P P P } ",
    "{ P pause; P } ",
    "fork { P } par { P } ",
    "fork { P } par { P } ",
    "loop { P pause; } ",
    "loop { pause; P } ",
    "loop { pause; P } ",
    "suspend (E) { P } ",
    "trap T { U } ",
    "trap T { U } ",
    "signal L { M } ",
    "signal L { M } ",
    "signal I: int = 1 combine plus { J } ",
];

const SIMPLE: [&str; 12] = [
    "nothing; ",
    "pause; ",
    "pause; ",
    "emit X; ",
    "emit X; ",
    "emit X; ",
    "emit Z(V); ",
    "emit Z(V); ",
    "B",
    "B",
    "async (w) call twice(V); ",
    "async call ask(V); ",
];

/// Tests, of a pure signal `R` and one of a number `Y`.
const TESTS: [&str; 8] = [
    "R.now",
    "R.now",
    "!R.now",
    "R.pre",
    "R.now && R.now",
    "R.now || !R.pre",
    "Y.nowval < 2",
    "Y.preval == 0",
];

const NUMBERS: [&str; 6] = [
    "1",
    "2",
    "Y.nowval",
    "Y.preval + 1",
    "4 / Y.preval",
    "9223372036854775807",
];

/// What is in scope: the numbers of locals, pure ones and those of
/// numbers, and of traps.
#[derive(Clone, Copy)]
struct Scope {
    pure: u64,
    numbers: u64,
    traps: u64,
}

fn one_of(dice: &mut Dice, texts: &[&'static str]) -> &'static str {
    if texts.is_empty() {
        return "";
    }
    texts[dice.below(texts.len() as u64) as usize]
}

/// One of the first names, or one of so many locals.
fn write_signal(
    dice: &mut Dice,
    names: &[&str],
    local: char,
    locals: u64,
    text: &mut String,
) -> Result<(), Fail> {
    let most = (names.len() as u64).saturating_add(locals);
    if most == 0 {
        return Ok(());
    }
    let at = dice.below(most);
    match names.get(at as usize) {
        Some(name) => write!(text, "{name}")?,
        None => write!(text, "{local}{}", at.saturating_sub(names.len() as u64))?,
    }
    Ok(())
}

fn write_break(dice: &mut Dice, scope: Scope, text: &mut String) -> Result<(), Fail> {
    if scope.traps == 0 {
        write!(text, "pause; ")?;
        return Ok(());
    }
    write!(text, "break t{}; ", dice.below(scope.traps))?;
    Ok(())
}

/// A letter of a test, a number or a statement.
fn write_letter(
    dice: &mut Dice,
    letter: char,
    scope: Scope,
    text: &mut String,
) -> Result<(), Fail> {
    match letter {
        'R' => write_signal(dice, &["a"], 's', scope.pure, text),
        'X' => write_signal(dice, &["a"], 's', scope.pure, text),
        'Y' => write_signal(dice, &["n", "w"], 'i', scope.numbers, text),
        'Z' => write_signal(dice, &["n", "w"], 'i', scope.numbers, text),
        'B' => write_break(dice, scope, text),
        'L' => Ok(write!(text, "s{}", scope.pure)?),
        'I' => Ok(write!(text, "i{}", scope.numbers)?),
        'T' => Ok(write!(text, "t{}", scope.traps)?),
        _ => Ok(write!(text, "{letter}")?),
    }
}

fn write_expression(
    dice: &mut Dice,
    pattern: &str,
    scope: Scope,
    text: &mut String,
) -> Result<(), Fail> {
    for letter in pattern.chars() {
        write_letter(dice, letter, scope, text)?;
    }
    Ok(())
}

/// The scope of a part of a statement, for its letter.
fn scope_of_part(letter: char, scope: Scope) -> Scope {
    match letter {
        'M' => Scope {
            pure: scope.pure.saturating_add(1),
            ..scope
        },
        'J' => Scope {
            numbers: scope.numbers.saturating_add(1),
            ..scope
        },
        'U' => Scope {
            traps: scope.traps.saturating_add(1),
            ..scope
        },
        _ => scope,
    }
}

fn write_statement(
    dice: &mut Dice,
    depth: u64,
    scope: Scope,
    text: &mut String,
) -> Result<(), Fail> {
    let pattern = if depth == 0 || dice.below(8) == 0 {
        one_of(dice, &SIMPLE)
    } else {
        one_of(dice, &COMPOUND)
    };
    for letter in pattern.chars() {
        match letter {
            'P' | 'M' | 'J' | 'U' => {
                if depth > 0 {
                    write_statement(dice, depth - 1, scope_of_part(letter, scope), text)?;
                }
            }
            'E' => {
                let test = one_of(dice, &TESTS);
                write_expression(dice, test, scope, text)?;
            }
            'V' => {
                let number = one_of(dice, &NUMBERS);
                write_expression(dice, number, scope, text)?;
            }
            _ => write_letter(dice, letter, scope, text)?,
        }
    }
    Ok(())
}

/// The text of a program, whose statements nest so deep.
pub fn write_program(alloc: Global, dice: &mut Dice, depth: u64) -> Result<String, Fail> {
    let mut text = String::new(alloc);
    text.push_str(HEAD)?;
    let scope = Scope {
        pure: 0,
        numbers: 0,
        traps: 0,
    };
    write_statement(dice, depth, scope, &mut text)?;
    text.push_str("}")?;
    Ok(text)
}
