//! What bags of literals combine to.

ghost use Rattle.std.specs.Prelude.{◌≡◌, ◌≢◌, []};
ghost use Rattle.std.specs.Bool.{OnTrue};
ghost use Rattle.hh_base.specs.Value.{kind_of};
ghost use Rattle.hh_term.specs.Fits.{WordFits};
ghost use Rattle.signal_bank.specs.BagKind.{kind_of_bag, AreOfKind, AreOfOneKind};

use hh_base::literal::{print_literal, read_literal};
use hh_base::value::{CombineWord, Kind, Value};
use signal_bank::bag::Bag;
use signal_bank::combination::{Combined, combine};
use std::alloc::Global;
use std::test::Fail;

/// The bag of these literals, which stand between single spaces.
fn bag_of(alloc: Global, literals: &str) -> Result<Bag, Fail> {
    let mut bag = Bag::new(alloc);
    for literal in literals.split(' ') {
        bag.add(read_literal(alloc, literal)?)?;
    }
    Ok(bag)
}

fn is_of_kind(value: &Value, kind: Kind) -> bool
    ensures { OnTrue result (kind_of value.now ≡ kind) }
{
    matches!(
        (value, kind),
        (Value::Unit, Kind::Pure)
            | (Value::Int(_), Kind::Int)
            | (Value::Bool(_), Kind::Bool)
            | (Value::Text(_), Kind::Text)
    )
}

fn are_of_kind(values: &[Value], kind: Kind) -> bool
    ensures { OnTrue result (AreOfKind kind values.now) }
{
    for value in values {
        if !is_of_kind(value, kind) {
            return false;
        }
    }
    true
}

fn word_fits(kind: Kind, word: Option<CombineWord>) -> bool
    ensures { OnTrue result (WordFits kind word) }
{
    match word {
        None => true,
        Some(CombineWord::Plus | CombineWord::Min | CombineWord::Max) => matches!(kind, Kind::Int),
        Some(CombineWord::And | CombineWord::Or) => matches!(kind, Kind::Bool),
    }
}

fn may_combine(values: &[Value], word: Option<CombineWord>) -> bool
    ensures filled { OnTrue result (values.now ≢ []) }
    ensures one_kind { OnTrue result (AreOfOneKind values.now) }
    ensures fits { OnTrue result (WordFits (kind_of_bag values.now) word) }
{
    match values {
        [] => false,
        [first, ..] => {
            let kind = first.kind();
            are_of_kind(values, kind) && word_fits(kind, word)
        }
    }
}

/// What the literals combine to by the word, printed.
fn answer(alloc: Global, literals: &str, word: Option<CombineWord>) -> Result<String, Fail> {
    let bag = bag_of(alloc, literals)?;
    if !may_combine(bag.as_slice(), word) {
        return Err(Fail::new("the bag may not be combined"));
    }
    let mut text = Vec::new(alloc);
    match combine(alloc, &bag, word)? {
        Combined::Single(value) => print_literal(alloc, &value, &mut text)?,
        Combined::Several => text.extend_from_slice(b"several")?,
        Combined::Overflowed => text.extend_from_slice(b"overflowed")?,
    }
    Ok(String::from_utf8(text)?)
}

#[test]
fn a_bag_keeps_its_order(rt: HostRuntime) -> Result<(), Fail> {
    let bag = bag_of(rt.alloc(), "3 1 2")?;
    assert!(rt; Bag::new(rt.alloc()).is_empty());
    assert!(rt; !bag.is_empty());
    assert_eq!(rt; bag.len(), 3);
    assert!(rt;
        matches!(
            bag.as_slice(),
            [Value::Int(3), Value::Int(1), Value::Int(2)]
        )
    );
    Ok(())
}

const WITH_A_WORD: [(CombineWord, &str, &str); 20] = [
    (CombineWord::Plus, "1 2 3", "6"),
    (CombineWord::Plus, "9223372036854775807 1", "overflowed"),
    (
        CombineWord::Plus,
        "9223372036854775806 1",
        "9223372036854775807",
    ),
    (
        CombineWord::Plus,
        "9223372036854775807 9223372036854775807 -9223372036854775807",
        "9223372036854775807",
    ),
    (CombineWord::Plus, "-9223372036854775808 -1", "overflowed"),
    (
        CombineWord::Plus,
        "-9223372036854775807 -1",
        "-9223372036854775808",
    ),
    (
        CombineWord::Plus,
        "9223372036854775807 -9223372036854775808",
        "-1",
    ),
    (
        CombineWord::Plus,
        "9223372036854775807",
        "9223372036854775807",
    ),
    (
        CombineWord::Min,
        "2 -9223372036854775808 3",
        "-9223372036854775808",
    ),
    (CombineWord::Min, "7 7", "7"),
    (CombineWord::Min, "-4", "-4"),
    (CombineWord::Max, "-2 -3 -1", "-1"),
    (
        CombineWord::Max,
        "9223372036854775807 0",
        "9223372036854775807",
    ),
    (CombineWord::Max, "-4", "-4"),
    (CombineWord::And, "true true", "true"),
    (CombineWord::And, "true true false", "false"),
    (CombineWord::And, "false", "false"),
    (CombineWord::Or, "false false", "false"),
    (CombineWord::Or, "false false true", "true"),
    (CombineWord::Or, "true", "true"),
];

#[test]
fn with_a_word(rt: HostRuntime) -> Result<(), Fail> {
    for (word, literals, want) in WITH_A_WORD {
        let found = answer(rt.alloc(), literals, Some(word))?;
        assert_eq!(rt; found.as_str(), want, "at {literals}");
    }
    Ok(())
}

#[test]
fn without_a_word(rt: HostRuntime) -> Result<(), Fail> {
    let rows = [
        ("unit", "unit"),
        ("unit unit unit", "unit"),
        ("-5", "-5"),
        ("0 0", "several"),
        ("true", "true"),
        ("true false", "several"),
        ("\"tea\\n\"", "\"tea\\n\""),
        ("\"\" \"\"", "several"),
    ];
    for (literals, want) in rows {
        let found = answer(rt.alloc(), literals, None)?;
        assert_eq!(rt; found.as_str(), want, "at {literals}");
    }
    Ok(())
}
