//! What tallies give, by tables.

use hh_base::value::{CombineWord, Kind, NoMemory, Tri, Value};
use host_expr::cell::Cell;
use status_table::laws::{program_is_solved, standing_is_solved, standing_steps};
use status_table::tally::Tally;
use std::alloc::Global;
use std::test::Fail;

fn executed(
    alloc: Global,
    tally: Tally,
    word: CombineWord,
    number: i64,
) -> Result<Tally, NoMemory> {
    let cell = Cell::Known(Value::Int(number));
    tally.add_executed(alloc, Kind::Int, Some(word), cell)
}

/// The tally of two emissions, of which the second is executed or only possible.
fn two(
    alloc: Global,
    word: CombineWord,
    first: i64,
    second: i64,
    sure: bool,
) -> Result<Tally, NoMemory> {
    let tally = executed(alloc, Tally::new(), word, first)?;
    if sure {
        executed(alloc, tally, word, second)
    } else {
        tally.add_possible()
    }
}

/// Whether a signal with this tally, whose value was 7, has this status, and this number as its value, if
/// that is known.
fn is_solved(alloc: Global, tally: Tally, status: Tri, value: Option<i64>) -> bool {
    let known = tally.solved(alloc, Kind::Int, Value::Int(7));
    known.status == status && is_number(&known.value, value)
}

fn is_number(cell: &Cell, value: Option<i64>) -> bool {
    match cell {
        Cell::Known(Value::Int(number)) => value == Some(*number),
        Cell::Unknown => value.is_none(),
        _ => false,
    }
}

const TWO_EMISSIONS: [(CombineWord, i64, i64, bool, Option<i64>); 8] = [
    (CombineWord::Plus, 2, 3, true, Some(5)),
    (CombineWord::Plus, 2, 3, false, None),
    (
        CombineWord::Plus,
        9223372036854775807,
        -9223372036854775808,
        true,
        Some(-1),
    ),
    (CombineWord::Plus, 9223372036854775807, 1, true, Some(0)),
    (CombineWord::Min, 4, -9, true, Some(-9)),
    (CombineWord::Min, 4, -9, false, None),
    (CombineWord::Max, 4, -9, true, Some(4)),
    (CombineWord::Max, -4, -9, true, Some(-4)),
];

#[test]
fn two_emissions(rt: HostRuntime) -> Result<(), Fail> {
    for (word, first, second, sure, want) in TWO_EMISSIONS {
        let tally = two(rt.alloc(), word, first, second, sure)?;
        let solved = is_solved(rt.alloc(), tally, Tri::One, want);
        assert!(rt; solved, "at {first} and {second}");
    }
    Ok(())
}

#[test]
fn no_emissions(rt: HostRuntime) -> Result<(), Fail> {
    assert!(rt; is_solved(rt.alloc(), Tally::new(), Tri::Zero, Some(7)));
    let possible = Tally::new().add_possible()?;
    assert!(rt; is_solved(rt.alloc(), possible, Tri::Unknown, None));
    standing_is_solved();
    standing_steps();
    program_is_solved();
    Ok(())
}
