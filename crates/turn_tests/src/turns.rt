//! Tests of seats, and of threads that take turns.

use crate::adding::{Add, add_by_two, join_all, split_off};
use crate::tally::Tally;
use std::test::Fail;
use turn_cell::calls::Apart;
use turn_cell::cell::TurnCell;

#[test]
fn splits_until_one_turn_is_left(rt: HostRuntime) -> Result<(), Fail> {
    let Ok((cell, mut seat)) = TurnCell::new(rt.alloc(), Tally::new(rt.alloc())) else {
        panic!(rt; "no memory")
    };
    let mut others = split_off(rt.alloc(), &cell, &mut seat, 64)?;
    assert!(rt; others.len() == 63 && seat.allowance() == 1);
    let first = cell.with_turn(&rt, &mut seat, Add { number: 5 });
    let second = cell.with_turn(&rt, &mut seat, Add { number: 5 });
    assert!(rt; first.is_ok() && second.is_err() && seat.spent() == 1);
    let Err(Apart { cell, mut seat }) = cell.close(seat) else {
        panic!(rt; "it was closed too early")
    };
    join_all(&cell, &mut seat, &mut others);
    let Ok(tally) = cell.close(seat) else {
        panic!(rt; "it was not closed")
    };
    assert!(rt; tally.total == 5);
    Ok(())
}

#[test]
fn two_threads_take_a_thousand_turns_each(rt: HostRuntime) -> Result<(), Fail> {
    let Some(tally) = add_by_two(&rt, rt.alloc(), (1, 1_000_000), 1_000) else {
        panic!(rt; "no memory")
    };
    assert!(rt; tally.added.len() == 2_000 && tally.total == 1_000_001_000);
    Ok(())
}
