//! Tests of an inbox, full and empty, and of a thread that posts beside one that takes.

use crate::posting::{answer_to, last_pass, post_beside, post_each};
use notify_inbox::passes::{Full, Inbox};
use std::test::Fail;

#[test]
fn full_and_empty(rt: HostRuntime) -> Result<(), Fail> {
    let Ok((inbox, mut passes, mut taking)) = Inbox::new(rt.alloc(), 1) else {
        panic!(rt; "no memory")
    };
    let Some(mut posting) = last_pass(&inbox, &mut passes) else {
        panic!(rt; "no pass")
    };
    assert!(rt; post_each(&rt, &inbox, &mut posting, 4_096));
    let Err(Full(refused)) = inbox.post(&rt, &mut posting, answer_to(7)) else {
        panic!(rt; "it was not full")
    };
    let mut taken = Vec::new(rt.alloc());
    let Ok(count) = inbox.take_all(&rt, &mut taking, &mut taken) else {
        panic!(rt; "no memory")
    };
    assert!(rt; refused.id == 7 && count == 4_096 && taken.len() == 4_096 && taking.empties() == 0);
    assert!(rt; inbox.post(&rt, &mut posting, answer_to(8)).is_ok());
    let Some(last) = inbox.take_one(&rt, &mut taking) else {
        panic!(rt; "it was empty")
    };
    assert!(rt;
        last.id == 8 && inbox.take_one(&rt, &mut taking).is_none() && taking.empties() == 1
    );
    Ok(())
}

#[test]
fn what_is_posted_comes_in_order(rt: HostRuntime) -> Result<(), Fail> {
    let Some(taken) = post_beside(&rt, rt.alloc(), 10_000) else {
        panic!(rt; "no memory")
    };
    assert!(rt; taken.len() == 10_000);
    for (id, answer) in taken.iter().enumerate() {
        assert!(rt; answer.id == id as u64);
    }
    Ok(())
}
