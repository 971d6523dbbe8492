//! An answer enters the mark of its instance.

use super::{AsyncMark, Control, Mark, MarkEnd, Marked};
use hh_base::item::{Item, Queue};
use hh_base::value::{Value, Values};
use std::alloc::Global;
use std::test::Fail;

fn instance(alloc: Global, id: u64) -> Mark {
    Mark::Async(AsyncMark {
        id,
        args: Values::new(alloc),
        queue: Queue::new(alloc),
        suspended: false,
    })
}

fn item(number: i64, last: bool) -> Item {
    let value = Value::Int(number);
    Item { value, last }
}

fn answers_of(mark: &Mark) -> usize {
    match mark {
        Mark::Async(instance) => instance.queue.len(),
        _ => 0,
    }
}

// Instances 4 and 7 run. 7 gets a part and then its last answer; what comes after is refused, and so is
// an answer to an id that nobody has.
#[test]
fn answers(rt: HostRuntime) -> Result<(), Fail> {
    let alloc = rt.alloc();
    let first = Box::new(alloc, instance(alloc, 4))?;
    let second = Box::new(alloc, instance(alloc, 7))?;
    let control = Control::At(Mark::Both(first, second));
    let mut marked = Marked { control };
    assert!(rt; marked.answer(7, item(5, false)).is_ok());
    assert!(rt; marked.answer(7, item(6, true)).is_ok());
    assert!(rt; matches!(marked.answer(7, item(8, true)), Err(MarkEnd::Refused(_))));
    assert!(rt; matches!(marked.answer(5, item(8, true)), Err(MarkEnd::Refused(_))));
    let copy = marked.copy(alloc)?;
    let Control::At(Mark::Both(first, second)) = copy.control() else {
        panic!(rt; "control rests in both branches");
    };
    assert_eq!(rt; answers_of(first), 0);
    assert_eq!(rt; answers_of(second), 2);
    Ok(())
}
