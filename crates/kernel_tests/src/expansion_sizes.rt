//! Sizes that were computed by hand from what each kernel statement counts.

use kernel_expand::sizes::Sizes;
use std::test::Fail;

fn sizes(size: u64, copied: u64, height: u64, traps: u64) -> Sizes {
    Sizes {
        size,
        copied,
        height,
        traps,
        sites: 0,
    }
}

/// `halt` inside so many loops.
fn loops(times: u32) -> Sizes {
    let mut whole = Sizes::leaf(0).looped();
    for _ in 0..times {
        whole = whole.looped();
    }
    whole
}

/// `halt` inside so many `abort` with a test of one leaf.
fn aborts(times: u32) -> Sizes {
    let leaf = Sizes::leaf(0);
    let waits = leaf.both(leaf.both(leaf, 1), 0).looped();
    let mut whole = leaf.looped();
    for _ in 0..times {
        let ends = whole.around(1).both(leaf, 0);
        whole = ends.both(waits, 0).trapped();
    }
    whole
}

/// A statement twice, of which each part is the one before twice.
fn doubled(times: u32) -> Sizes {
    let mut whole = Sizes::leaf(0);
    for _ in 0..times {
        whole = whole.both(whole, 0);
    }
    whole
}

#[test]
fn statements(rt: HostRuntime) -> Result<(), Fail> {
    for (counted, want) in [
        (loops(0), sizes(2, 4, 3, 0)),
        (loops(17), sizes(19, 786_430, 37, 0)),
        (aborts(33), sizes(431, 664, 135, 33)),
        (doubled(70), sizes(u64::MAX, u64::MAX, 71, 0)),
    ] {
        assert_eq!(rt; counted, want);
    }
    Ok(())
}

#[test]
fn asynchronous(rt: HostRuntime) -> Result<(), Fail> {
    let want = Sizes {
        sites: 2,
        ..sizes(9, 9, 2, 0)
    };
    assert_eq!(rt; Sizes::site(3).both(Sizes::site(3), 0), want);
    Ok(())
}
