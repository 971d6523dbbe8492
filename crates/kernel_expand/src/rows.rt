//! The sizes of derived statements, each by its row.

ghost use Rattle.std.specs.Prelude.{◌≡◌, replicate};
ghost use Rattle.kernel_expand.specs.Interpretation.{test_of, value_of};
ghost use Rattle.kernel_expand.specs.Interpretation as tree;
ghost use Rattle.kernel_expand.specs.Measures.{sizes};
ghost use Rattle.kernel_expand.specs.Rows as row;

use crate::sizes::Sizes;
use crate::weights;
use module_tree::source::{Delay, ExprAt, Later};

fn exit_where(test: &ExprAt<u32>) -> Sizes
    ensures { result ≡ sizes.choice (test_of test.now) sizes.exit sizes.nothing }
{
    Sizes::leaf(0).both(Sizes::leaf(0), weights::of_test(test))
}

pub fn halt() -> Sizes
    ensures { result ≡ row.halt sizes }
{
    Sizes::leaf(0).looped()
}

// Which signal it is does not count.
pub fn sustain(value: &Option<ExprAt<u32>>) -> Sizes
    ensures { result ≡ row.sustain sizes 0 (value_of value.now) }
{
    let emission = Sizes::leaf(weights::of_value(value));
    emission.both(Sizes::leaf(0), 0).looped()
}

fn waiting(test: &ExprAt<u32>) -> Sizes
    ensures { result ≡ row.waiting sizes (test_of test.now) }
{
    Sizes::leaf(0).both(exit_where(test), 0).looped()
}

fn waiting_now(test: &ExprAt<u32>) -> Sizes
    ensures { result ≡ row.waiting_now sizes (test_of test.now) }
{
    exit_where(test).both(Sizes::leaf(0), 0).looped()
}

/// So many copies of a statement, one after the other.
fn copies(times: u8, statement: Sizes) -> Sizes
    ensures { result ≡ row.listed sizes (replicate times statement) }
{
    match times {
        0 => Sizes::leaf(0),
        1 => statement,
        _ => {
            let half = times / 2;
            let first = copies(times - half, statement);
            first.both(copies(half, statement), 0)
        }
    }
}

fn await_once(test: &ExprAt<u32>) -> Sizes
    ensures { result ≡ row.await sizes (test_of test.now) }
{
    waiting(test).trapped()
}

fn await_count(times: u8, test: &ExprAt<u32>) -> Sizes
    ensures { result ≡ row.await_count sizes times (test_of test.now) }
{
    copies(times, await_once(test))
}

pub fn await_delay(delay: &Delay<u32>) -> Sizes
    ensures { result ≡ tree.await sizes delay.now }
{
    match delay {
        Delay::Later(Later::Once(test)) => await_once(test),
        Delay::Later(Later::Count(times, test)) => await_count(*times, test),
        Delay::Immediate(test) => waiting_now(test).trapped(),
    }
}

fn abort_once(test: &ExprAt<u32>, body: Sizes) -> Sizes
    ensures { result ≡ row.abort sizes (test_of test.now) body }
{
    let guarded = body.around(weights::of_test(test));
    let ends = guarded.both(Sizes::leaf(0), 0);
    ends.both(waiting(test), 0).trapped()
}

fn abort_count(times: u8, test: &ExprAt<u32>, body: Sizes) -> Sizes
    ensures { result ≡ row.abort_count sizes times (test_of test.now) body }
{
    let ends = body.around(1).both(Sizes::leaf(0), 0);
    let reached = await_count(times, test).both(Sizes::leaf(0), 0);
    let counts = reached.both(Sizes::leaf(0), 0);
    ends.both(counts, 0).around(0).trapped()
}

pub fn abort(delay: &Delay<u32>, body: Sizes) -> Sizes
    ensures { result ≡ tree.abort sizes delay.now body }
{
    match delay {
        Delay::Later(Later::Once(test)) => abort_once(test, body),
        Delay::Later(Later::Count(times, test)) => abort_count(*times, test, body),
        Delay::Immediate(test) => Sizes::leaf(0).both(
            abort_once(test, body),
            weights::of_test(test),
        ),
    }
}

/// A body that exits where it ends, beside what exits where it is aborted.
fn beside(body: Sizes, watch: Sizes) -> Sizes
    ensures { result ≡ sizes.trap (sizes.par (sizes.seq body sizes.exit) watch) }
{
    let ends = body.both(Sizes::leaf(0), 0);
    ends.both(watch, 0).trapped()
}

pub fn weak_abort(delay: &Delay<u32>, body: Sizes) -> Sizes
    ensures { result ≡ tree.weak_abort sizes delay.now body }
{
    match delay {
        Delay::Later(Later::Once(test)) => beside(body, waiting(test)),
        Delay::Later(Later::Count(times, test)) => {
            beside(body, await_count(*times, test).both(Sizes::leaf(0), 0))
        }
        Delay::Immediate(test) => beside(body, waiting_now(test)),
    }
}

pub fn suspend(immediate: bool, test: &ExprAt<u32>, body: Sizes) -> Sizes
    ensures { result ≡ tree.suspend sizes immediate (test_of test.now) body }
{
    let weight = weights::of_test(test);
    if immediate {
        let holds = Sizes::leaf(0).both(Sizes::leaf(0), weight);
        holds.both(body, 0).around(weight)
    } else {
        body.around(weight)
    }
}

fn do_every_once(test: &ExprAt<u32>, body: Sizes) -> Sizes
    ensures { result ≡ row.do_every sizes (test_of test.now) body }
{
    abort_once(test, body.both(halt(), 0)).looped()
}

fn do_every_count(times: u8, test: &ExprAt<u32>, body: Sizes) -> Sizes
    ensures { result ≡ row.do_every_count sizes times (test_of test.now) body }
{
    abort_count(times, test, body.both(halt(), 0)).looped()
}

pub fn do_every(later: &Later<u32>, body: Sizes) -> Sizes
    ensures { result ≡ tree.do_every sizes later.now body }
{
    match later {
        Later::Once(test) => do_every_once(test, body),
        Later::Count(times, test) => do_every_count(*times, test, body),
    }
}

pub fn every(delay: &Delay<u32>, body: Sizes) -> Sizes
    ensures { result ≡ tree.every sizes delay.now body }
{
    let wait = await_delay(delay);
    match delay {
        Delay::Later(Later::Once(test)) => wait.both(do_every_once(test, body), 0),
        Delay::Later(Later::Count(times, test)) => {
            wait.both(do_every_count(*times, test, body), 0)
        }
        Delay::Immediate(test) => wait.both(do_every_once(test, body), 0),
    }
}
