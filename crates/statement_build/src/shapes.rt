//! What a statement with one body stands round it.

ghost use Rattle.std.specs.Prelude.{◌≡◌, None, IfOk};
ghost use Rattle.hh_term.specs.Placed.{placed_term};
ghost use Rattle.hh_term.specs.Placed as placed;
ghost use Rattle.kernel_expand.specs.Forms as form;
ghost use Rattle.kernel_expand.specs.Interpretation.{test_of};
ghost use Rattle.kernel_expand.specs.Numbering.{in_numbers};
ghost use Rattle.statement_build.specs.Building.{numbered_of};
ghost use Rattle.statement_build.specs.Forms as more;
ghost use Rattle.statement_build.specs.Shapes.{nests, suspends, aborts, shaped, halted, looped, behind, closed};

use crate::around::Around;
use crate::builder::Builder;
use hh_base::memory::NoMemory;
use hh_term::term::Term;
use host_expr::expr::Expr;
use kernel_expand::forms;
use kernel_expand::terms::At;
use module_tree::source::{Delay, ExprAt, Later};

/// What only nests a body.
#[derive(Drop)]
pub enum Plain {
    /// The body alone.
    Body,
    Trap,
    /// The body where the test is true.
    Then(Expr<u32>),
    Locals(Vec<u32>),
}

/// What holds a body where a test is true.
#[derive(Drop)]
pub enum Suspend {
    /// From the second instant on.
    Later(Expr<u32>),
    /// The test, and the test for the first instant.
    Now(Expr<u32>, Expr<u32>),
}

/// What ends a body.
#[derive(Drop)]
pub enum Abort<'a> {
    Once(Expr<u32>, &'a ExprAt<u32>),
    /// The first test is that for the first instant.
    Now(Expr<u32>, Expr<u32>, &'a ExprAt<u32>),
    /// The counter's signal, and how often the test is true.
    Count(u32, u8, &'a ExprAt<u32>),
    Weak(&'a Delay<u32>),
}

/// A statement with one body, but for what is common to all. Tests that are evaluated from its first instant on
/// have their numbers; the others get them behind the body's.
#[derive(Drop)]
pub enum Shape<'a> {
    Plain(Plain),
    Suspend(Suspend),
    Abort(Abort<'a>),
}

/// A body of this shape, and what stands round it.
#[derive(Drop)]
pub struct Inner<'a> {
    pub around: Around,
    pub shape: Shape<'a>,
}

/// All that a statement with one body is round it.
#[derive(Drop)]
pub struct Wrap<'a> {
    pub inner: Inner<'a>,
    /// The body halts behind its end.
    pub halts: bool,
    pub looped: bool,
    /// What comes first.
    pub before: Option<Term>,
}

/// Local signals nested round a body, the first outermost.
fn nested(at: At, numbers: &[u32], body: Term) -> Result<Term, NoMemory>
    ensures { IfOk result (λ t. placed_term t ≡ more.nested at.pos numbers.now (placed_term body)) }
{
    let mut whole = body;
    let mut left = numbers;
    'inward: while let Some((number, outer)) = left.split_last() {
        whole = at.local(*number, whole)?;
        left = outer;
    }
    Ok(whole)
}

/// A body that is suspended where the test is true, beside what waits for it.
fn aborted(at: At, guard: Expr<u32>, watch: Expr<u32>, body: Term) -> Result<Term, NoMemory>
    ensures { IfOk result (λ t. placed_term t ≡ form.beside at.pos
        (placed.Suspend at.pos guard (placed_term body)) (form.waits at.pos watch)) }
{
    let guarded = at.suspend(guard, body)?;
    let watch = forms::waits(at, watch)?;
    Ok(forms::beside(at, guarded, watch)?)
}

/// What exits with a body that is suspended while the counter is present.
fn ends_with(at: At, counter: u32, body: Term) -> Result<Term, NoMemory>
    ensures { IfOk result (λ t. placed_term t ≡ placed.Seq at.pos (placed.Suspend at.pos
        (form.present at.pos counter) (placed_term body)) (placed.Exit at.pos 0)) }
{
    let guarded = at.suspend(forms::present(at, counter), body)?;
    Ok(at.seq(guarded, at.exit(0))?)
}

/// What counts up to the counter's signal, and exits behind it.
fn counts_up(at: At, counter: u32, times: u8, test: &Expr<u32>) -> Result<Term, NoMemory>
    ensures { IfOk result (λ t. placed_term t ≡ placed.Seq at.pos (placed.Seq at.pos
        (form.awaits at.pos times test.now) (placed.Emit at.pos counter None)) (placed.Exit at.pos 0)) }
{
    let awaited = forms::awaits(at, times, test)?;
    let reached = at.seq(awaited, at.emit(counter, None))?;
    Ok(at.seq(reached, at.exit(0))?)
}

/// Both beside each other, in a trap and the counter's signal.
fn within_counter(at: At, counter: u32, ends: Term, counts: Term) -> Result<Term, NoMemory>
    ensures { IfOk result (λ t. placed_term t ≡ placed.Trap at.pos (placed.Local at.pos counter
        (placed.Par at.pos (placed_term ends) (placed_term counts)))) }
{
    let both = at.par(ends, counts)?;
    let local = at.local(counter, both)?;
    Ok(at.trap(local)?)
}

/// A body that is suspended while the counter is present, beside what counts up to it.
fn counted(at: At, counter: u32, times: u8, test: &Expr<u32>, body: Term) -> Result<Term, NoMemory>
    ensures { IfOk result (λ t. placed_term t ≡ more.counts at.pos counter times test.now
        (placed_term body)) }
{
    let ends = ends_with(at, counter, body)?;
    let counts = counts_up(at, counter, times, test)?;
    Ok(within_counter(at, counter, ends, counts)?)
}

/// The body behind an instant in which the test holds it.
fn held_first(at: At, first: Expr<u32>, body: Term) -> Result<Term, NoMemory>
    ensures { IfOk result (λ t. placed_term t ≡ placed.Seq at.pos
        (placed.If at.pos first (placed.Pause at.pos) (placed.Nothing at.pos)) (placed_term body)) }
{
    match at.choice(first, at.pause(), at.nothing()) {
        Ok(holds) => Ok(at.seq(holds, body)?),
        Err(fault) => {
            drop(body);
            Err(fault)
        }
    }
}

fn suspended_now(at: At, test: Expr<u32>, first: Expr<u32>, body: Term) -> Result<Term, NoMemory>
    ensures { IfOk result (λ t. placed_term t ≡ placed.Suspend at.pos test (placed.Seq at.pos
        (placed.If at.pos first (placed.Pause at.pos) (placed.Nothing at.pos)) (placed_term body))) }
{
    match held_first(at, first, body) {
        Ok(whole) => Ok(at.suspend(test, whole)?),
        Err(fault) => {
            drop(test);
            Err(fault)
        }
    }
}

fn nests(at: At, plain: Plain, body: Term) -> Result<Term, NoMemory>
    ensures { IfOk result (λ t. placed_term t ≡ nests at.pos plain (placed_term body)) }
{
    match plain {
        Plain::Body => Ok(body),
        Plain::Trap => Ok(at.trap(body)?),
        Plain::Then(test) => Ok(at.choice(test, body, at.nothing())?),
        Plain::Locals(numbers) => Ok(nested(at, &numbers, body)?),
    }
}

fn suspends(at: At, suspend: Suspend, body: Term) -> Result<Term, NoMemory>
    ensures { IfOk result (λ t. placed_term t ≡ suspends at.pos suspend (placed_term body)) }
{
    match suspend {
        Suspend::Later(test) => Ok(at.suspend(test, body)?),
        Suspend::Now(test, first) => Ok(suspended_now(at, test, first, body)?),
    }
}

impl Builder {
    /// What exits where a weak abort aborts.
    fn watch(&self, at: At, delay: &Delay<u32>) -> Result<Term, NoMemory>
        ensures { IfOk result (λ t. placed_term t ≡ more.watches at.pos delay.now (numbered_of self.now)) }
    {
        match delay {
            Delay::Later(Later::Once(test)) => Ok(forms::waits(at, self.test(at.alloc, test)?)?),
            Delay::Later(Later::Count(times, test)) => {
                let test = self.test(at.alloc, test)?;
                let reached = forms::awaits(at, *times, &test)?;
                Ok(at.seq(reached, at.exit(0))?)
            }
            Delay::Immediate(test) => Ok(forms::waits_now(at, self.test(at.alloc, test)?)?),
        }
    }

    /// Waits for a delay.
    pub fn awaited(&self, at: At, delay: &Delay<u32>) -> Result<Term, NoMemory>
        ensures { IfOk result (λ t. placed_term t ≡ more.awaited at.pos delay.now (numbered_of self.now)) }
    {
        match delay {
            Delay::Later(Later::Once(test)) => {
                let wait = forms::waits(at, self.test(at.alloc, test)?)?;
                Ok(at.trap(wait)?)
            }
            Delay::Later(Later::Count(times, test)) => {
                let test = self.test(at.alloc, test)?;
                Ok(forms::awaits(at, *times, &test)?)
            }
            Delay::Immediate(test) => {
                let wait = forms::waits_now(at, self.test(at.alloc, test)?)?;
                Ok(at.trap(wait)?)
            }
        }
    }

    fn aborted(
        &self,
        at: At,
        guard: Expr<u32>,
        test: &ExprAt<u32>,
        body: Term,
    ) -> Result<Term, NoMemory>
        ensures { IfOk result (λ t. placed_term t ≡ form.beside at.pos
            (placed.Suspend at.pos guard (placed_term body))
            (form.waits at.pos (in_numbers (numbered_of self.now) (test_of test.now)))) }
    {
        let watch = self.test(at.alloc, test)?;
        Ok(aborted(at, guard, watch, body)?)
    }

    fn aborted_now(
        &self,
        at: At,
        first: Expr<u32>,
        guard: Expr<u32>,
        test: &ExprAt<u32>,
        body: Term,
    ) -> Result<Term, NoMemory>
        ensures { IfOk result (λ t. placed_term t ≡ placed.If at.pos first (placed.Nothing at.pos)
            (form.beside at.pos (placed.Suspend at.pos guard (placed_term body))
            (form.waits at.pos (in_numbers (numbered_of self.now) (test_of test.now))))) }
    {
        let body = self.aborted(at, guard, test, body)?;
        Ok(at.choice(first, at.nothing(), body)?)
    }

    fn counted(
        &self,
        at: At,
        counter: u32,
        times: u8,
        test: &ExprAt<u32>,
        body: Term,
    ) -> Result<Term, NoMemory>
        ensures { IfOk result (λ t. placed_term t ≡ more.counts at.pos counter times
            (in_numbers (numbered_of self.now) (test_of test.now)) (placed_term body)) }
    {
        let test = self.test(at.alloc, test)?;
        Ok(counted(at, counter, times, &test, body)?)
    }

    fn weakly_aborted(&self, at: At, delay: &Delay<u32>, body: Term) -> Result<Term, NoMemory>
        ensures { IfOk result (λ t. placed_term t ≡ form.beside at.pos (placed_term body)
            (more.watches at.pos delay.now (numbered_of self.now))) }
    {
        let watch = self.watch(at, delay)?;
        Ok(forms::beside(at, body, watch)?)
    }

    fn aborts(&self, at: At, abort: Abort<'_>, body: Term) -> Result<Term, NoMemory>
        ensures { IfOk result (λ t. placed_term t ≡ aborts at.pos (numbered_of self.now) abort.entry
            (placed_term body)) }
    {
        match abort {
            Abort::Once(guard, test) => Ok(self.aborted(at, guard, test, body)?),
            Abort::Now(first, guard, test) => Ok(self.aborted_now(at, first, guard, test, body)?),
            Abort::Count(counter, times, test) => Ok(self.counted(at, counter, times, test, body)?),
            Abort::Weak(delay) => Ok(self.weakly_aborted(at, delay, body)?),
        }
    }

    fn shaped(&self, at: At, shape: Shape<'_>, body: Term) -> Result<Term, NoMemory>
        ensures { IfOk result (λ t. placed_term t ≡ shaped at.pos (numbered_of self.now) shape.entry
            (placed_term body)) }
    {
        match shape {
            Shape::Plain(plain) => Ok(nests(at, plain, body)?),
            Shape::Suspend(suspend) => Ok(suspends(at, suspend, body)?),
            Shape::Abort(abort) => Ok(self.aborts(at, abort, body)?),
        }
    }

    fn inside(&self, at: At, inner: Inner<'_>, halts: bool, body: Term) -> Result<Term, NoMemory>
        ensures { IfOk result (λ t. placed_term t ≡ shaped at.pos (numbered_of self.now) inner.entry.shape
            (halted at.pos halts (placed_term body))) }
    {
        match halted(at, halts, body) {
            Ok(body) => Ok(self.shaped(at, inner.shape, body)?),
            Err(fault) => {
                drop(inner);
                Err(fault)
            }
        }
    }

    /// Puts round a body that was written out what stands round it.
    pub fn close(&self, at: At, wrap: Wrap<'_>, body: Term) -> Result<Term, NoMemory>
        ensures { IfOk result (λ t. placed_term t ≡ closed at.pos (numbered_of self.now) wrap.entry
            (placed_term body)) }
    {
        let before = wrap.before;
        match self.inside(at, wrap.inner, wrap.halts, body) {
            Ok(whole) => Ok(repeated(at, wrap.looped, before, whole)?),
            Err(fault) => {
                drop(before);
                Err(fault)
            }
        }
    }
}

fn repeated(at: At, whether: bool, before: Option<Term>, body: Term) -> Result<Term, NoMemory>
    ensures { IfOk result
        (λ t. placed_term t ≡ behind at.pos before (looped at.pos whether (placed_term body))) }
{
    match looped(at, whether, body) {
        Ok(whole) => Ok(behind(at, before, whole)?),
        Err(fault) => {
            drop(before);
            Err(fault)
        }
    }
}

fn halted(at: At, halts: bool, body: Term) -> Result<Term, NoMemory>
    ensures { IfOk result (λ t. placed_term t ≡ halted at.pos halts (placed_term body)) }
{
    if halts {
        let halt = forms::halts(at)?;
        Ok(at.seq(body, halt)?)
    } else {
        Ok(body)
    }
}

fn looped(at: At, whether: bool, body: Term) -> Result<Term, NoMemory>
    ensures { IfOk result (λ t. placed_term t ≡ looped at.pos whether (placed_term body)) }
{
    if whether {
        Ok(at.looped(body)?)
    } else {
        Ok(body)
    }
}

fn behind(at: At, before: Option<Term>, body: Term) -> Result<Term, NoMemory>
    ensures { IfOk result (λ t. placed_term t ≡ behind at.pos before (placed_term body)) }
{
    match before {
        None => Ok(body),
        Some(first) => Ok(at.seq(first, body)?),
    }
}
