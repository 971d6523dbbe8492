//! The first step of writing a statement out: all but its blocks.

ghost use Rattle.std.specs.Prelude.{◌≡◌, ℕ, true, false, None, IfOk};
ghost use Rattle.hh_term.specs.Placed.{placed_term};
ghost use Rattle.hh_term.specs.Placed as placed;
ghost use Rattle.module_tree.specs.declared.source.Later.TheVariants as later;
ghost use Rattle.module_tree.specs.declared.source.Delay.TheVariants as delay;
ghost use Rattle.module_tree.specs.declared.source.Statement.{size-Statement};
ghost use Rattle.kernel_expand.specs.Interpretation as tree;
ghost use Rattle.kernel_expand.specs.Interpretation.{value_of, test_of};
ghost use Rattle.kernel_expand.specs.Numbering.{Piece, numbering, number_of, value_in_numbers};
ghost use Rattle.statement_build.specs.Building.{numbered_of, around_of};
ghost use Rattle.statement_build.specs.Shapes.{inside, wrapped};
ghost use Rattle.statement_build.specs.Steps.{made, IsWithin};

use crate::around::Around;
use crate::builder::Builder;
use crate::shapes::{Abort, Inner, Plain, Shape, Suspend, Wrap};
use hh_base::memory::NoMemory;
use hh_term::term::Term;
use host_expr::expr::Expr;
use kernel_expand::forms;
use kernel_expand::terms::At;
use module_tree::source::{
    Binding, BlockNode, Delay, ExprAt, Later, NameAt, SignalNode, Statement,
};
use sqlite_items::Boxed;

/// What is left to be written out of a statement.
#[derive(Drop)]
pub enum Step<'a> {
    /// Nothing: this is all.
    Done(Term),
    /// A body, with what stands round it.
    Inside(Wrap<'a>, &'a BlockNode<u32>),
    /// Both parts of a test.
    Choice(Expr<u32>, &'a BlockNode<u32>, &'a BlockNode<u32>),
    Branches(&'a [BlockNode<u32>]),
    /// The body of a module, with these signals for its interface.
    Run(u32, &'a [Binding<u32>]),
}

/// The shape alone.
fn plain<'a>(inner: Inner<'a>) -> Wrap<'a>
    ensures { result ≡ record { inner = inner.entry; halts = false; looped = false; before = None } }
{
    Wrap {
        inner,
        halts: false,
        looped: false,
        before: None,
    }
}

/// The shape in a loop, with a halt behind the body, and this before the loop.
fn renewed<'a>(inner: Inner<'a>, before: Option<Term>) -> Wrap<'a>
    ensures { result ≡ record { inner = inner.entry; halts = true; looped = true; before = before } }
{
    Wrap {
        inner,
        halts: true,
        looped: true,
        before,
    }
}

impl Builder {
    fn emission(
        &self,
        at: At,
        name: &NameAt<u32>,
        value: &Option<ExprAt<u32>>,
    ) -> Result<Term, NoMemory>
        ensures { IfOk result (λ t. placed_term t ≡ placed.Emit at.pos
            (number_of (numbered_of self.now) name.now.name)
            (value_in_numbers (numbered_of self.now) (value_of value.now))) }
    {
        let value = self.value(at.alloc, value)?;
        Ok(at.emit(self.number_of(name.name), value))
    }

    fn sustained(
        &self,
        at: At,
        name: &NameAt<u32>,
        value: &Option<ExprAt<u32>>,
    ) -> Result<Term, NoMemory>
        ensures { IfOk result (λ t. placed_term t ≡ placed.Loop at.pos (placed.Seq at.pos
            (placed.Emit at.pos (number_of (numbered_of self.now) name.now.name)
            (value_in_numbers (numbered_of self.now) (value_of value.now))) (placed.Pause at.pos))) }
    {
        let emission = self.emission(at, name, value)?;
        let instant = at.seq(emission, at.pause())?;
        Ok(at.looped(instant)?)
    }

    /// A body that is aborted where the test is true.
    fn abort_once<'a>(
        &self,
        at: At,
        test: &'a ExprAt<u32>,
        around: &Around,
    ) -> Result<Inner<'a>, NoMemory>
        ensures { (f : ℕ → Piece) (p : Piece) → IfOk result (λ w. tree.abort (numbering f at.pos)
            (delay.Later (later.Once test.now)) p (around_of around.now)
            (numbered_of self.now) ≡ inside at.pos w p (numbered_of self.now)) }
    {
        let guard = self.test(at.alloc, test)?;
        let inner = around.in_trap(at.alloc, None)?;
        Ok(Inner {
            around: inner,
            shape: Shape::Abort(Abort::Once(guard, test)),
        })
    }

    /// The same from the first instant on.
    fn abort_now<'a>(
        &self,
        at: At,
        test: &'a ExprAt<u32>,
        around: &Around,
    ) -> Result<Inner<'a>, NoMemory>
        ensures { (f : ℕ → Piece) (p : Piece) → IfOk result (λ w. tree.abort (numbering f at.pos)
            (delay.Immediate test.now) p (around_of around.now)
            (numbered_of self.now) ≡ inside at.pos w p (numbered_of self.now)) }
    {
        let first = self.test(at.alloc, test)?;
        let guard = self.test(at.alloc, test)?;
        let inner = around.in_trap(at.alloc, None)?;
        Ok(Inner {
            around: inner,
            shape: Shape::Abort(Abort::Now(first, guard, test)),
        })
    }

    /// The same where the test is true for so many times.
    fn abort_count<'a>(
        &mut self,
        at: At,
        times: u8,
        test: &'a ExprAt<u32>,
        around: &Around,
    ) -> Result<Inner<'a>, NoMemory>
        ensures { (f : ℕ → Piece) (p : Piece) → IfOk result (λ w. tree.abort (numbering f at.pos)
            (delay.Later (later.Count times test.now)) p (around_of around.now)
            (numbered_of self.old) ≡ inside at.pos w p (numbered_of self.new)) }
    {
        let counter = self.declare_counter(at.pos)?;
        let inner = around.in_trap(at.alloc, None)?.counted(counter);
        Ok(Inner {
            around: inner,
            shape: Shape::Abort(Abort::Count(counter, times, test)),
        })
    }

    /// A body that is aborted from the next instant on.
    fn abort_later<'a>(
        &mut self,
        at: At,
        later: &'a Later<u32>,
        around: &Around,
    ) -> Result<Inner<'a>, NoMemory>
        ensures { (f : ℕ → Piece) (p : Piece) → IfOk result (λ w. tree.abort (numbering f at.pos)
            (delay.Later later.now) p (around_of around.now)
            (numbered_of self.old) ≡ inside at.pos w p (numbered_of self.new)) }
    {
        match later {
            Later::Once(test) => Ok(self.abort_once(at, test, around)?),
            Later::Count(times, test) => Ok(self.abort_count(at, *times, test, around)?),
        }
    }

    /// A body that is aborted where the delay comes.
    fn abort<'a>(
        &mut self,
        at: At,
        delay: &'a Delay<u32>,
        around: &Around,
    ) -> Result<Inner<'a>, NoMemory>
        ensures { (f : ℕ → Piece) (p : Piece) → IfOk result (λ w. tree.abort (numbering f at.pos) delay.now
            p (around_of around.now)
            (numbered_of self.old) ≡ inside at.pos w p (numbered_of self.new)) }
    {
        match delay {
            Delay::Later(later) => Ok(self.abort_later(at, later, around)?),
            Delay::Immediate(test) => Ok(self.abort_now(at, test, around)?),
        }
    }

    /// A body that starts anew where the delay comes.
    fn do_every<'a>(
        &mut self,
        at: At,
        later: &'a Later<u32>,
        around: &Around,
    ) -> Result<Wrap<'a>, NoMemory>
        ensures { (f : ℕ → Piece) (p : Piece) → IfOk result (λ w. tree.do_every (numbering f at.pos)
            later.now p (around_of around.now)
            (numbered_of self.old) ≡ wrapped at.pos w p (numbered_of self.new)) }
    {
        let inner = self.abort_later(at, later, around)?;
        Ok(renewed(inner, None))
    }

    /// A body that waits for the delay, and then starts anew where it comes.
    fn every<'a>(
        &mut self,
        at: At,
        delay: &'a Delay<u32>,
        around: &Around,
    ) -> Result<Wrap<'a>, NoMemory>
        ensures { (f : ℕ → Piece) (p : Piece) → IfOk result (λ w. tree.every (numbering f at.pos) delay.now
            p (around_of around.now)
            (numbered_of self.old) ≡ wrapped at.pos w p (numbered_of self.new)) }
    {
        let first = self.awaited(at, delay)?;
        match delay {
            Delay::Later(later) => {
                let inner = self.abort_later(at, later, around)?;
                Ok(renewed(inner, Some(first)))
            }
            Delay::Immediate(test) => {
                let inner = self.abort_once(at, test, around)?;
                Ok(renewed(inner, Some(first)))
            }
        }
    }

    /// A body that runs for the last time where the delay comes.
    fn weak_abort<'a>(
        &self,
        at: At,
        delay: &'a Delay<u32>,
        around: &Around,
    ) -> Result<Inner<'a>, NoMemory>
        ensures { (f : ℕ → Piece) (p : Piece) → IfOk result (λ w. tree.weak_abort (numbering f at.pos)
            delay.now p (around_of around.now)
            (numbered_of self.now) ≡ inside at.pos w p (numbered_of self.now)) }
    {
        let inner = around.in_trap(at.alloc, None)?;
        Ok(Inner {
            around: inner,
            shape: Shape::Abort(Abort::Weak(delay)),
        })
    }

    /// A body that stands still where the test is true.
    fn suspended<'a>(
        &self,
        at: At,
        immediate: bool,
        test: &ExprAt<u32>,
        around: &Around,
    ) -> Result<Inner<'a>, NoMemory>
        ensures { (f : ℕ → Piece) (p : Piece) → IfOk result (λ w. tree.suspend (numbering f at.pos)
            immediate (test_of test.now) p (around_of around.now)
            (numbered_of self.now) ≡ inside at.pos w p (numbered_of self.now)) }
    {
        let inner = around.copy(at.alloc)?;
        let guard = self.test(at.alloc, test)?;
        if immediate {
            let first = self.test(at.alloc, test)?;
            Ok(Inner {
                around: inner,
                shape: Shape::Suspend(Suspend::Now(guard, first)),
            })
        } else {
            Ok(Inner {
                around: inner,
                shape: Shape::Suspend(Suspend::Later(guard)),
            })
        }
    }

    /// A body where the test is true.
    fn then<'a>(
        &self,
        at: At,
        test: &Boxed<ExprAt<u32>>,
        around: &Around,
    ) -> Result<Inner<'a>, NoMemory>
        ensures { (f : ℕ → Piece) (p : Piece) → IfOk result (λ w. (numbering f at.pos).choice
            (test_of test.now) p (numbering f at.pos).nothing (around_of around.now)
            (numbered_of self.now) ≡ inside at.pos w p (numbered_of self.now)) }
    {
        let test = self.test(at.alloc, test.get())?;
        Ok(Inner {
            around: around.copy(at.alloc)?,
            shape: Shape::Plain(Plain::Then(test)),
        })
    }

    /// A body with local signals.
    fn locals<'a>(
        &mut self,
        at: At,
        signals: &[SignalNode],
        around: &Around,
    ) -> Result<Inner<'a>, NoMemory>
        ensures { (f : ℕ → Piece) (p : Piece) → IfOk result (λ w. tree.locals (numbering f at.pos)
            signals.now p (around_of around.now)
            (numbered_of self.old) ≡ inside at.pos w p (numbered_of self.new)) }
    {
        let numbers = self.declare_all(at.alloc, signals)?;
        Ok(Inner {
            around: around.copy(at.alloc)?,
            shape: Shape::Plain(Plain::Locals(numbers)),
        })
    }

    /// A body in a trap of the text.
    fn trap<'a>(&mut self, at: At, around: &Around) -> Result<Inner<'a>, NoMemory>
        ensures { (f : ℕ → Piece) (p : Piece) →
            IfOk result (λ w. (numbering f at.pos).named_trap p (around_of around.now)
            (numbered_of self.old) ≡ inside at.pos w p (numbered_of self.new)) }
    {
        let place = self.open_trap()?;
        let inner = around.in_trap(at.alloc, Some(place))?;
        Ok(Inner {
            around: inner,
            shape: Shape::Plain(Plain::Trap),
        })
    }

    /// The body alone.
    fn alone<'a>(&self, at: At, around: &Around) -> Result<Inner<'a>, NoMemory>
        ensures { (p : Piece) → IfOk result (λ w. p (around_of around.now)
            (numbered_of self.now) ≡ inside at.pos w p (numbered_of self.now)) }
    {
        Ok(Inner {
            around: around.copy(at.alloc)?,
            shape: Shape::Plain(Plain::Body),
        })
    }

    /// A body that runs for ever.
    fn looped<'a>(&self, at: At, around: &Around) -> Result<Wrap<'a>, NoMemory>
        ensures { (f : ℕ → Piece) (p : Piece) →
            IfOk result (λ w. (numbering f at.pos).loop p (around_of around.now)
            (numbered_of self.now) ≡ wrapped at.pos w p (numbered_of self.now)) }
    {
        let inner = self.alone(at, around)?;
        Ok(Wrap {
            inner,
            halts: false,
            looped: true,
            before: None,
        })
    }

    /// All of a statement but its blocks.
    pub fn begin<'a>(
        &mut self,
        at: At,
        what: &'a Statement<u32>,
        around: &Around,
    ) -> Result<Step<'a>, NoMemory>
        ensures means { (f : ℕ → Piece) → IfOk result (λ s. tree.of_statement (numbering f) what.now at.pos
            (around_of around.now) (numbered_of self.old) ≡ made f at.pos s (around_of around.now)
            (numbered_of self.new)) }
        ensures less { IfOk result (IsWithin (size-Statement ℕ what.now)) }
    {
        match what {
            Statement::Nothing => Ok(Step::Done(at.nothing())),
            Statement::Pause => Ok(Step::Done(at.pause())),
            Statement::Halt => Ok(Step::Done(forms::halts(at)?)),
            Statement::Emit(name, value) => Ok(Step::Done(self.emission(at, name, value)?)),
            Statement::Sustain(name, value) => Ok(Step::Done(self.sustained(at, name, value)?)),
            Statement::If(test, then, other) => match other {
                None => Ok(Step::Inside(plain(self.then(at, test, around)?), then)),
                Some(other) => Ok(Step::Choice(self.test(at.alloc, test.get())?, then, other)),
            },
            Statement::Loop(block) => Ok(Step::Inside(self.looped(at, around)?, block)),
            Statement::Fork(blocks) => Ok(Step::Branches(blocks.as_slice())),
            Statement::Block(block) => Ok(Step::Inside(plain(self.alone(at, around)?), block)),
            Statement::Await(delay) => Ok(Step::Done(self.awaited(at, delay)?)),
            Statement::Every(delay, block) => Ok(Step::Inside(
                self.every(at, delay, around)?,
                block,
            )),
            Statement::DoEvery(block, later) => {
                Ok(Step::Inside(self.do_every(at, later, around)?, block))
            }
            Statement::Abort(delay, block) => Ok(Step::Inside(
                plain(self.abort(at, delay, around)?),
                block,
            )),
            Statement::WeakAbort(delay, block) => {
                Ok(Step::Inside(plain(self.weak_abort(at, delay, around)?), block))
            }
            Statement::Suspend(immediate, test, block) => {
                Ok(Step::Inside(plain(self.suspended(at, *immediate, test, around)?), block))
            }
            Statement::Signal(signals, block) => {
                Ok(Step::Inside(plain(self.locals(at, signals.as_slice(), around)?), block))
            }
            Statement::Trap(_, block) => Ok(Step::Inside(plain(self.trap(at, around)?), block)),
            Statement::Break(trap) => Ok(Step::Done(at.exit(around.traps_to(trap.name)?))),
            Statement::Run(module, bindings) => Ok(Step::Run(module.name, bindings.as_slice())),
            Statement::Async(node) => Ok(Step::Done(at.site(self.add_site(at.alloc, node.get())?))),
        }
    }
}
