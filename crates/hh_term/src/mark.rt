//! Where control rests in a statement between two reactions.

ghost use Rattle.std.specs.Prelude.{◌≡◌, IfOk};

use crate::program::Program;
use hh_base::item::{Item, Queue};
use hh_base::value::{NoMemory, Value, Values, copy_values};
use std::alloc::Global;

/// A running instance of an async statement: its id, the values of its arguments, the answers that entered
/// and were not used yet, and whether it was suspended in its last reaction.
#[derive(Drop)]
pub struct AsyncMark {
    pub id: u64,
    pub args: Values,
    pub queue: Queue,
    pub suspended: bool,
}

impl AsyncMark {
    ghost use Rattle.hh_term.specs.Entering.{async_with_item, Enters};

    fn enter(&mut self, id: u64, item: Item) -> Result<(), MarkEnd>
        ensures { Enters (async_with_item id item self.old) self.old item result self.new }
    {
        if self.id != id || self.queue.ends_with_last() {
            return Err(MarkEnd::Refused(item));
        }
        match self.queue.try_push(item) {
            Ok(()) => Ok(()),
            Err(failed) => Err(MarkEnd::NoMemory(failed.value)),
        }
    }

    /// A copy, with the arguments and the answers that wait.
    pub fn copy(&self, alloc: Global) -> Result<AsyncMark, NoMemory>
        ensures { IfOk result (λ a. a ≡ self.now) }
    {
        Ok(AsyncMark {
            id: self.id,
            args: copy_values(alloc, self.args.as_slice())?,
            queue: self.queue.copy(alloc)?,
            suspended: self.suspended,
        })
    }
}

/// Why an answer did not enter a mark. The item comes back.
#[derive(Drop)]
pub enum MarkEnd {
    /// No async mark holds the id, or the queue of the one that does ends with a last item.
    Refused(Item),
    /// Memory ran out.
    NoMemory(Item),
}

/// Where control rests: in a pause, in an async, in one part of a statement or in both, or inside a
/// statement with one part. A local signal keeps its last status and value.
#[derive(Drop)]
pub enum Mark {
    Pause,
    Async(AsyncMark),
    First(Box<Mark>),
    Second(Box<Mark>),
    Both(Box<Mark>, Box<Mark>),
    Inside(Box<Mark>),
    Local(Box<Mark>, bool, Value),
}

impl Mark {
    ghost use Rattle.hh_term.specs.Views.{selection_of};
    ghost use Rattle.hh_term.specs.Entering.{with_item, Enters};

    fn enter(&mut self, id: u64, item: Item) -> Result<(), MarkEnd>
        ensures { Enters (with_item id item (selection_of self.old)) (selection_of self.old) item result
            (selection_of self.new) }
    {
        match self {
            Mark::Pause => Err(MarkEnd::Refused(item)),
            Mark::Async(a) => a.enter(id, item),
            Mark::First(m) => m.enter(id, item),
            Mark::Second(m) => m.enter(id, item),
            Mark::Both(m, n) => match m.enter(id, item) {
                Err(MarkEnd::Refused(item)) => n.enter(id, item),
                ended => ended,
            },
            Mark::Inside(m) => m.enter(id, item),
            Mark::Local(m, _, _) => m.enter(id, item),
        }
    }

    /// A copy, with the instances and the statuses and values of local signals in it.
    pub fn copy(&self, alloc: Global) -> Result<Mark, NoMemory>
        ensures { IfOk result (λ m. selection_of m ≡ selection_of self.now) }
    {
        Ok(match self {
            Mark::Pause => Mark::Pause,
            Mark::Async(a) => Mark::Async(a.copy(alloc)?),
            Mark::First(m) => Mark::First(Box::new(alloc, m.copy(alloc)?)?),
            Mark::Second(m) => Mark::Second(Box::new(alloc, m.copy(alloc)?)?),
            Mark::Both(m, n) => {
                let first = Box::new(alloc, m.copy(alloc)?)?;
                Mark::Both(first, Box::new(alloc, n.copy(alloc)?)?)
            }
            Mark::Inside(m) => Mark::Inside(Box::new(alloc, m.copy(alloc)?)?),
            Mark::Local(m, status, value) => {
                let body = Box::new(alloc, m.copy(alloc)?)?;
                Mark::Local(body, *status, value.copy(alloc)?)
            }
        })
    }
}

/// Whether a program has started, where its control rests, or that it has ended.
#[derive(Drop)]
pub enum Control {
    Fresh,
    At(Mark),
    Ended,
}

impl Control {
    ghost use Rattle.hh_term.specs.Views.{control_of};

    /// A copy, with the mark.
    pub fn copy(&self, alloc: Global) -> Result<Control, NoMemory>
        ensures { IfOk result (λ c. control_of c ≡ control_of self.now) }
    {
        Ok(match self {
            Control::Fresh => Control::Fresh,
            Control::At(m) => Control::At(m.copy(alloc)?),
            Control::Ended => Control::Ended,
        })
    }
}

/// Where the control of a program rests, and the answers that its instances hold.
#[derive(Drop)]
pub struct Marked {
    control: Control,
}

impl Marked {
    ghost use Rattle.hh_term.specs.Kernel.{Kernel};
    ghost use Rattle.hh_term.specs.ProgramView.{kernel_of};
    ghost use Rattle.hh_term.specs.Views.{control_of};
    ghost use Rattle.hh_term.specs.Marks.{IsControlOf, IdsDiffer};
    ghost use Rattle.hh_term.specs.Selection.{Fresh};
    ghost use Rattle.hh_term.specs.Views.{control_in};
    ghost use Rattle.hh_term.specs.Entering.{control_with_item, Enters};

    /// Where a program stands before its first reaction.
    pub fn boot(_program: &Program) -> Marked
        ensures { control_in result ≡ Fresh }
    {
        Marked {
            control: Control::Fresh,
        }
    }

    /// Where a program stands whose control was kept, as between two reactions.
    pub fn new(_program: &Program, control: Control) -> Marked
        requires of_program { ∥ IsControlOf (kernel_of _program.now).statement (control_of control) ∥₁ }
        requires ids_differ { ∥ IdsDiffer (control_of control) ∥₁ }
        ensures { control_in result ≡ control_of control }
    {
        Marked { control }
    }

    /// Whether the program has started or ended, and else where its control rests.
    pub fn control(&self) -> &Control
        ensures { control_of result.now ≡ control_in self.now }
    {
        &self.control
    }

    /// A copy that further reactions and answers leave as it is.
    pub fn copy(&self, alloc: Global) -> Result<Marked, NoMemory>
        ensures { IfOk result (λ m. control_in m ≡ control_in self.now) }
    {
        Ok(Marked {
            control: self.control.copy(alloc)?,
        })
    }

    /// Puts the item at the end of the queue of the async mark that holds the id, or gives it back and
    /// leaves all marks as they were.
    pub fn answer(&mut self, id: u64, item: Item) -> Result<(), MarkEnd>
        ensures { Enters (control_with_item id item (control_in self.old))
            (control_in self.old) item result (control_in self.new) }
    {
        match &mut self.control {
            Control::At(mark) => mark.enter(id, item),
            Control::Fresh | Control::Ended => Err(MarkEnd::Refused(item)),
        }
    }
}

#[cfg(test)]
mod tests;
