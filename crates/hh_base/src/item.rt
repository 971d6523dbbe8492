//! Answers to running instances, and the queue in which they wait.

ghost use Rattle.std.specs.Prelude.{◌≡◌, ◌∷◌, ◌++◌, [], ◌<◌, ◌↔◌, true, false, length, slice_get, take};
ghost use Rattle.std.specs.Prelude.{IsTrue, IfOk, IfErr, IfNone, OnOk, OnErr};
ghost use Rattle.std.specs.Option.{option_copied, option_to_list};

use crate::memory::NoMemory;
use crate::value::Value;
use std::alloc::{AllocFailed, Global};
use std::collections::VecDeque;
use std::marker::Model;

/// An answer to a running instance: its value, and whether it is the last one.
#[derive(Drop)]
pub struct Item {
    pub value: Value,
    pub last: bool,
}

/// The answers that wait for one instance, in the order in which they entered. Only their end may be last.
/// Contracts see the list.
#[derive(Drop)]
pub struct Queue {
    items: VecDeque<Item>,
}

impl Model for Queue {
    ghost use Rattle.std.specs.Prelude.{◌≡◌, true, List};
    ghost use Rattle.hh_base.specs.declared.item.Item.{Item as AnItem};
    ghost use Rattle.hh_base.specs.Queue.{only_end_is_last};

    ghost Value = { List AnItem };

    ghost view = { λ q. q.items.items };

    ghost invariant = { λ q. only_end_is_last q.items.items ≡ true };
}

impl Item {
    /// An answer of its own that is the same.
    pub fn copy(&self, alloc: Global) -> Result<Item, NoMemory>
        ensures { IfOk result (λ i. i ≡ self.now) }
    {
        Ok(Item {
            value: self.value.copy(alloc)?,
            last: self.last,
        })
    }
}

impl Queue {
    ghost use Rattle.hh_base.specs.Queue.{ends_with_last, only_end_is_last};

    /// A queue with no answer.
    pub fn new(alloc: Global) -> Queue
        ensures { result ≡ [] }
    {
        Queue {
            items: VecDeque::new(alloc),
        }
    }

    /// Whether it ends with a last answer: then no more enter. In each queue only the end may be last.
    pub fn ends_with_last(&self) -> bool
        ensures value { result ≡ ends_with_last self.now }
        ensures queue { only_end_is_last self.now ≡ true }
    {
        match self.items.back() {
            Some(item) => item.last,
            None => false,
        }
    }

    /// Adds an answer at the end, or gives it back where memory ran out.
    pub fn try_push(&mut self, item: Item) -> Result<(), AllocFailed<Item>>
        requires { ends_with_last self.old ≡ false }
        ensures ok { OnOk result (self.new ≡ self.old ++ item ∷ []) }
        ensures err { OnErr result (self.new ≡ self.old) }
        ensures returned { IfErr result (λ e. e.value ≡ item) }
    {
        self.items.push_back(item)
    }

    /// Takes the first answer off, if there is one.
    pub fn pop(&mut self) -> Option<Item>
        ensures first { self.old ≡ option_to_list result ++ self.new }
        ensures none { IfNone result (self.old ≡ []) }
    {
        self.items.pop_front()
    }

    /// Keeps the first `len` answers, or all where they are fewer.
    pub fn truncate(&mut self, len: usize)
        ensures { self.new ≡ take len self.old }
    {
        self.items.truncate(len);
    }

    /// How many answers wait.
    pub fn len(&self) -> usize
        ensures { result ≡ length self.now }
    {
        self.items.len()
    }

    /// Whether no answer waits.
    pub fn is_empty(&self) -> bool
        ensures { IsTrue result ↔ (self.now ≡ []) }
    {
        self.items.is_empty()
    }

    /// The answer at this place, counted from the first as 0, or None past the end.
    pub fn get(&self, at: usize) -> Option<&Item>
        ensures { option_copied result ≡ slice_get self.now at }
    {
        self.items.get(at)
    }

    /// A queue of its own with the same answers.
    pub fn copy(&self, alloc: Global) -> Result<Queue, NoMemory>
        ensures { IfOk result (λ v. v ≡ self.now) }
    {
        let mut items = VecDeque::with_capacity(alloc, self.items.len())?;
        for item in &self.items {
            items.push_back(item.copy(alloc)?)?;
        }
        Ok(Queue { items })
    }
}
