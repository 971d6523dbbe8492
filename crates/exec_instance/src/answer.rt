//! Answers to instances.

ghost use Rattle.std.specs.Prelude.{◌≡◌, ◌∷◌, ◌++◌, [], ◌↔◌, length, IsTrue, IfOk, OnOk, OnErr};

use hh_base::item::Item;
use hh_base::value::{NoMemory, Value};
use std::alloc::Global;
use std::marker::Model;

/// An answer to the instance with this id: a value, and whether the instance ends with it.
#[derive(Drop)]
pub struct Answer {
    pub id: u64,
    pub value: Value,
    pub last: bool,
}

/// Answers in order. Contracts see the list.
#[derive(Drop)]
pub struct Answers {
    answers: Vec<Answer>,
}

impl Model for Answers {
    ghost use Rattle.std.specs.Prelude.{List};
    ghost use Rattle.exec_instance.specs.declared.answer.Answer.{Answer as AnAnswer};

    ghost Value = { List AnAnswer };

    ghost view = { λ a. a.answers.items };
}

impl Answer {
    ghost use Rattle.exec_instance.specs.Entering.{item_of};

    /// What is put into the instance's queue where the answer enters.
    pub fn item(&self, alloc: Global) -> Result<Item, NoMemory>
        ensures { IfOk result (λ i. i ≡ item_of self.now) }
    {
        Ok(Item {
            value: self.value.copy(alloc)?,
            last: self.last,
        })
    }

    pub fn copy(&self, alloc: Global) -> Result<Answer, NoMemory>
        ensures { IfOk result (λ a. a ≡ self.now) }
    {
        Ok(Answer {
            id: self.id,
            value: self.value.copy(alloc)?,
            last: self.last,
        })
    }
}

impl Answers {
    pub fn new(alloc: Global) -> Answers
        ensures { result ≡ [] }
    {
        Answers {
            answers: Vec::new(alloc),
        }
    }

    /// Takes no memory.
    pub fn from_vec(answers: Vec<Answer>) -> Answers
        ensures { result ≡ answers.items }
    {
        Answers { answers }
    }

    /// Takes no memory.
    pub fn into_vec(self) -> Vec<Answer>
        ensures { result.items ≡ self }
    {
        self.answers
    }

    /// Adds an answer at the end.
    pub fn push(&mut self, answer: Answer) -> Result<(), NoMemory>
        ensures ok { OnOk result (self.new ≡ self.old ++ answer ∷ []) }
        ensures err { OnErr result (self.new ≡ self.old) }
    {
        self.answers.push(answer)?;
        Ok(())
    }

    pub fn len(&self) -> usize
        ensures { result ≡ length self.now }
    {
        self.answers.len()
    }

    pub fn is_empty(&self) -> bool
        ensures { IsTrue result ↔ (self.now ≡ []) }
    {
        self.answers.is_empty()
    }

    pub fn as_slice(&self) -> &[Answer]
        ensures { result.now ≡ self.now }
    {
        self.answers.as_slice()
    }
}
