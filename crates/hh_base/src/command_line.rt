//! The words of a command line.
ghost use Rattle.std.specs.Prelude.{◌≡◌, ◌<◌, [], ◌∷◌, ◌++◌, length, slice_get, ◌↔◌, IsTrue, OnOk, OnErr};
ghost use Rattle.std.specs.Option.{option_copied};

use crate::memory::NoMemory;
use std::alloc::Global;
use std::marker::Model;

/// The words behind a program's name, in order. Contracts see the list of their bytes.
#[derive(Drop)]
pub struct CommandLine {
    words: Vec<String>,
}

impl Model for CommandLine {
    ghost use Rattle.std.specs.Prelude.{List, ℕ, map};
    ghost use Rattle.std.specs.String.{string_bytes};

    ghost Value = { List (List ℕ) };

    ghost view = { λ w. map string_bytes w.words.items };
}

impl CommandLine {
    /// A command line with no word.
    pub fn new(alloc: Global) -> CommandLine
        ensures { result ≡ [] }
    {
        CommandLine {
            words: Vec::new(alloc),
        }
    }

    /// Adds a copy of the word at the end.
    pub fn push(&mut self, alloc: Global, word: &str) -> Result<(), NoMemory>
        ensures ok { OnOk result (self.new ≡ self.old ++ word.now ∷ []) }
        ensures err { OnErr result (self.new ≡ self.old) }
    {
        let word = String::from_str(alloc, word)?;
        self.words.push(word)?;
        Ok(())
    }

    /// How many words there are.
    pub fn len(&self) -> usize
        ensures { result ≡ length self.now }
    {
        self.words.len()
    }

    /// Whether there is no word.
    pub fn is_empty(&self) -> bool
        ensures { IsTrue result ↔ (self.now ≡ []) }
    {
        self.words.is_empty()
    }

    /// The word at this place, counted from 0, or None past the end.
    pub fn get(&self, at: usize) -> Option<&str>
        ensures { option_copied result ≡ slice_get self.now at }
    {
        match self.words.get(at) {
            None => None,
            Some(word) => Some(word.as_str()),
        }
    }
}
