//! What happened to a machine, in order.

use crate::event::Event;
use crate::reply::Reply;
use hh_base::value::NoMemory;
use std::alloc::Global;
use std::marker::Model;

/// An event and the reply to it.
#[derive(Drop)]
pub struct Entry {
    pub event: Event,
    pub reply: Reply,
}

/// Entries in order. Contracts see the list.
#[derive(Drop)]
pub struct Log {
    entries: Vec<Entry>,
}

impl Model for Log {
    ghost use Rattle.std.specs.Prelude.{List};
    ghost use Rattle.reaction_run.specs.declared.log.Entry.{Entry as AnEntry};

    ghost Value = { List AnEntry };

    ghost view = { λ l. l.entries.items };
}

impl Log {
    ghost use Rattle.std.specs.Prelude.{◌≡◌, ◌++◌, ◌∷◌, [], OnOk, OnErr};

    /// No entry.
    pub fn new(alloc: Global) -> Log
        ensures { result ≡ [] }
    {
        Log {
            entries: Vec::new(alloc),
        }
    }

    /// Adds an entry at the end.
    pub fn push(&mut self, entry: Entry) -> Result<(), NoMemory>
        ensures ok { OnOk result (self.new ≡ self.old ++ entry ∷ []) }
        ensures err { OnErr result (self.new ≡ self.old) }
    {
        self.entries.push(entry)?;
        Ok(())
    }

    /// Lets all entries go.
    pub fn clear(&mut self)
        ensures { self.new ≡ [] }
    {
        self.entries.clear();
    }

    /// The entries, from the first on.
    pub fn entries(&self) -> &[Entry]
        ensures { result.now ≡ self.now }
    {
        self.entries.as_slice()
    }
}
