//! What names mean at a place of a text, as far as faults are judged by it.

ghost use Rattle.std.specs.Prelude.{◌≡◌};
ghost use Rattle.link_faults.specs.Meanings.{meaning_of, kind_of_signal, kind_of_parameter};

use crate::scope::Scope;
use hh_base::name::Name;
use hh_base::value::{Dir, Kind};
use indexmap::IndexMap;
use sqlite_items::Items;
use std::alloc::Global;

/// What faults are judged by of a signal.
#[derive(Clone, Copy, PartialEq, Eq, Debug)]
pub struct Meaning {
    pub kind: Kind,
    pub dir: Dir,
}

/// What the names at a place mean: signals in a module, parameters in a body.
#[derive(Drop)]
pub struct Names {
    pub signals: Scope,
    /// By the places of the signals of the module, as far as it is read.
    pub meanings: Items<Meaning>,
    pub parameters: IndexMap<String, Kind>,
}

impl Names {
    /// What a signal's name means.
    pub fn signal(&self, name: &Name) -> Option<Meaning>
        ensures { result ≡ meaning_of self.now name.now }
    {
        let place = self.signals.places.get(name.as_str()).copied()?;
        self.meanings.get(place as usize).copied()
    }

    pub fn kind_of_signal(&self, name: &Name) -> Option<Kind>
        ensures { result ≡ kind_of_signal self.now name.now }
    {
        match self.signal(name) {
            Some(meaning) => Some(meaning.kind),
            None => None,
        }
    }

    pub fn kind_of_parameter(&self, name: &Name) -> Option<Kind>
        ensures { result ≡ kind_of_parameter self.now name.now }
    {
        self.parameters.get(name.as_str()).copied()
    }
}
