//! Tables of the names that a list declares.

ghost use Rattle.std.specs.Prelude.{◌≡◌, [], ◌∷◌, ◌++◌, List, Some, None, cond, length, map, OnOk, IfOk};
ghost use Rattle.std.specs.Str.{bytes_eq};
ghost use Rattle.module_tree.specs.declared.source.NameAt.{NameAt as ANameAt};
ghost use Rattle.link_faults.specs.declared.fault.LinkKind.{LinkKind as ALinkKind};
ghost use Rattle.link_faults.specs.Named.{Name as AName};
ghost use Rattle.link_faults.specs.Earliest.{first_at};
ghost use Rattle.link_faults.specs.Rows.{here_if, name_of_signal};
ghost use Rattle.link_faults.specs.NameTables.{IsTable, place_in_table, has_name, name_of_parameter, or_place};

use crate::fault::{LinkFault, LinkKind, earlier};
use crate::parts::fault_if;
use hh_base::memory::NoMemory;
use hh_base::name::Name;
use hh_base::value::Pos;
use indexmap::IndexMap;
use module_tree::source::{Binding, InterfaceNode, ParameterNode, SignalNode};
use std::alloc::Global;

/// The place of the first declaration of each name of a list, and the first name that stands there twice.
#[derive(Drop)]
pub struct Table {
    places: IndexMap<String, usize>,
    twice: LinkKind,
    first: Option<LinkFault>,
}

/// What has a name at a position.
pub trait Declares {
    ghost name_at: { Self → ANameAt AName };

    fn pos(&self) -> Pos
        ensures { result ≡ (name_at self.now).pos };

    fn name(&self) -> &Name
        ensures { result.now ≡ (name_at self.now).name };
}

impl Table {
    /// Of no names. A name that stands twice is a fault of this kind.
    pub fn new(alloc: Global, twice: LinkKind) -> Table
        ensures { IsTable twice [] result }
    {
        Table {
            places: IndexMap::new(alloc),
            twice,
            first: None,
        }
    }

    /// The place of the first declaration of the name.
    pub fn place(&self, name: &Name) -> Option<usize>
        ensures { result ≡ place_in_table self.now name.now }
    {
        self.places.get(name.as_str()).copied()
    }

    pub fn has(&self, name: &Name) -> bool
        ensures { result ≡ has_name self.now name.now }
    {
        self.place(name).is_some()
    }

    /// The first name that stands twice.
    pub fn first(&self) -> Option<LinkFault>
        ensures { result ≡ self.now.first }
    {
        self.first
    }

    fn add(&mut self, alloc: Global, name: &Name, place: usize) -> Result<(), NoMemory>
        ensures found { OnOk result ((q : AName) → place_in_table self.new q ≡ or_place
            (place_in_table self.old q) (cond (bytes_eq name.now q) (Some place) None)) }
        ensures twice { self.new.twice ≡ self.old.twice }
        ensures first { self.new.first ≡ self.old.first }
    {
        match self.place(name) {
            Some(_) => Ok(()),
            None => {
                let key = String::from_str(alloc, name.as_str())?;
                self.places.insert(key, place)?;
                Ok(())
            }
        }
    }

    /// Adds the name that stands at this place of the list.
    pub fn declare(
        &mut self,
        alloc: Global,
        pos: Pos,
        name: &Name,
        place: usize,
    ) -> Result<(), NoMemory>
        ensures { (k : ALinkKind) (names : List (ANameAt AName)) → IsTable k names self.old
            → place ≡ length names
            → OnOk result (IsTable k (names ++ record { pos = pos; name = name.now } ∷ []) self.new) }
    {
        let twice = fault_if(self.has(name), pos, self.twice);
        self.add(alloc, name, place)?;
        self.first = earlier(self.first, twice);
        Ok(())
    }
}

/// The table of the names of a list.
pub fn table_of<T: Declares>(alloc: Global, twice: LinkKind, items: &[T]) -> Result<Table, NoMemory>
    ensures { IfOk result (IsTable twice (map T.name_at items.now)) }
{
    let mut table = Table::new(alloc, twice);
    'items: for at in 0..items.len() {
        table.declare(alloc, items[at].pos(), items[at].name(), at)?;
    }
    Ok(table)
}

impl Declares for InterfaceNode {
    ghost name_at = { λ d. name_of_signal d.signal };

    fn pos(&self) -> Pos {
        self.signal.pos
    }

    fn name(&self) -> &Name {
        &self.signal.name
    }
}

impl Declares for SignalNode {
    ghost name_at = { name_of_signal };

    fn pos(&self) -> Pos {
        self.pos
    }

    fn name(&self) -> &Name {
        &self.name
    }
}

impl Declares for ParameterNode {
    ghost name_at = { name_of_parameter };

    fn pos(&self) -> Pos {
        self.pos
    }

    fn name(&self) -> &Name {
        &self.name
    }
}

impl Declares for Binding<Name> {
    ghost name_at = { λ b. b.left };

    fn pos(&self) -> Pos {
        self.left.pos
    }

    fn name(&self) -> &Name {
        &self.left.name
    }
}
