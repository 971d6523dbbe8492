//! The bindings of a run: one for each signal of the interface of the module that is run.

ghost use Rattle.std.specs.Prelude.{◌≡◌, ℕ, List, IfOk, map};
ghost use Rattle.std.specs.List.{find};
ghost use Rattle.std.specs.Option.{option_copied};
ghost use Rattle.std.specs.Str.{bytes_eq};
ghost use Rattle.std.specs.Borrow.{Bor};
ghost use Rattle.indexmap.specs.IndexMap.{get_by_text};
ghost use Rattle.module_tree.specs.declared.source.Binding.{Binding as ABinding};
ghost use Rattle.module_tree.specs.Scopes.{Signal, InScope, interface_signals};
ghost use Rattle.link_faults.specs.Named.{Name as AName, module_named, place_of};
ghost use Rattle.module_link.specs.Resolved.{resolved_binding, resolved_bindings};
ghost use Rattle.module_link.specs.Places.{ArePlaces, Shows};
ghost use Rattle.module_link.specs.Texts.{IsText};

use crate::places::Places;
use crate::tables::{MOST_NAMES, first_places};
use crate::text::Text;
use hh_base::memory::NoMemory;
use hh_base::name::Name;
use hh_base::value::Pos;
use indexmap::IndexMap;
use module_tree::source::{Binding, InterfaceNode, NameAt};
use sqlite_items::{Items, at};
use std::alloc::Global;

/// The left names of bindings, in order.
fn left_names<'a>(alloc: Global, written: &'a [Binding<Name>]) -> Result<Vec<&'a Name>, NoMemory>
    ensures { IfOk result (λ v. map (λ (n : Bor AName). n.now) v.items
        ≡ map (λ (b : ABinding AName). b.left.name) written.now) }
{
    let mut names = Vec::new(alloc);
    for binding in written {
        names.push(&binding.left.name)?;
    }
    Ok(names)
}

/// The first binding with this left name, by a table of the left names.
fn written_for<'a>(
    places: &IndexMap<String, u32>,
    written: &'a [Binding<Name>],
    name: &Name,
) -> Option<&'a Binding<Name>>
    requires { (n : AName) → get_by_text places.now n ≡ place_of (map (λ (b : ABinding AName). b.left.name)
        written.now) n }
    ensures { option_copied result ≡ find (λ (b : ABinding AName). bytes_eq b.left.name name.now) written.now }
{
    let place = places.get(name.as_str()).copied()?;
    at(written, place as usize)
}

impl Places {
    /// What a signal of an interface, with this place in it, is bound to by a run at this position.
    fn binding(
        &self,
        pos: Pos,
        place: u32,
        name: &Name,
        written: Option<&Binding<Name>>,
    ) -> Binding<u32>
        requires { ArePlaces self.now }
        ensures { (c : InScope) → Shows self.now c → (s : Signal) → s.place ≡ place
            → s.signal.name ≡ name.now → result ≡ resolved_binding c pos s (option_copied written.entry) }
    {
        match written {
            None => Binding {
                left: NameAt { pos, name: place },
                right: NameAt {
                    pos,
                    name: self.signal(name),
                },
            },
            Some(written) => Binding {
                left: NameAt {
                    pos: written.left.pos,
                    name: place,
                },
                right: NameAt {
                    pos: written.right.pos,
                    name: self.signal(&written.right.name),
                },
            },
        }
    }

    fn bound(
        &self,
        alloc: Global,
        interface: &[InterfaceNode],
        pos: Pos,
        written: &[Binding<Name>],
    ) -> Result<Items<Binding<u32>>, NoMemory>
        requires { ArePlaces self.now }
        ensures { (c : InScope) → Shows self.now c → IfOk result (λ bs. bs ≡ map
            (λ (s : Signal). resolved_binding c pos s (find (λ (b : ABinding AName). bytes_eq b.left.name
            s.signal.name) written.now)) (interface_signals interface.now)) }
    {
        if interface.len() > MOST_NAMES {
            return Err(NoMemory);
        }
        let names = left_names(alloc, written)?;
        let places = first_places(alloc, names.as_slice())?;
        let mut bindings = Vec::with_capacity(alloc, interface.len())?;
        'signals: for place in 0..interface.len() {
            let name = &interface[place].signal.name;
            let found = written_for(&places, written, name);
            let binding = self.binding(pos, place as u32, name, found);
            bindings.push(binding)?;
        }
        Ok(Items::from_vec(bindings))
    }

    /// The bindings of a run of this module.
    pub fn bindings(
        &self,
        alloc: Global,
        text: &Text<'_>,
        callee: &NameAt<Name>,
        written: &[Binding<Name>],
    ) -> Result<Items<Binding<u32>>, NoMemory>
        requires places { ArePlaces self.now }
        requires text { IsText text.now }
        ensures { (c : InScope) → Shows self.now c → IfOk result (λ bs. bs ≡ resolved_bindings c callee.now.pos
            written.now (module_named text.now.parts.now callee.now.name)) }
    {
        match text.module(&callee.name) {
            None => Ok(Items::new(alloc)),
            Some(module) => self.bound(alloc, module.interface.as_slice(), callee.pos, written),
        }
    }
}
