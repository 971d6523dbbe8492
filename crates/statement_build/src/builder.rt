//! What is numbered while an expansion is written out.

ghost use Rattle.std.specs.Prelude.{◌≡◌, ℕ, [], IfOk, OnOk, length, map};
ghost use Rattle.module_tree.specs.declared.source.ExprAt.{ExprAt as AExprAt};
ghost use Rattle.std.specs.List.{range_with_len};
ghost use Rattle.hh_term.specs.Views.{site_of};
ghost use Rattle.statement_build.specs.Building.{numbered_of, declared, declared_all};
ghost use Rattle.kernel_expand.specs.Interpretation.{test_of, value_of};
ghost use Rattle.kernel_expand.specs.Numbering.{number_of, in_numbers, value_in_numbers, local_signal};
ghost use Rattle.kernel_expand.specs.Numbering.{counter_signal};
ghost use Rattle.kernel_expand.specs.Numbering.{with_place, with_signal, with_site, with_trap, site_in_numbers};
ghost use Rattle.kernel_expand.specs.Numbering.{result_in_numbers, inside_run, first_or_default};

use crate::renaming::{number_at, renamed};
use hh_base::memory::NoMemory;
use hh_base::text::Text;
use hh_base::value::{Dir, Kind, Pos, Value, default_of};
use hh_term::program::{SignalDecl, Site};
use host_expr::expr::Expr;
use module_tree::source::{AsyncNode, Binding, ExprAt, NameAt, SignalNode};
use sqlite_items::Items;
use std::alloc::Global;
use std::mem;

/// The number of what stands at this place of a list: numbers have 32 bits.
pub fn number(place: usize) -> Result<u32, NoMemory>
    ensures { IfOk result (λ n. n ≡ place) }
{
    match u32::try_from(place) {
        Ok(number) => Ok(number),
        Err(_) => Err(NoMemory),
    }
}

fn copy_text(alloc: Global, text: &Option<Text>) -> Result<Option<Text>, NoMemory>
    ensures { IfOk result (λ t. t ≡ text.now) }
{
    match text {
        None => Ok(None),
        Some(text) => Ok(Some(text.copy(alloc)?)),
    }
}

fn first_value(alloc: Global, kind: Kind, first: &Option<Value>) -> Result<Value, NoMemory>
    ensures { IfOk result (λ v. v ≡ first_or_default kind first.now) }
{
    match first {
        None => Ok(default_of(alloc, kind)),
        Some(value) => value.copy(alloc),
    }
}

/// The signal that a declaration of the text declares.
pub fn declared(alloc: Global, dir: Dir, node: &SignalNode) -> Result<SignalDecl, NoMemory>
    ensures { IfOk result (λ d. d ≡ declared dir node.now) }
{
    let name = node.name.copy(alloc)?;
    Ok(SignalDecl {
        name: Some(name),
        dir,
        kind: node.kind,
        first: first_value(alloc, node.kind, &node.first)?,
        combine: node.combine,
        pos: node.pos,
    })
}

/// What a run has put by: the numbers of the signals of the module round it, and how many of its traps were
/// opened.
#[derive(Drop)]
pub struct Outer {
    pub places: Vec<u32>,
    pub traps: u32,
}

/// The signals and async sites of the program so far, the numbers of the signals of a module by their
/// places, and how many of its traps were opened.
#[derive(Drop)]
pub struct Builder {
    signals: Vec<SignalDecl>,
    sites: Vec<Site>,
    places: Vec<u32>,
    traps: u32,
}

impl Builder {
    /// The number of the signal of this place.
    pub fn number_of(&self, place: u32) -> u32
        ensures { result ≡ number_of (numbered_of self.now) place }
    {
        number_at(&self.places, place)
    }

    /// A test whose signals go by their numbers.
    pub fn test(&self, alloc: Global, test: &ExprAt<u32>) -> Result<Expr<u32>, NoMemory>
        ensures { IfOk result (λ e. e ≡ in_numbers (numbered_of self.now) (test_of test.now)) }
    {
        renamed(alloc, &test.expr, &self.places)
    }

    /// What is emitted, with its signals by their numbers.
    pub fn value(
        &self,
        alloc: Global,
        value: &Option<ExprAt<u32>>,
    ) -> Result<Option<Expr<u32>>, NoMemory>
        ensures { IfOk result (λ e. e ≡ value_in_numbers (numbered_of self.now) (value_of value.now)) }
    {
        match value {
            None => Ok(None),
            Some(value) => Ok(Some(self.test(alloc, value)?)),
        }
    }

    /// What is numbered in an empty program.
    pub fn new(alloc: Global) -> Builder
        ensures { numbered_of result ≡ record { signals = []; sites = []; places = []; traps = 0 } }
    {
        Builder {
            signals: Vec::new(alloc),
            sites: Vec::new(alloc),
            places: Vec::new(alloc),
            traps: 0,
        }
    }

    /// Declares the next signal of the module, and answers its number.
    pub fn declare_as(
        &mut self,
        alloc: Global,
        dir: Dir,
        node: &SignalNode,
    ) -> Result<u32, NoMemory>
        ensures number { IfOk result (λ n. n ≡ length (numbered_of self.old).signals) }
        ensures after { OnOk result (numbered_of self.new ≡ with_place (declared dir node.now)
            (numbered_of self.old)) }
    {
        let number = number(self.signals.len())?;
        let signal = declared(alloc, dir, node)?;
        self.signals.push(signal)?;
        self.places.push(number)?;
        Ok(number)
    }

    /// Declares the next local signal of the module, and answers its number.
    pub fn declare(&mut self, alloc: Global, node: &SignalNode) -> Result<u32, NoMemory>
        ensures number { IfOk result (λ n. n ≡ length (numbered_of self.old).signals) }
        ensures after { OnOk result (numbered_of self.new ≡ with_place (local_signal node.now)
            (numbered_of self.old)) }
    {
        self.declare_as(alloc, Dir::Local, node)
    }

    /// Declares the signals of a list, the first one first, and answers their numbers.
    pub fn declare_all(&mut self, alloc: Global, nodes: &[SignalNode]) -> Result<Vec<u32>, NoMemory>
        ensures numbers { IfOk result (λ v. v.items ≡ range_with_len (length (numbered_of self.old).signals)
            (length nodes.now)) }
        ensures after { OnOk result (numbered_of self.new ≡ declared_all nodes.now (numbered_of self.old)) }
    {
        let mut numbers = Vec::with_capacity(alloc, nodes.len())?;
        for node in nodes {
            numbers.push(self.declare(alloc, node)?)?;
        }
        Ok(numbers)
    }

    /// Declares the signal of a counted abort, and answers its number.
    pub fn declare_counter(&mut self, pos: Pos) -> Result<u32, NoMemory>
        ensures number { IfOk result (λ n. n ≡ length (numbered_of self.old).signals) }
        ensures after { OnOk result (numbered_of self.new ≡ with_signal (counter_signal pos)
            (numbered_of self.old)) }
    {
        let number = number(self.signals.len())?;
        self.signals.push(SignalDecl {
            name: None,
            dir: Dir::Local,
            kind: Kind::Pure,
            first: Value::Unit,
            combine: None,
            pos,
        })?;
        Ok(number)
    }

    /// Opens the next trap of the module, and answers its place.
    pub fn open_trap(&mut self) -> Result<u32, NoMemory>
        ensures place { IfOk result (λ t. t ≡ (numbered_of self.old).traps) }
        ensures after { OnOk result (numbered_of self.new ≡ with_trap (numbered_of self.old)) }
    {
        let place = self.traps;
        self.traps = match place.checked_add(1) {
            Some(traps) => traps,
            None => return Err(NoMemory),
        };
        Ok(place)
    }

    fn result(&self, signal: &Option<NameAt<u32>>) -> Option<u32>
        ensures { result ≡ result_in_numbers (numbered_of self.now) signal.now }
    {
        match signal {
            None => None,
            Some(name) => Some(self.number_of(name.name)),
        }
    }

    fn arguments(
        &self,
        alloc: Global,
        arguments: &[ExprAt<u32>],
    ) -> Result<Items<Expr<u32>>, NoMemory>
        ensures { IfOk result (λ es. es ≡ map (λ (x : AExprAt ℕ). in_numbers (numbered_of self.now) x.expr)
            arguments.now) }
    {
        let mut renamed = Vec::with_capacity(alloc, arguments.len())?;
        for argument in arguments {
            renamed.push(self.test(alloc, argument)?)?;
        }
        Ok(Items::from_vec(renamed))
    }

    /// Adds an async site, and answers its number.
    pub fn add_site(&mut self, alloc: Global, node: &AsyncNode<u32>) -> Result<u32, NoMemory>
        ensures number { IfOk result (λ n. n ≡ length (numbered_of self.old).sites) }
        ensures after { OnOk result (numbered_of self.new ≡ with_site
            (site_in_numbers (numbered_of self.old) node.now) (numbered_of self.old)) }
    {
        let number = number(self.sites.len())?;
        let site = Site {
            body: node.body.name,
            signal: self.result(&node.signal),
            args: self.arguments(alloc, node.args.as_slice())?,
            kill: copy_text(alloc, &node.kill)?,
            suspend: copy_text(alloc, &node.suspend)?,
            resume: copy_text(alloc, &node.resume)?,
        };
        self.sites.push(site)?;
        Ok(number)
    }

    fn bound(&self, alloc: Global, bindings: &[Binding<u32>]) -> Result<Vec<u32>, NoMemory>
        ensures { IfOk result (λ v. v.items ≡ (inside_run bindings.now (numbered_of self.now)).places) }
    {
        let mut bound = Vec::with_capacity(alloc, bindings.len())?;
        for binding in bindings {
            bound.push(self.number_of(binding.right.name))?;
        }
        Ok(bound)
    }

    /// Enters the module that a run with these bindings runs.
    pub fn enter(&mut self, alloc: Global, bindings: &[Binding<u32>]) -> Result<Outer, NoMemory>
        ensures places { IfOk result (λ o. o.places.items ≡ (numbered_of self.old).places) }
        ensures traps { IfOk result (λ o. o.traps ≡ (numbered_of self.old).traps) }
        ensures after { OnOk result (numbered_of self.new ≡ inside_run bindings.now
            (numbered_of self.old)) }
    {
        let bound = self.bound(alloc, bindings)?;
        Ok(Outer {
            places: mem::replace(&mut self.places, bound),
            traps: mem::replace(&mut self.traps, 0),
        })
    }

    /// Leaves the module again.
    pub fn leave(&mut self, outer: Outer)
        ensures { numbered_of self.new ≡ record {
          signals = (numbered_of self.old).signals;
          sites = (numbered_of self.old).sites;
          places = outer.places.items;
          traps = outer.traps;
        } }
    {
        self.places = outer.places;
        self.traps = outer.traps;
    }

    /// The signals and the async sites.
    pub fn into_lists(self) -> (Vec<SignalDecl>, Vec<Site>)
        ensures signals { result.0.items ≡ (numbered_of self).signals }
        ensures sites { map site_of result.1.items ≡ (numbered_of self).sites }
    {
        (self.signals, self.sites)
    }
}
