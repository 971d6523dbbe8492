//! Kernel programs with their declarations.

ghost use Rattle.std.specs.Prelude.{◌≡◌, IfOk};
ghost use Rattle.hh_term.specs.Views.{kernel_from};
ghost use Rattle.hh_term.specs.IsProgram.{IsProgram};

use crate::term::Term;
use hh_base::name::Name;
use hh_base::text::Text;
use hh_base::value::{CombineWord, Dir, Kind, NoMemory, Pos, Value};
use host_expr::expr::Expr;
use sqlite_items::Items;
use std::alloc::Global;

/// A signal. `first` is its value before any emission.
#[derive(Drop)]
pub struct SignalDecl {
    pub name: Option<Name>,
    pub dir: Dir,
    pub kind: Kind,
    pub first: Value,
    pub combine: Option<CombineWord>,
    pub pos: Pos,
}

impl SignalDecl {
    /// A copy, its name and its first value included.
    pub fn copy(&self, alloc: Global) -> Result<SignalDecl, NoMemory>
        ensures { IfOk result (λ d. d ≡ self.now) }
    {
        let name = match &self.name {
            Some(name) => Some(name.copy(alloc)?),
            None => None,
        };
        Ok(SignalDecl {
            name,
            dir: self.dir,
            kind: self.kind,
            first: self.first.copy(alloc)?,
            combine: self.combine,
            pos: self.pos,
        })
    }
}

fn copy_signals(alloc: Global, signals: &[SignalDecl]) -> Result<Vec<SignalDecl>, NoMemory>
    ensures { IfOk result (λ v. v.items ≡ signals.now) }
{
    let mut copies = Vec::with_capacity(alloc, signals.len())?;
    for signal in signals {
        copies.push(signal.copy(alloc)?)?;
    }
    Ok(copies)
}

/// Kinds in order. Contracts see the list.
pub type Kinds = Items<Kind>;

/// What an async statement runs: a written expression over its parameters, or a hook of the host (`None`).
#[derive(Drop)]
pub struct BodyDecl {
    pub name: Name,
    pub params: Kinds,
    pub answer: Kind,
    pub expr: Option<Expr<u32>>,
    pub pos: Pos,
}

/// An async statement of the program: the body that it runs, the signal that carries its answers, its
/// arguments, and the texts of its handlers.
#[derive(Drop)]
pub struct Site {
    pub body: u32,
    pub signal: Option<u32>,
    pub args: Items<Expr<u32>>,
    pub kill: Option<Text>,
    pub suspend: Option<Text>,
    pub resume: Option<Text>,
}

/// A kernel program: its signals, of which the first `interface` are its interface, its bodies, its async
/// sites and its statement. Every program keeps the rules of `IsProgram`.
#[derive(Drop)]
pub struct Program {
    signals: Vec<SignalDecl>,
    interface: u32,
    bodies: Vec<BodyDecl>,
    sites: Vec<Site>,
    term: Term,
    pub ghost rules: { ∥ IsProgram (kernel_from signals.items interface bodies.items sites.items term) ∥₁ },
}

/// Signals in order, as those of an interface. Contracts see the list.
pub type Signals = Items<SignalDecl>;

impl Program {
    ghost use Rattle.std.specs.Prelude.{map};
    ghost use Rattle.hh_term.specs.Kernel.{Kernel};
    ghost use Rattle.hh_term.specs.Views.{body_of, site_of};
    ghost use Rattle.hh_term.specs.Views.{statement_of};
    ghost use Rattle.hh_term.specs.Placed.{placed_term, placed_from};
    ghost use Rattle.hh_term.specs.ProgramView.{kernel_of, placed_of};
    ghost use Rattle.hh_term.specs.IsProgram.{interface_of};

    /// The program of these declarations and this statement. The first `interface` signals are its interface,
    /// the others its locals in the order of the statement; a node names signals, bodies and sites by their
    /// places in these lists.
    pub fn new(
        signals: Vec<SignalDecl>,
        interface: u32,
        bodies: Vec<BodyDecl>,
        sites: Vec<Site>,
        term: Term,
    ) -> Program
        requires { ∥ IsProgram (kernel_from signals.items interface bodies.items sites.items term) ∥₁ }
        ensures kernel { kernel_of result
            ≡ kernel_from signals.items interface bodies.items sites.items term }
        ensures placed { placed_of result
            ≡ placed_from signals.items interface bodies.items sites.items term }
    {
        Program {
            signals,
            interface,
            bodies,
            sites,
            term,
        }
    }

    /// The signals: the interface in its order, then the locals in the order of the statement.
    pub fn signals(&self) -> &[SignalDecl]
        ensures { result.now ≡ (kernel_of self.now).signals }
    {
        &self.signals
    }

    /// How many of the signals are the interface.
    pub fn interface_len(&self) -> u32
        ensures { result ≡ (kernel_of self.now).interface }
    {
        self.interface
    }

    /// The bodies that its async sites name by their places.
    pub fn bodies(&self) -> &[BodyDecl]
        ensures kernel { map body_of result.now ≡ (kernel_of self.now).bodies }
        ensures placed { result.now ≡ (placed_of self.now).bodies }
    {
        &self.bodies
    }

    /// The async sites, in the order of the statement.
    pub fn sites(&self) -> &[Site]
        ensures kernel { map site_of result.now ≡ (kernel_of self.now).sites }
        ensures placed { result.now ≡ (placed_of self.now).sites }
    {
        &self.sites
    }

    /// The statement, whose nodes have the positions that they had in the input.
    pub fn term(&self) -> &Term
        ensures kernel { statement_of result.now ≡ (kernel_of self.now).statement }
        ensures placed { placed_term result.now ≡ (placed_of self.now).statement }
    {
        &self.term
    }

    /// A copy of the declarations of the interface, in its order.
    pub fn interface(&self, alloc: Global) -> Result<Signals, NoMemory>
        ensures { IfOk result (λ i. i ≡ interface_of (kernel_of self.now)) }
    {
        let signals = &self.signals[..self.interface as usize];
        Ok(Items::from_vec(copy_signals(alloc, signals)?))
    }
}
