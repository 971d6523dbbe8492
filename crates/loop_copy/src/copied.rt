//! Copied programs.

ghost use Rattle.std.specs.Prelude.{◌≡◌};
ghost use Rattle.hh_term.specs.Views.{kernel_from};
ghost use Rattle.loop_copy.specs.IsCopied.{IsCopied};

use hh_term::program::{BodyDecl, SignalDecl, Site};
use hh_term::term::Term;

/// A program in which each loop's body stands twice, the second time with locals and async sites of its own.
/// Every copied program keeps the rules of `IsCopied`.
#[derive(Drop)]
pub struct Copied {
    signals: Vec<SignalDecl>,
    interface: u32,
    bodies: Vec<BodyDecl>,
    sites: Vec<Site>,
    term: Term,
    pub ghost rules: { ∥ IsCopied (kernel_from signals.items interface bodies.items sites.items term) ∥₁ },
}

impl Copied {
    ghost use Rattle.std.specs.Prelude.{map};
    ghost use Rattle.hh_term.specs.Views.{body_of, site_of, statement_of};
    ghost use Rattle.loop_copy.specs.CopiedView.{copied_of};

    /// The copied program of these declarations and this statement. The first `interface` signals are its
    /// interface, the others its locals in the order of the statement; a node names signals, bodies and sites
    /// by their places in these lists.
    pub fn new(
        signals: Vec<SignalDecl>,
        interface: u32,
        bodies: Vec<BodyDecl>,
        sites: Vec<Site>,
        term: Term,
    ) -> Copied
        requires { ∥ IsCopied (kernel_from signals.items interface bodies.items sites.items term) ∥₁ }
        ensures { copied_of result ≡ kernel_from signals.items interface bodies.items sites.items term }
    {
        Copied {
            signals,
            interface,
            bodies,
            sites,
            term,
        }
    }

    /// The signals: the interface in its order, then the locals in the order of the statement.
    pub fn signals(&self) -> &[SignalDecl]
        ensures { result.now ≡ (copied_of self.now).signals }
    {
        &self.signals
    }

    /// How many of the signals are the interface.
    pub fn interface_len(&self) -> u32
        ensures { result ≡ (copied_of self.now).interface }
    {
        self.interface
    }

    /// The bodies that its async sites name by their places.
    pub fn bodies(&self) -> &[BodyDecl]
        ensures { map body_of result.now ≡ (copied_of self.now).bodies }
    {
        &self.bodies
    }

    /// The async sites, in the order of the statement.
    pub fn sites(&self) -> &[Site]
        ensures { map site_of result.now ≡ (copied_of self.now).sites }
    {
        &self.sites
    }

    /// The statement. A loop's body is a sequence that stands at the loop's position.
    pub fn term(&self) -> &Term
        ensures { statement_of result.now ≡ (copied_of self.now).statement }
    {
        &self.term
    }
}
