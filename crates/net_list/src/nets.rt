//! Nets that keep the rules of their text.
ghost use Rattle.std.specs.Prelude.{◌≡◌};
ghost use Rattle.net_list.specs.IsNets.{IsNets};

use crate::gate::NetGate;
use crate::record::{NetEmit, NetExec, NetRecords, NetSignal, NetTest};
use hh_term::program::BodyDecl;
use std::marker::Model;

/// Nets. Contracts see their records, which keep the rules of `IsNets`.
#[derive(Drop)]
pub struct Nets {
    records: NetRecords,
}

impl Model for Nets {
    ghost use Rattle.net_list.specs.declared.record.NetRecords.{NetRecords as Records};
    ghost use Rattle.net_list.specs.IsNets.{IsNets};
    ghost use Rattle.host_expr.specs.contracts.expr.ExprNode as node;
    ghost use Rattle.std.specs.Coded.{codes};
    ghost use Rattle.std.specs.Borrow.{u32};

    ghost Value = { Records };

    ghost coded = { Prim.hlevel (codes, (node.the_row u32).coded) };

    ghost view = { λ n. n.records };

    ghost invariant = { λ n. ∥ IsNets n.records ∥₁ };
}

impl Nets {
    /// The nets of these records.
    pub fn new(records: NetRecords) -> Nets
        requires { ∥ IsNets records ∥₁ }
        ensures { result ≡ records }
    {
        Nets { records }
    }

    /// The records, with the rules that they keep.
    pub fn records(&self) -> &NetRecords
        ensures records { result.now ≡ self.now }
        ensures rules { ∥ IsNets self.now ∥₁ }
    {
        &self.records
    }

    /// The version of their text: 2, or 1 where they take no partial answers.
    pub fn version(&self) -> u32
        ensures { result ≡ self.now.version }
    {
        self.records.version
    }

    /// The signals, those of the interface first.
    pub fn signals(&self) -> &[NetSignal]
        ensures { result.now ≡ self.now.signals }
    {
        self.records.signals.as_slice()
    }

    /// The bodies that execs run.
    pub fn bodies(&self) -> &[BodyDecl]
        ensures { result.now ≡ self.now.bodies }
    {
        self.records.bodies.as_slice()
    }

    /// The registers: the first state of each, and the gate of its next one.
    pub fn registers(&self) -> &[(bool, u32)]
        ensures { result.now ≡ self.now.registers }
    {
        self.records.registers.as_slice()
    }

    /// The gates.
    pub fn gates(&self) -> &[NetGate]
        ensures { result.now ≡ self.now.gates }
    {
        self.records.gates.as_slice()
    }

    /// The tests.
    pub fn tests(&self) -> &[NetTest]
        ensures { result.now ≡ self.now.tests }
    {
        self.records.tests.as_slice()
    }

    /// The emissions.
    pub fn emits(&self) -> &[NetEmit]
        ensures { result.now ≡ self.now.emits }
    {
        self.records.emits.as_slice()
    }

    /// The async sites.
    pub fn execs(&self) -> &[NetExec]
        ensures { result.now ≡ self.now.execs }
    {
        self.records.execs.as_slice()
    }

    /// The gate that is 1 as the program ends.
    pub fn done(&self) -> u32
        ensures { result ≡ self.now.done }
    {
        self.records.done
    }
}
