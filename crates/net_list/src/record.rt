//! The records of a net: what its gates stand for.
use crate::gate::NetGate;
use hh_base::value::Pos;
use hh_term::program::{BodyDecl, SignalDecl, Site};
use host_expr::expr::Expr;
use sqlite_items::Items;

/// A signal: its declaration, and the gates that are its status, its status in the reaction before, and
/// whether its value is the last one (1) or the first one (0) where nothing emits it.
#[derive(Drop)]
pub struct NetSignal {
    pub decl: SignalDecl,
    pub status: u32,
    pub pre: u32,
    pub sel: u32,
}

/// An expression that counts where its control gate is 1. `pos` is the place of the statement.
#[derive(Drop)]
pub struct NetTest {
    pub control: u32,
    pub expr: Expr<u32>,
    pub pos: Pos,
}

/// What an emission carries: nothing, a computed value, or the answer of an exec.
#[derive(Drop)]
pub enum Sent {
    Nothing,
    Computed(Expr<u32>),
    Answer(u32),
}

/// An emission of a signal where its control gate is 1. `pos` is the place of the statement.
#[derive(Drop)]
pub struct NetEmit {
    pub control: u32,
    pub signal: u32,
    pub sent: Sent,
    pub pos: Pos,
}

/// An async site with its gates: it is started, rests in its register, ends, used an answer, was held, was
/// resumed, and runs after. `pos` is the place of the statement.
#[derive(Drop)]
pub struct NetExec {
    pub site: Site,
    pub go: u32,
    pub reg: u32,
    pub end: u32,
    pub used: u32,
    pub held: u32,
    pub resumed: u32,
    pub next: u32,
    pub pos: Pos,
}

/// What a net text says, in the order of its lines. A record names others by their places in these lists. A
/// register has its first state and the gate of its next one. `done` is the gate that is 1 as the program ends.
#[derive(Drop)]
pub struct NetRecords {
    pub version: u32,
    pub signals: Items<NetSignal>,
    pub bodies: Items<BodyDecl>,
    pub registers: Items<(bool, u32)>,
    pub gates: Items<NetGate>,
    pub tests: Items<NetTest>,
    pub emits: Items<NetEmit>,
    pub execs: Items<NetExec>,
    pub done: u32,
}
