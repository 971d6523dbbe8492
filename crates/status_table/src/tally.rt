//! What a round keeps of the emissions of one signal.

ghost use Rattle.std.specs.Prelude.{◌≡◌, ◌↔◌, ◌∷◌, ◌+◌, ◌&&◌, ℤ, [], List, IsTrue, OnOk, IfOk};
ghost use Rattle.host_expr.specs.declared.cell.Cell.{Cell as ACell};
ghost use Rattle.host_expr.specs.Combination.{counts_as};
ghost use Rattle.host_expr.specs.Environment.{is_known};
ghost use Rattle.hh_base.specs.declared.value.CombineWord.{CombineWord as AWord};
ghost use Rattle.std.specs.Prelude.{Option as AnOption, ℕ};
ghost use Rattle.hh_term.specs.MustCan.{status_by, value_by};
ghost use Rattle.status_table.specs.Tallies.{Adds, tally_of, is_whole, number_of, sum_with, lesser, larger};
ghost use Rattle.status_table.specs.Tallies.{both, any, met, unit_of, joined, value_of};

use hh_base::value::{
    CombineWord, FaultKind, Kind, NoMemory, Pos, Tri, Value, default_of, same_value,
};
use host_expr::cell::Cell;
use std::alloc::Global;

/// What the values met so far combine to.
#[derive(Drop)]
pub enum Running {
    Nothing,
    Single(Value),
    Sum(i128),
    Least(Option<i64>),
    Greatest(Option<i64>),
    All(bool),
    Any(bool),
    /// Two or more values without a combine word.
    Several,
}

fn number_of(value: &Value) -> Option<i64>
    ensures { result ≡ number_of value.now }
{
    match value {
        Value::Int(number) => Some(*number),
        _ => None,
    }
}

fn sum_with(sum: i128, number: Option<i64>) -> Option<i128>
    ensures { (n : ℤ) → result ≡ Some n → n ≡ sum_with sum number }
{
    match number {
        Some(number) => sum.checked_add(i128::from(number)),
        None => Some(sum),
    }
}

fn lesser(a: Option<i64>, b: Option<i64>) -> Option<i64>
    ensures { result ≡ lesser a b }
{
    match (a, b) {
        (Some(a), Some(b)) => Some(a.min(b)),
        (Some(a), None) => Some(a),
        (None, b) => b,
    }
}

fn larger(a: Option<i64>, b: Option<i64>) -> Option<i64>
    ensures { result ≡ larger a b }
{
    match (a, b) {
        (Some(a), Some(b)) => Some(a.max(b)),
        (Some(a), None) => Some(a),
        (None, b) => b,
    }
}

fn both(truth: bool, value: &Value) -> bool
    ensures { result ≡ both truth value.now }
{
    match value {
        Value::Bool(other) => truth && *other,
        _ => truth,
    }
}

fn any(truth: bool, value: &Value) -> bool
    ensures { result ≡ any truth value.now }
{
    match value {
        Value::Bool(other) => truth || *other,
        _ => truth,
    }
}

impl Running {
    fn unit_of(word: CombineWord) -> Running
        ensures { result ≡ unit_of word }
    {
        match word {
            CombineWord::Plus => Running::Sum(0),
            CombineWord::Min => Running::Least(None),
            CombineWord::Max => Running::Greatest(None),
            CombineWord::And => Running::All(true),
            CombineWord::Or => Running::Any(false),
        }
    }

    /// One more value. A sum outside 128 bits, which no memory holds the emissions of, is want of memory.
    fn met(self, value: Value) -> Result<Running, NoMemory>
        ensures { IfOk result (λ r. r ≡ met self value) }
    {
        match self {
            Running::Nothing => Ok(Running::Single(value)),
            Running::Single(_) => Ok(Running::Several),
            Running::Sum(sum) => match sum_with(sum, number_of(&value)) {
                Some(sum) => Ok(Running::Sum(sum)),
                None => Err(NoMemory),
            },
            Running::Least(number) => Ok(Running::Least(lesser(number, number_of(&value)))),
            Running::Greatest(number) => Ok(Running::Greatest(larger(number, number_of(&value)))),
            Running::All(truth) => Ok(Running::All(both(truth, &value))),
            Running::Any(truth) => Ok(Running::Any(any(truth, &value))),
            Running::Several => Ok(Running::Several),
        }
    }

    /// One more value of a signal with this combine word.
    fn joined(self, word: Option<CombineWord>, value: Value) -> Result<Running, NoMemory>
        ensures { IfOk result (λ r. r ≡ joined word self value) }
    {
        match (word, self) {
            (Some(word), Running::Single(first)) => Running::unit_of(word).met(first)?.met(value),
            (_, running) => running.met(value),
        }
    }

    /// What they combine to for a signal of this kind.
    fn into_value(self, alloc: Global, kind: Kind) -> Value
        ensures { result ≡ value_of kind self }
    {
        match self {
            Running::Nothing | Running::Several => default_of(alloc, kind),
            Running::Single(value) => value,
            Running::Sum(sum) => Value::Int(i64::try_from(sum).unwrap_or(0)),
            Running::Least(number) | Running::Greatest(number) => Value::Int(number.unwrap_or(0)),
            Running::All(truth) | Running::Any(truth) => Value::Bool(truth),
        }
    }
}

/// How many emissions of a signal must and can be, whether all that must be are known, and what their values
/// combine to.
#[derive(Drop)]
pub struct Tally {
    must: u64,
    can: u64,
    known: bool,
    running: Running,
}

/// A status and a value, as far as they are known.
#[derive(Drop)]
pub struct Known {
    pub status: Tri,
    pub value: Cell,
}

fn is_known(cell: &Cell) -> bool
    ensures { result ≡ is_known cell.now }
{
    !matches!(cell, Cell::Unknown)
}

fn are_known(known: bool, cell: &Cell) -> bool
    ensures { result ≡ (known && is_known cell.now) }
{
    known && is_known(cell)
}

/// A count past 64 bits, which no memory holds the emissions of, is want of memory.
fn one_more(count: u64) -> Result<u64, NoMemory>
    ensures { IfOk result (λ n. n ≡ count + 1) }
{
    count.checked_add(1).ok_or(NoMemory)
}

fn value_in(alloc: Global, kind: Kind, cell: Cell) -> Value
    ensures { result ≡ counts_as kind cell }
{
    match cell {
        Cell::Known(value) => value,
        Cell::Unknown | Cell::Faulted(_, _) => default_of(alloc, kind),
    }
}

impl Tally {
    /// No emission.
    pub fn new() -> Tally
        ensures { (k : Kind) (w : AnOption AWord) → result ≡ tally_of k w [] [] }
    {
        Tally {
            must: 0,
            can: 0,
            known: true,
            running: Running::Nothing,
        }
    }

    /// An emission that must be. More than 64 bits count is want of memory.
    pub fn add_executed(
        self,
        alloc: Global,
        kind: Kind,
        word: Option<CombineWord>,
        cell: Cell,
    ) -> Result<Tally, NoMemory>
        ensures { IfOk result (λ t. Adds kind word self t (cell ∷ []) (cell ∷ [])) }
    {
        let known = are_known(self.known, &cell);
        let running = self.running.joined(word, value_in(alloc, kind, cell))?;
        let must = one_more(self.must)?;
        let can = one_more(self.can)?;
        Ok(Tally {
            must,
            can,
            known,
            running,
        })
    }

    /// An emission that only can be.
    pub fn add_possible(self) -> Result<Tally, NoMemory>
        ensures { IfOk result (λ t. (k : Kind) (w : AnOption AWord) (cell : ACell) → Adds k w self t []
            (cell ∷ [])) }
    {
        let can = one_more(self.can)?;
        Ok(Tally { can, ..self })
    }

    fn status(&self) -> Tri
        ensures { (k : Kind) (w : AnOption AWord) (m c : List ACell) → self.now ≡ tally_of k w m c → result ≡
            status_by m c }
    {
        if self.must > 0 {
            Tri::One
        } else if self.can > 0 {
            Tri::Unknown
        } else {
            Tri::Zero
        }
    }

    /// All that can be must be, and is known.
    fn is_whole(&self) -> bool
        ensures { (k : Kind) (w : AnOption AWord) (m c : List ACell) → self.now ≡ tally_of k w m c → result ≡
            is_whole m c }
    {
        self.must == self.can && self.known
    }

    fn value(self, alloc: Global, kind: Kind, before: Value) -> Cell
        ensures { (w : AnOption AWord) (m c : List ACell) → self ≡ tally_of kind w m c → result ≡ value_by
            kind w before m c }
    {
        if self.can == 0 {
            return Cell::Known(before);
        }
        if self.is_whole() {
            return Cell::Known(self.running.into_value(alloc, kind));
        }
        Cell::Unknown
    }

    /// The status and the value that a round gives to a signal with this previous value.
    pub fn solved(self, alloc: Global, kind: Kind, before: Value) -> Known
        ensures status { (w : AnOption AWord) (m c : List ACell) → self ≡ tally_of kind w m c → result.status
            ≡ status_by m c }
        ensures value { (w : AnOption AWord) (m c : List ACell) → self ≡ tally_of kind w m c → result.value ≡
            value_by kind w before m c }
    {
        let status = self.status();
        let value = self.value(alloc, kind, before);
        Known { status, value }
    }
}

fn same_fault(a: (Pos, FaultKind), b: (Pos, FaultKind)) -> bool
    ensures { IsTrue result ↔ (a ≡ b) }
{
    a.0 == b.0 && a.1 == b.1
}

fn same_cell(a: &Cell, b: &Cell) -> bool
    ensures { IsTrue result ↔ (a.now ≡ b.now) }
{
    match (a, b) {
        (Cell::Unknown, Cell::Unknown) => true,
        (Cell::Known(a), Cell::Known(b)) => same_value(a, b),
        (Cell::Faulted(p, k), Cell::Faulted(q, l)) => same_fault((*p, *k), (*q, *l)),
        _ => false,
    }
}

impl Known {
    /// Nothing is known.
    pub fn nothing() -> Known
        ensures { result ≡ record { status = Tri.Unknown; value = Cell.Unknown } }
    {
        Known {
            status: Tri::Unknown,
            value: Cell::Unknown,
        }
    }

    /// Whether the two are the same.
    pub fn is_same(&self, other: &Known) -> bool
        ensures { IsTrue result ↔ (self.now ≡ other.now) }
    {
        self.status == other.status && same_cell(&self.value, &other.value)
    }
}
