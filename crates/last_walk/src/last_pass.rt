//! What the last walk of a reaction keeps.

ghost use Rattle.std.specs.Prelude.{◌≡◌, ◌∷◌, ◌<◌, ◌||◌, ◌&&◌, ◌==◌, [], length, nat_lt, IfOk, OnOk, ℕ};
ghost use Rattle.std.specs.Prelude.{List as AList};
ghost use Rattle.hh_base.specs.declared.value.Kind.{Kind as AKind};
ghost use Rattle.hh_base.specs.declared.value.Value.{Value as AValue};
ghost use Rattle.host_expr.specs.Combination.{is_overflowed, is_several};
ghost use Rattle.hh_term.specs.MustCan.{table_of, Table as ATable};
ghost use Rattle.hh_term.specs.ProgramView.{kernel_of};
ghost use Rattle.hh_term.specs.Reaction.{fault_rank};
ghost use Rattle.last_walk.specs.LastWalk.{sum_of, fault_in, Adds, Counts, Entered, Judged, Left, Noted};
ghost use Rattle.last_walk.specs.LastWalk.{lesser, fault_place, place_of_fault, place_of_signal};
ghost use Rattle.last_walk.specs.LastWalk.{signal_place};
ghost use Rattle.last_walk.specs.Whole.{Begun, NoEmissions};

use crate::touch::Touch;
use hh_base::value::{CombineWord, FaultKind, Kind, NoMemory, Pos, Value};
use hh_term::program::Program;
use host_expr::cell::{Cell, Cells, SigCell};
use status_table::declared::{kind_of, word_of};
use std::alloc::Global;
use std::mem;

/// How often a signal was emitted, and the sum of the numbers that it was emitted with.
#[derive(Drop)]
pub struct Emitted {
    pub count: u64,
    pub sum: i128,
}

/// What the last walk keeps: the cells of the signals in scope and the emissions of each, the touches, and of
/// the signals that were emitted twice without a combine word and of the faults the first in the input.
#[derive(Drop)]
pub struct LastPass {
    pub cells: Cells,
    pub emitted: Vec<Emitted>,
    pub touches: Vec<Touch>,
    pub doubled: Option<u32>,
    pub fault: Option<(Pos, FaultKind)>,
}

/// What a signal has outside a scope.
#[derive(Drop)]
pub struct Outer {
    pub cell: SigCell,
    pub emitted: Emitted,
}

fn number_in(cell: &Cell) -> i64
    ensures { (k : AKind) → sum_of k (cell.now ∷ []) ≡ result }
{
    match cell {
        Cell::Known(Value::Int(number)) => *number,
        _ => 0,
    }
}

impl Emitted {
    /// No emission.
    pub fn none() -> Emitted
        ensures { Counts result [] }
    {
        Emitted { count: 0, sum: 0 }
    }

    /// One more emission. What 64 bits do not count or 128 bits not hold, no memory holds the emissions of.
    fn with(self, cell: &Cell) -> Result<Emitted, NoMemory>
        ensures { IfOk result (λ e. (k : AKind) → Adds k (cell.now ∷ []) self e) }
    {
        let count = self.count.checked_add(1).ok_or(NoMemory)?;
        let sum = self
            .sum
            .checked_add(i128::from(number_in(cell)))
            .ok_or(NoMemory)?;
        Ok(Emitted { count, sum })
    }

    /// Whether these are two or more emissions of a valued signal without a combine word.
    fn is_several(&self, kind: Kind, word: Option<CombineWord>) -> bool
        ensures { (vs : AList AValue) → Counts self.now vs → result ≡ is_several kind word vs }
    {
        word.is_none() && kind != Kind::Pure && self.count > 1
    }

    /// Whether these are two or more emissions whose sum is outside 64 bits.
    fn is_overflowed(&self, word: Option<CombineWord>) -> bool
        ensures { (vs : AList AValue) → Counts self.now vs → result ≡ is_overflowed word vs }
    {
        word == Some(CombineWord::Plus) && self.count > 1 && i64::try_from(self.sum).is_err()
    }
}

fn rank(kind: FaultKind) -> u32
    ensures { result ≡ fault_rank kind }
{
    match kind {
        FaultKind::Divide => 0,
        FaultKind::Overflow => 1,
        FaultKind::TextLong => 2,
    }
}

/// Whether the first comes before the second: by position, there by kind.
fn is_earlier(a: (Pos, FaultKind), b: (Pos, FaultKind)) -> bool
    ensures { result ≡ nat_lt (fault_place a) (fault_place b) }
{
    let (Pos(a_pos), a_kind) = a;
    let (Pos(b_pos), b_kind) = b;
    a_pos < b_pos || a_pos == b_pos && rank(a_kind) < rank(b_kind)
}

fn first_fault(met: Option<(Pos, FaultKind)>, fault: (Pos, FaultKind)) -> Option<(Pos, FaultKind)>
    ensures { place_of_fault result ≡ lesser (place_of_fault met) (fault_place fault) }
{
    match met {
        Some(other) if !is_earlier(fault, other) => Some(other),
        _ => Some(fault),
    }
}

fn position_of(program: &Program, signal: u32) -> u32
    ensures { result ≡ signal_place (table_of (kernel_of program.now)) signal }
{
    match program.signals().get(signal as usize) {
        Some(declared) => declared.pos.0,
        None => 0,
    }
}

fn first_signal(program: &Program, met: Option<u32>, signal: u32) -> Option<u32>
    ensures { place_of_signal (table_of (kernel_of program.now)) result
        ≡ lesser (place_of_signal (table_of (kernel_of program.now)) met)
        (signal_place (table_of (kernel_of program.now)) signal) }
{
    match met {
        Some(other) if position_of(program, other) <= position_of(program, signal) => Some(other),
        _ => Some(signal),
    }
}

fn no_emissions(alloc: Global, count: usize) -> Result<Vec<Emitted>, NoMemory>
    ensures { IfOk result (λ v. NoEmissions count v.items) }
{
    let mut none = Vec::with_capacity(alloc, count)?;
    for signal in 0..count {
        none.push(Emitted::none())?;
    }
    Ok(none)
}

impl LastPass {
    /// Where the walk begins: the signals have these cells, and nothing is noted.
    pub fn new(alloc: Global, cells: Cells) -> Result<LastPass, NoMemory>
        ensures { IfOk result (Begun cells) }
    {
        let emitted = no_emissions(alloc, cells.signals.len())?;
        Ok(LastPass {
            cells,
            emitted,
            touches: Vec::new(alloc),
            doubled: None,
            fault: None,
        })
    }

    /// Notes the fault of a cell, if it has one.
    pub fn note_fault(&mut self, cell: &Cell)
        ensures same { self.new ≡ record self.old { fault = self.new.fault } }
        ensures noted { (T : ATable) → Noted T [] [] (fault_in cell.now) [] self.old self.new }
    {
        if let Cell::Faulted(pos, kind) = cell {
            self.fault = first_fault(self.fault, (*pos, *kind));
        }
    }

    /// Adds an emission.
    pub fn emit(&mut self, signal: u32, cell: &Cell) -> Result<(), NoMemory>
        ensures { OnOk result ((T : ATable) → Noted T ((signal, cell.now) ∷ []) [] [] [] self.old self.new) }
    {
        let at = signal as usize;
        if at < self.emitted.len() {
            let before = mem::replace(&mut self.emitted[at], Emitted::none());
            self.emitted[at] = before.with(cell)?;
        }
        Ok(())
    }

    /// Notes what is wrong with the emissions of a signal.
    pub fn judge(&mut self, program: &Program, signal: u32, emitted: &Emitted)
        ensures same { self.new ≡ record self.old { fault = self.new.fault; doubled = self.new.doubled } }
        ensures judged { Judged (table_of (kernel_of program.now)) signal emitted.now self.old self.new }
    {
        let word = word_of(program, signal);
        if emitted.is_several(kind_of(program, signal), word) {
            self.doubled = first_signal(program, self.doubled, signal);
        }
        if emitted.is_overflowed(word) {
            let pos = Pos(position_of(program, signal));
            self.fault = first_fault(self.fault, (pos, FaultKind::Overflow));
        }
    }

    /// Enters the scope of a signal with this cell.
    pub fn enter(&mut self, signal: u32, inner: SigCell) -> Outer
        requires cell { signal < length self.old.cells.signals.items }
        requires emitted { signal < length self.old.emitted.items }
        ensures { Entered signal inner result self.old self.new }
    {
        let cell = mem::replace(&mut self.cells.signals[signal as usize], inner);
        let emitted = mem::replace(&mut self.emitted[signal as usize], Emitted::none());
        Outer { cell, emitted }
    }

    /// Leaves the scope of a signal, and judges its emissions. The answer is the cell that it had inside.
    pub fn leave(&mut self, program: &Program, signal: u32, outer: Outer) -> SigCell
        requires cell { signal < length self.old.cells.signals.items }
        requires emitted { signal < length self.old.emitted.items }
        ensures { Left (table_of (kernel_of program.now)) signal outer result self.old self.new }
    {
        let cell = mem::replace(&mut self.cells.signals[signal as usize], outer.cell);
        let emitted = mem::replace(&mut self.emitted[signal as usize], outer.emitted);
        self.judge(program, signal, &emitted);
        cell
    }
}
