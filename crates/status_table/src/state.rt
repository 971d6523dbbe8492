//! The table, and what a round keeps while it walks.

ghost use Rattle.std.specs.Prelude.{◌≡◌, ◌<◌, length, IfOk, OnOk};
ghost use Rattle.std.specs.Option.{option_copied};
ghost use Rattle.hh_term.specs.MustCan.{table_of, gives, Executed, Possible};
ghost use Rattle.hh_term.specs.ProgramView.{kernel_of};
ghost use Rattle.host_expr.specs.declared.cell.Cell.{Cell as ACell};
ghost use Rattle.std.specs.Prelude.{◌∷◌, []};
ghost use Rattle.status_table.specs.Flat.{cell_with};
ghost use Rattle.status_table.specs.TableView.{cells_in};
ghost use Rattle.status_table.specs.Walking.{of_known, Entered, Left, Tallied};

use crate::declared::{kind_of, word_of};
use crate::tally::{Known, Tally};
use hh_base::value::{Kind, NoMemory, Tri, Value};
use hh_term::program::Program;
use host_expr::cell::{Cell, Cells, SigCell};
use std::alloc::Global;
use std::mem;

/// What is known of each local signal at each loop level: a row for each level, with a place for each signal.
#[derive(Drop)]
pub struct Statuses {
    pub rows: Vec<Vec<Known>>,
}

/// A status and a value that a round gives to an incarnation of a local signal.
#[derive(Drop)]
pub struct Raise {
    pub signal: u32,
    pub level: usize,
    pub known: Known,
}

/// What a round keeps while it walks: the cells of the signals in scope, the tally of each, and the raises.
#[derive(Drop)]
pub struct Pass {
    pub cells: Cells,
    pub tallies: Vec<Tally>,
    pub raised: Vec<Raise>,
}

/// What a signal has outside a scope.
#[derive(Drop)]
pub struct Outer {
    pub cell: SigCell,
    pub tally: Tally,
}

fn copy_cell(alloc: Global, cell: &Cell) -> Result<Cell, NoMemory>
    ensures { IfOk result (λ c. c ≡ cell.now) }
{
    Ok(match cell {
        Cell::Unknown => Cell::Unknown,
        Cell::Known(value) => Cell::Known(value.copy(alloc)?),
        Cell::Faulted(pos, kind) => Cell::Faulted(*pos, *kind),
    })
}

impl Statuses {
    /// What is known of the signal at the level; none past the ends of the table.
    pub fn get(&self, signal: u32, level: usize) -> Option<&Known>
        ensures { of_known (option_copied result) ≡ cells_in self.now signal level }
    {
        match self.rows.get(level) {
            Some(row) => row.get(signal as usize),
            None => None,
        }
    }

    /// The cell of a signal with this previous status and value.
    pub fn cell(
        &self,
        alloc: Global,
        signal: u32,
        level: usize,
        pre: bool,
        before: &Value,
    ) -> Result<SigCell, NoMemory>
        ensures { IfOk result (λ c. c ≡ cell_with (cells_in self.now signal level) pre before.now) }
    {
        let preval = before.copy(alloc)?;
        match self.get(signal, level) {
            Some(known) => Ok(SigCell {
                status: known.status,
                value: copy_cell(alloc, &known.value)?,
                pre,
                preval,
            }),
            None => Ok(SigCell {
                status: Tri::Unknown,
                value: Cell::Unknown,
                pre,
                preval,
            }),
        }
    }

    /// Enters the scope of a signal with this previous status and value.
    pub fn enter(
        &self,
        alloc: Global,
        signal: u32,
        level: usize,
        pre: bool,
        before: &Value,
        pass: &mut Pass,
    ) -> Result<Outer, NoMemory>
        requires cell { signal < length pass.old.cells.signals.items }
        requires tally { signal < length pass.old.tallies.items }
        ensures { IfOk result (λ o. Entered signal (cell_with (cells_in self.now signal level) pre before.now)
            o pass.old pass.new) }
    {
        let inner = self.cell(alloc, signal, level, pre, before)?;
        let cell = mem::replace(&mut pass.cells.signals[signal as usize], inner);
        let tally = mem::replace(&mut pass.tallies[signal as usize], Tally::new());
        Ok(Outer { cell, tally })
    }
}

impl Pass {
    /// Leaves the scope of a signal of this kind.
    pub fn leave(
        &mut self,
        alloc: Global,
        kind: Kind,
        signal: u32,
        level: usize,
        outer: Outer,
    ) -> Result<(), NoMemory>
        requires cell { signal < length self.old.cells.signals.items }
        requires tally { signal < length self.old.tallies.items }
        ensures { OnOk result (Left kind signal level outer self.old self.new) }
    {
        let cell = mem::replace(&mut self.cells.signals[signal as usize], outer.cell);
        let tally = mem::replace(&mut self.tallies[signal as usize], outer.tally);
        let known = tally.solved(alloc, kind, cell.preval);
        let before = Known {
            status: cell.status,
            value: cell.value,
        };
        if !known.is_same(&before) {
            self.raised.push(Raise {
                signal,
                level,
                known,
            })?;
        }
        Ok(())
    }
}

/// Adds an emission that must be.
pub fn add_executed(
    alloc: Global,
    program: &Program,
    signal: u32,
    cell: Cell,
    tallies: &mut Vec<Tally>,
) -> Result<(), NoMemory>
    ensures { OnOk result (Tallied (table_of (kernel_of program.now)) (gives ((signal, cell) ∷ []) 0 Executed)
        tallies.old.items tallies.new.items) }
{
    let at = signal as usize;
    if at < tallies.len() {
        let tally = mem::replace(&mut tallies[at], Tally::new());
        let kind = kind_of(program, signal);
        tallies[at] = tally.add_executed(alloc, kind, word_of(program, signal), cell)?;
    }
    Ok(())
}

/// Adds an emission that only can be.
pub fn add_possible(
    _program: &Program,
    signal: u32,
    tallies: &mut Vec<Tally>,
) -> Result<(), NoMemory>
    ensures { OnOk result ((cell : ACell) → Tallied (table_of (kernel_of _program.now))
        (gives ((signal, cell) ∷ []) 0 Possible) tallies.old.items tallies.new.items) }
{
    let at = signal as usize;
    if at < tallies.len() {
        let tally = mem::replace(&mut tallies[at], Tally::new());
        tallies[at] = tally.add_possible()?;
    }
    Ok(())
}
