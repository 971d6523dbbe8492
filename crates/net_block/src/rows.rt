//! Statements without parts.

ghost use Rattle.std.specs.Prelude.{◌≡◌, ◌<◌, [], ◌∷◌, ◌++◌, IfOk, OnOk, Some, length, set, slice_index_or};
ghost use Rattle.net_block.specs.Block.{emit_block, instant, pause_block, sent_value};
ghost use Rattle.net_block.specs.Codes.{only_code};
ghost use Rattle.net_block.specs.Drawn.{drawn, next_of, Draws};

use crate::drawing::Drawing;
use crate::ends::{Controls, Ends};
use crate::written::written;
use hh_base::memory::NoMemory;
use hh_base::value::Pos;
use host_expr::expr::Expr;
use net_list::gate::NetGate;
use net_list::record::{NetEmit, Sent};
use std::alloc::Global;

/// This code alone.
fn only_code(alloc: Global, code: usize, go: u32) -> Result<Vec<Option<u32>>, NoMemory>
    ensures { IfOk result (λ codes. codes.items ≡ only_code code go) }
{
    let mut codes = Vec::new(alloc);
    for level in 0..code {
        codes.push(None)?;
    }
    codes.push(Some(go))?;
    Ok(codes)
}

/// The ends of a statement that never rests, and ends with this code at once.
pub fn instant(alloc: Global, code: usize, go: u32) -> Result<Ends, NoMemory>
    ensures sel { IfOk result (λ e. e.sel ≡ (instant code go).sel) }
    ensures codes { IfOk result (λ e. e.codes.items ≡ (instant code go).codes) }
{
    let codes = only_code(alloc, code, go)?;
    Ok(Ends { sel: 0, codes })
}

/// A gate for code 0 and one for code 1.
pub fn two_codes(alloc: Global, end: u32, pause: u32) -> Result<Vec<Option<u32>>, NoMemory>
    ensures { IfOk result (λ codes. codes.items ≡ Some end ∷ Some pause ∷ []) }
{
    let mut codes = Vec::new(alloc);
    codes.push(Some(end))?;
    codes.push(Some(pause))?;
    Ok(codes)
}

/// What an emission sends.
fn sent_value(alloc: Global, value: &Option<Expr<u32>>) -> Result<Sent, NoMemory>
    ensures { IfOk result (λ s. s ≡ sent_value value.now) }
{
    match value {
        None => Ok(Sent::Nothing),
        Some(value) => Ok(Sent::Computed(written(alloc, value)?)),
    }
}

impl Drawing {
    /// Draws a pause.
    pub fn pause(&mut self, alloc: Global, wires: Controls) -> Result<Ends, NoMemory>
        ensures { IfOk result
            (λ e. Draws (pause_block (next_of (drawn self.old)) wires) (drawn self.old) (drawn self.new) e) }
    {
        let register = self.next_register()?;
        let rests = self.gate(NetGate::Reg(register))?;
        let ends = self.and(alloc, rests, wires.resume)?;
        let held = self.and(alloc, rests, wires.suspend)?;
        let pauses = self.or(alloc, wires.go, held)?;
        let lives = self.gate(NetGate::Not(wires.kill))?;
        let next = self.and(alloc, pauses, lives)?;
        self.registers.push((false, next))?;
        let codes = two_codes(alloc, ends, wires.go)?;
        Ok(Ends { sel: rests, codes })
    }

    /// Notes that this signal is emitted where this gate is 1.
    pub fn note(&mut self, signal: u32, gate: u32) -> Result<(), NoMemory>
        requires { signal < length self.old.emitters.items }
        ensures { OnOk result (drawn self.new ≡ record (drawn self.old) {
          emitters = set self.old.emitters.items signal
              (slice_index_or self.old.emitters.items signal [] ++ gate ∷ []);
        }) }
    {
        self.emitters[signal as usize].push(gate)?;
        Ok(())
    }

    /// Draws an emission.
    pub fn emit(
        &mut self,
        alloc: Global,
        pos: Pos,
        signal: u32,
        value: &Option<Expr<u32>>,
        wires: Controls,
    ) -> Result<Ends, NoMemory>
        requires { signal < length self.old.emitters.items }
        ensures { IfOk result
            (λ e. Draws (emit_block pos signal value.now wires) (drawn self.old) (drawn self.new) e) }
    {
        let go = wires.go;
        self.note(signal, go)?;
        let sent = sent_value(alloc, value)?;
        self.emits.push(NetEmit {
            control: go,
            signal,
            sent,
            pos,
        })?;
        let ends = instant(alloc, 0, go)?;
        Ok(ends)
    }
}
