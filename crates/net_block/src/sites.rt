//! Async sites.

ghost use Rattle.std.specs.Prelude.{◌≡◌, ◌<◌, IfOk, OnOk, Some, length};
ghost use Rattle.std.specs.List.{AllByRecursion};
ghost use Rattle.net_block.specs.Block.{answers, async_block, optional};
ghost use Rattle.net_block.specs.Drawn.{drawn, next_of, only_emits, with_parts, Draws, DrawsSite};

use crate::drawing::Drawing;
use crate::ends::{Controls, Ends};
use crate::rows::two_codes;
use crate::written::written_site;
use hh_base::memory::NoMemory;
use hh_base::value::Pos;
use hh_term::program::Site;
use net_list::gate::NetGate;
use net_list::record::{NetEmit, NetExec, Sent};
use std::alloc::Global;

/// The gates of an async site: control rests there, it ends, used an answer that is not its last one, was
/// resumed, pauses, was held, rests after, and sends an answer.
#[derive(Clone, Copy)]
pub struct SiteGates {
    pub rests: u32,
    pub ends: u32,
    pub used: u32,
    pub resumed: u32,
    pub pauses: u32,
    pub held: u32,
    pub next: u32,
    pub sends: u32,
}

impl Drawing {
    /// Draws the gates and the register of an async site.
    pub fn site_gates(
        &mut self,
        alloc: Global,
        site: u32,
        wires: Controls,
    ) -> Result<SiteGates, NoMemory>
        ensures { IfOk result (λ g. DrawsSite site wires (drawn self.old) (drawn self.new) g) }
    {
        let register = self.next_register()?;
        let rests = self.gate(NetGate::Reg(register))?;
        let last = self.gate(NetGate::Answer(site))?;
        let part = self.gate(NetGate::Part(site))?;
        let runs = self.and(alloc, rests, wires.resume)?;
        let ends = self.and(alloc, runs, last)?;
        let used = self.and(alloc, runs, part)?;
        let waits = self.gate(NetGate::Not(last))?;
        let resumed = self.and(alloc, runs, waits)?;
        let pauses = self.or(alloc, wires.go, resumed)?;
        let held = self.and(alloc, rests, wires.suspend)?;
        let stays = self.or(alloc, pauses, held)?;
        let lives = self.gate(NetGate::Not(wires.kill))?;
        let next = self.and(alloc, stays, lives)?;
        let sends = self.or(alloc, ends, used)?;
        self.registers.push((false, next))?;
        Ok(SiteGates {
            rests,
            ends,
            used,
            resumed,
            pauses,
            held,
            next,
            sends,
        })
    }

    /// Draws the emission of the answers of a site, if they are sent to a signal.
    fn answer(
        &mut self,
        pos: Pos,
        site: u32,
        signal: Option<u32>,
        sends: u32,
    ) -> Result<(), NoMemory>
        requires { AllByRecursion (λ s. s < length self.old.emitters.items) (optional (λ s. s) signal) }
        ensures { OnOk result (drawn self.new ≡ with_parts (drawn self.old)
            (only_emits (optional (answers pos site sends) signal))) }
    {
        match signal {
            None => Ok(()),
            Some(signal) => {
                self.note(signal, sends)?;
                self.emits.push(NetEmit {
                    control: sends,
                    signal,
                    sent: Sent::Answer(site),
                    pos,
                })?;
                Ok(())
            }
        }
    }

    /// Draws an async site: its gates, its record, and the emission of its answers.
    pub fn async_site(
        &mut self,
        alloc: Global,
        pos: Pos,
        number: u32,
        site: &Site,
        wires: Controls,
    ) -> Result<Ends, NoMemory>
        requires { AllByRecursion (λ s. s < length self.old.emitters.items)
            (optional (λ s. s) site.now.signal) }
        ensures { IfOk result
            (λ e. Draws (async_block pos number (Some site.now) (next_of (drawn self.old)) wires)
            (drawn self.old) (drawn self.new) e) }
    {
        let gates = self.site_gates(alloc, number, wires)?;
        let copy = written_site(alloc, site)?;
        self.execs.push(NetExec {
            site: copy,
            go: wires.go,
            reg: gates.rests,
            end: gates.ends,
            used: gates.used,
            held: gates.held,
            resumed: gates.resumed,
            next: gates.next,
            pos,
        })?;
        self.answer(pos, number, site.signal, gates.sends)?;
        let codes = two_codes(alloc, gates.ends, gates.pauses)?;
        Ok(Ends {
            sel: gates.rests,
            codes,
        })
    }
}
