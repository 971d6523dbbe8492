//! The sections of registers and gates: how many lines there are, and the lines.
ghost use Rattle.std.specs.Prelude.{◌≡◌, Some, None, MatchResult, codes};
ghost use Rattle.net_line.specs.declared.fault.LineFault.TheVariants.{Formless as formless};
ghost use Rattle.net_line.specs.Formed.{IsRegisterForm, IsGateForm, IsSectionForm};
ghost use Rattle.net_line.specs.GateReading.{gate_line_of, register_line_of, section_of};
ghost use Rattle.net_line.specs.Taken.{IsTaken, IsRefused};
ghost use Rattle.net_text.specs.Lines.{gate_line, register_line};
ghost use Rattle.net_text.specs.NetText.{section};

use crate::fault::LineFault;
use crate::unread::Unread;
use net_list::gate::NetGate;

impl<'a> Unread<'a> {
    #[tactic(auto, using(crate::proofs::Loops::one_more))]
    fn register_rows(&mut self) -> Result<Vec<(bool, u32)>, LineFault>
        ensures { MatchResult result
            (λ v. section_of (codes "registers") register_line_of self.old ≡ Some (v.items, self.new))
            (λ e. e ≡ formless → section_of (codes "registers") register_line_of self.old ≡ None) }
    {
        let mut left = self.heading(b"registers")?;
        let mut registers = Vec::new(self.alloc);
        while left > 0 {
            let register = self.register()?;
            registers.push(register)?;
            left -= 1;
        }
        Ok(registers)
    }

    /// Takes the section of the registers.
    pub fn registers(&mut self) -> Result<Vec<(bool, u32)>, LineFault>
        ensures { MatchResult result
            (λ v. IsTaken (section (codes "registers") register_line) (IsSectionForm IsRegisterForm) self.old
            v.items
            self.new)
            (λ e. e ≡ formless
            → IsRefused (section (codes "registers") register_line) (IsSectionForm IsRegisterForm) self.old) }
    {
        self.register_rows()
    }

    #[tactic(auto, using(crate::proofs::Loops::one_more))]
    fn gate_rows(&mut self, parts: bool) -> Result<Vec<NetGate>, LineFault>
        ensures { MatchResult result
            (λ v. section_of (codes "gates") (gate_line_of parts) self.old ≡ Some (v.items, self.new))
            (λ e. e ≡ formless → section_of (codes "gates") (gate_line_of parts) self.old ≡ None) }
    {
        let mut left = self.heading(b"gates")?;
        let mut gates = Vec::new(self.alloc);
        while left > 0 {
            let gate = self.gate(parts)?;
            gates.push(gate)?;
            left -= 1;
        }
        Ok(gates)
    }

    /// Takes the section of the gates; `part` stands only where partial answers are taken.
    pub fn gates(&mut self, parts: bool) -> Result<Vec<NetGate>, LineFault>
        ensures { MatchResult result
            (λ v. IsTaken (section (codes "gates") gate_line) (IsSectionForm (IsGateForm parts)) self.old
            v.items
            self.new)
            (λ e. e ≡ formless
            → IsRefused (section (codes "gates") gate_line) (IsSectionForm (IsGateForm parts)) self.old) }
    {
        self.gate_rows(parts)
    }
}
