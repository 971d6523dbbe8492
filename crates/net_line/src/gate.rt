//! The lines of gates and registers, and lines with a count.
ghost use Rattle.std.specs.Prelude.{◌≡◌, true};
ghost use Rattle.net_line.specs.GateReading.{number, first_number, named_word, if_taken, gate_word};
ghost use Rattle.net_line.specs.GateReading.{gate_of, spaces, inputs, gate_behind};
ghost use Rattle.net_line.specs.GateReading.{gate_line_of, state_of, register_line_of, word_is, heading_of};
ghost use Rattle.net_line.specs.Formed.{IsSmall, IsGateForm, IsRegisterForm};
ghost use Rattle.net_line.specs.Reading.{plain, times, behind, line_end, Reads};
ghost use Rattle.net_line.specs.Taken.{Takes};
ghost use Rattle.net_text.specs.Lines.{gate_line, register_line};
ghost use Rattle.net_text.specs.NetText.{heading};

use crate::decode::number_of;
use crate::fault::LineFault;
use crate::unread::Unread;
use net_list::gate::{NetGate, Wires};

/// What a gate names one of.
#[derive(Clone, Copy, PartialEq, Eq, Debug)]
pub enum Named {
    Not,
    Reg,
    Test,
    Input,
    Answer,
    Part,
}

/// The word that the line of a gate begins with.
#[derive(Clone, Copy, PartialEq, Eq, Debug)]
pub enum GateWord {
    Zero,
    One,
    And,
    Or,
    Of(Named),
}

fn named_word(word: &[u8]) -> Option<Named>
    ensures { result ≡ named_word word.now }
{
    if word == b"not".as_slice() {
        return Some(Named::Not);
    }
    if word == b"reg".as_slice() {
        return Some(Named::Reg);
    }
    if word == b"test".as_slice() {
        return Some(Named::Test);
    }
    if word == b"in".as_slice() {
        return Some(Named::Input);
    }
    if word == b"ans".as_slice() {
        return Some(Named::Answer);
    }
    if word == b"part".as_slice() {
        return Some(Named::Part);
    }
    None
}

fn if_taken(word: Option<Named>, parts: bool) -> Option<GateWord>
    ensures { result ≡ if_taken parts word }
{
    match word {
        Some(Named::Part) => parts.then_some(GateWord::Of(Named::Part)),
        Some(named) => Some(GateWord::Of(named)),
        None => None,
    }
}

/// The word, where `part` stands only if partial answers are taken.
fn gate_word(word: &[u8], parts: bool) -> Option<GateWord>
    ensures { result ≡ gate_word parts word.now }
{
    if word == b"0".as_slice() {
        return Some(GateWord::Zero);
    }
    if word == b"1".as_slice() {
        return Some(GateWord::One);
    }
    if word == b"and".as_slice() {
        return Some(GateWord::And);
    }
    if word == b"or".as_slice() {
        return Some(GateWord::Or);
    }
    if_taken(named_word(word), parts)
}

fn gate_of(named: Named, place: u32) -> NetGate
    ensures { result ≡ gate_of named place }
{
    match named {
        Named::Not => NetGate::Not(place),
        Named::Reg => NetGate::Reg(place),
        Named::Test => NetGate::Test(place),
        Named::Input => NetGate::Input(place),
        Named::Answer => NetGate::Answer(place),
        Named::Part => NetGate::Part(place),
    }
}

fn state_of(word: &[u8]) -> Option<bool>
    ensures { result ≡ state_of word.now }
{
    if word == b"0".as_slice() {
        return Some(false);
    }
    if word == b"1".as_slice() {
        return Some(true);
    }
    None
}

impl<'a> Unread<'a> {
    /// Takes a space and a number.
    pub fn number(&mut self) -> Result<u32, LineFault>
        ensures { Reads (number self.old) result self.new }
    {
        let part = self.part()?;
        match number_of(part) {
            Some(number) => Ok(number),
            None => Err(LineFault::Formless),
        }
    }

    /// Takes a number that a line begins with.
    pub fn first_number(&mut self) -> Result<u32, LineFault>
        ensures { Reads (first_number self.old) result self.new }
    {
        match number_of(self.word()) {
            Some(number) => Ok(number),
            None => Err(LineFault::Formless),
        }
    }

    /// Takes the numbers up to the end of a line.
    #[tactic(auto, using(crate::proofs::Loops::one_more))]
    fn inputs(&mut self) -> Result<Wires, LineFault>
        ensures { Reads (inputs self.old) result self.new }
    {
        let mut left = self.spaces();
        let mut wires = Wires::new(self.alloc);
        while left > 0 {
            let gate = self.number()?;
            wires.push(gate)?;
            left -= 1;
        }
        Ok(wires)
    }

    fn gate_behind(&mut self, word: GateWord) -> Result<NetGate, LineFault>
        ensures { Reads (gate_behind word self.old) result self.new }
    {
        match word {
            GateWord::Zero => Ok(NetGate::Zero),
            GateWord::One => Ok(NetGate::One),
            GateWord::And => Ok(NetGate::And(self.inputs()?)),
            GateWord::Or => Ok(NetGate::Or(self.inputs()?)),
            GateWord::Of(named) => {
                let place = self.number()?;
                Ok(gate_of(named, place))
            }
        }
    }

    fn gate_row(&mut self, parts: bool) -> Result<NetGate, LineFault>
        ensures { Reads (gate_line_of parts self.old) result self.new }
    {
        let Some(word) = gate_word(self.word(), parts) else {
            return Err(LineFault::Formless);
        };
        let gate = self.gate_behind(word)?;
        self.line_end()?;
        Ok(gate)
    }

    /// Takes the line of a gate; `part` stands only where partial answers are taken.
    #[tactic(auto, using(crate::proofs::Taking::gate_taken))]
    pub fn gate(&mut self, parts: bool) -> Result<NetGate, LineFault>
        ensures reads { Reads (gate_line_of parts self.old) result self.new }
        ensures takes { Takes gate_line (IsGateForm parts) self.old result self.new }
    {
        self.gate_row(parts)
    }

    fn register_row(&mut self) -> Result<(bool, u32), LineFault>
        ensures { Reads (register_line_of self.old) result self.new }
    {
        let Some(first) = state_of(self.word()) else {
            return Err(LineFault::Formless);
        };
        let next = self.number()?;
        self.line_end()?;
        Ok((first, next))
    }

    /// Takes the line of a register: its first state, and the gate of its next one.
    #[tactic(auto, using(crate::proofs::Taking::register_taken))]
    pub fn register(&mut self) -> Result<(bool, u32), LineFault>
        ensures reads { Reads (register_line_of self.old) result self.new }
        ensures takes { Takes register_line IsRegisterForm self.old result self.new }
    {
        self.register_row()
    }

    fn heading_row(&mut self, word: &[u8]) -> Result<u32, LineFault>
        ensures { Reads (heading_of word.now self.old) result self.new }
    {
        if self.word() != word {
            return Err(LineFault::Formless);
        }
        let number = self.number()?;
        self.line_end()?;
        Ok(number)
    }

    /// Takes a line of this word and a number.
    #[tactic(auto, using(crate::proofs::Taking::heading_taken))]
    pub fn heading(&mut self, word: &[u8]) -> Result<u32, LineFault>
        requires { plain word.now ≡ true }
        ensures reads { Reads (heading_of word.now self.old) result self.new }
        ensures takes { Takes (heading word.now) IsSmall self.old result self.new }
    {
        self.heading_row(word)
    }
}
