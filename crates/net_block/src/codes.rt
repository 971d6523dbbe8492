//! Gates of completion codes.

ghost use Rattle.std.specs.Prelude.{◌≡◌, IfOk};
ghost use Rattle.net_block.specs.Codes.{code_gate, gate_or_zero, either, merged, joined, let_through};
ghost use Rattle.net_block.specs.Codes.{joined_code, side_by_side, synchronized};
ghost use Rattle.net_block.specs.Drawn.{drawn, next_of, JoinsCode, Makes};

use crate::drawing::Drawing;
use hh_base::memory::NoMemory;
use std::alloc::Global;

/// The gate of a code, if there is one.
pub fn code_gate(codes: &[Option<u32>], code: usize) -> Option<u32>
    ensures { result ≡ code_gate codes.now code }
{
    match codes.get(code) {
        Some(gate) => *gate,
        None => None,
    }
}

/// The gate, or gate 0 where there is none.
pub fn gate_or_zero(gate: Option<u32>) -> u32
    ensures { result ≡ gate_or_zero gate }
{
    match gate {
        Some(gate) => gate,
        None => 0,
    }
}

/// A code of a parallel, and its two wires with it.
#[derive(Clone, Copy)]
pub struct JoinedCode {
    pub left: u32,
    pub right: u32,
    pub code: Option<u32>,
}

impl Drawing {
    /// Where both gates are there a new one that is 1 where one of them is, else the one.
    pub fn either(
        &mut self,
        alloc: Global,
        a: Option<u32>,
        b: Option<u32>,
    ) -> Result<Option<u32>, NoMemory>
        ensures { IfOk result
            (λ c. Makes (either (next_of (drawn self.old)).gate a b) (drawn self.old) (drawn self.new) c) }
    {
        match a {
            None => Ok(b),
            Some(first) => match b {
                None => Ok(a),
                Some(second) => Ok(Some(self.or(alloc, first, second)?)),
            },
        }
    }

    /// The gates of the codes of two statements, in rising order.
    pub fn merged(
        &mut self,
        alloc: Global,
        left: &[Option<u32>],
        right: &[Option<u32>],
    ) -> Result<Vec<Option<u32>>, NoMemory>
        ensures { IfOk result
            (λ codes. Makes (merged (next_of (drawn self.old)).gate (side_by_side left.now right.now))
            (drawn self.old) (drawn self.new) codes.items) }
    {
        let mut codes = Vec::new(alloc);
        for code in 0..left.len().max(right.len()) {
            let gate = self.either(alloc, code_gate(left, code), code_gate(right, code))?;
            codes.push(gate)?;
        }
        Ok(codes)
    }

    /// A wire with one more code.
    fn joined(&mut self, alloc: Global, wire: u32, code: Option<u32>) -> Result<u32, NoMemory>
        ensures { IfOk result (λ w. Makes (joined (next_of (drawn self.old)).gate wire code)
            (drawn self.old) (drawn self.new) w) }
    {
        match code {
            None => Ok(wire),
            Some(code) => self.or(alloc, wire, code),
        }
    }

    /// A code of one branch where this wire is 1.
    fn let_through(
        &mut self,
        alloc: Global,
        code: Option<u32>,
        wire: u32,
    ) -> Result<Option<u32>, NoMemory>
        ensures { IfOk result (λ c. Makes (let_through (next_of (drawn self.old)).gate code wire)
            (drawn self.old) (drawn self.new) c) }
    {
        match code {
            None => Ok(None),
            Some(code) => Ok(Some(self.and(alloc, code, wire)?)),
        }
    }

    /// The gates of one code of a parallel, whose branches may have it.
    fn joined_code(
        &mut self,
        alloc: Global,
        wires: JoinedCode,
        first: Option<u32>,
        second: Option<u32>,
    ) -> Result<JoinedCode, NoMemory>
        ensures { IfOk result
            (λ c. JoinsCode (joined_code (next_of (drawn self.old)).gate wires.left wires.right
            (first, second)) (drawn self.old) (drawn self.new) c) }
    {
        let left = self.joined(alloc, wires.left, first)?;
        let right = self.joined(alloc, wires.right, second)?;
        let first = self.let_through(alloc, first, right)?;
        let second = self.let_through(alloc, second, left)?;
        let code = self.either(alloc, first, second)?;
        Ok(JoinedCode { left, right, code })
    }

    /// The gates of the greater of the codes of two branches, from the gates that are 1 where the left and
    /// where the right branch is dead.
    pub fn synchronized(
        &mut self,
        alloc: Global,
        left_dead: u32,
        right_dead: u32,
        left: &[Option<u32>],
        right: &[Option<u32>],
    ) -> Result<Vec<Option<u32>>, NoMemory>
        ensures { IfOk result
            (λ codes. Makes (synchronized (next_of (drawn self.old)).gate left_dead right_dead
            (side_by_side left.now right.now)) (drawn self.old) (drawn self.new) codes.items) }
    {
        let mut codes = Vec::new(alloc);
        let mut wires = JoinedCode {
            left: left_dead,
            right: right_dead,
            code: None,
        };
        for code in 0..left.len().max(right.len()) {
            wires = self.joined_code(alloc, wires, code_gate(left, code), code_gate(right, code))?;
            codes.push(wires.code)?;
        }
        Ok(codes)
    }
}
