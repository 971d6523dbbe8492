//! What a statement must do and can do in one reaction, and how that of its parts makes that of the whole.

ghost use Rattle.std.specs.Prelude.{◌≡◌, ◌<◌, ◌∷◌, [], cond, IfOk};
ghost use Rattle.hh_term.specs.Codes.{only};
ghost use Rattle.hh_term.specs.Flags.{Agrees};
ghost use Rattle.hh_term.specs.MustCan.{gives, greater, go_on, is_end, hide as hidden, lower_code};
ghost use Rattle.hh_term.specs.MustCan.{one_of as one_of_both, parallel, trapped as trapped_both, raised};
ghost use Rattle.hh_term.specs.MustCan.{table_of};
ghost use Rattle.hh_term.specs.ProgramView.{kernel_of};
ghost use Rattle.nested_reaction.specs.View.{code_of, in_sequence, index_of, must_can_of};

use crate::bag::{Bag, append_where, cells_of, status_by, value_by, without};
use crate::declared::{kind_of, word_of};
use crate::environment::copy_cell;
use hh_base::value::NoMemory;
use hh_term::codes::{Flags, follow, join, lower, put_only, take_greater};
use hh_term::program::Program;
use host_expr::cell::{Cell, SigCell};
use std::alloc::Global;

/// The emissions that must be and the code with which it must complete, if there is one; the emissions that
/// can be and the codes with which it can.
#[derive(Drop)]
pub struct MustCan {
    pub must: Bag,
    pub code: Option<u16>,
    pub can: Bag,
    pub codes: Flags,
}

fn code_where(code: u16, sure: bool) -> Option<u16>
    ensures { result ≡ code_of code sure }
{
    if sure { Some(code) } else { None }
}

fn only(code: u16) -> Flags
    requires { code < 258 }
    ensures { Agrees result (only code) }
{
    let mut codes = [false; 258];
    put_only(&mut codes, code as usize);
    codes
}

/// A statement that completes with this code; it must only where it is known to be executed.
pub fn completes(alloc: Global, code: u16, sure: bool) -> MustCan
    requires { code < 258 }
    ensures { must_can_of result ≡ gives [] code (index_of sure) }
{
    MustCan {
        must: Vec::new(alloc),
        code: code_where(code, sure),
        can: Vec::new(alloc),
        codes: only(code),
    }
}

/// A bag of one emission where the flag is set.
fn one_where(alloc: Global, flag: bool, signal: u32, cell: &Cell) -> Result<Bag, NoMemory>
    ensures { IfOk result (λ b. b.items ≡ cond flag ((signal, cell.now) ∷ []) []) }
{
    let mut bag = Vec::new(alloc);
    if flag {
        bag.push((signal, copy_cell(alloc, cell)?))?;
    }
    Ok(bag)
}

/// A statement that emits, and completes with this code.
pub fn emits(
    alloc: Global,
    signal: u32,
    cell: Cell,
    code: u16,
    sure: bool,
) -> Result<MustCan, NoMemory>
    requires { code < 258 }
    ensures { IfOk result (λ a. must_can_of a ≡ gives ((signal, cell) ∷ []) code (index_of sure)) }
{
    let must = one_where(alloc, sure, signal, &cell)?;
    let can = one_where(alloc, true, signal, &cell)?;
    Ok(MustCan {
        must,
        code: code_where(code, sure),
        can,
        codes: only(code),
    })
}

/// One of the two, and it is not known which.
pub fn one_of(mut a: MustCan, mut b: MustCan) -> Result<MustCan, NoMemory>
    ensures { IfOk result (λ c. must_can_of c ≡ one_of_both (must_can_of a) (must_can_of b)) }
{
    a.can.append(&mut b.can)?;
    join(&mut a.codes, &b.codes);
    a.must.clear();
    a.code = None;
    Ok(a)
}

/// Whether the code is that of the end.
pub fn is_end(a: &MustCan) -> bool
    ensures { index_of result ≡ is_end (must_can_of a.now).code }
{
    a.code == Some(0)
}

fn go_on(first: Option<u16>, second: Option<u16>) -> Option<u16>
    ensures { result ≡ go_on first second }
{
    match first {
        Some(0) => second,
        code => code,
    }
}

/// The second after the first.
pub fn in_sequence(mut a: MustCan, mut b: MustCan) -> Result<MustCan, NoMemory>
    ensures { IfOk result (λ c. must_can_of c ≡ in_sequence (must_can_of a) (must_can_of b)) }
{
    a.must.append(&mut b.must)?;
    append_where(a.codes[0], &mut a.can, &mut b.can)?;
    a.code = go_on(a.code, b.code);
    follow(&mut a.codes, &b.codes);
    Ok(a)
}

fn greater(first: Option<u16>, second: Option<u16>) -> Option<u16>
    ensures { result ≡ greater first second }
{
    match (first, second) {
        (Some(first), Some(second)) => Some(first.max(second)),
        _ => None,
    }
}

/// The two side by side.
pub fn beside(mut a: MustCan, mut b: MustCan) -> Result<MustCan, NoMemory>
    ensures { IfOk result (λ c. must_can_of c ≡ parallel (must_can_of a) (must_can_of b)) }
{
    a.must.append(&mut b.must)?;
    a.can.append(&mut b.can)?;
    a.code = greater(a.code, b.code);
    take_greater(&mut a.codes, &b.codes);
    Ok(a)
}

fn lowered(code: Option<u16>) -> Option<u16>
    ensures { result ≡ lower_code code }
{
    match code {
        Some(0 | 2) => Some(0),
        Some(1) => Some(1),
        Some(code) => Some(code - 1),
        None => None,
    }
}

/// What a trap makes of its body.
pub fn trapped(mut a: MustCan) -> MustCan
    ensures { must_can_of result ≡ trapped_both (must_can_of a) }
{
    a.code = lowered(a.code);
    lower(&mut a.codes);
    a
}

/// What is left of a body outside the scope of the signal.
pub fn hide(alloc: Global, signal: u32, mut a: MustCan) -> Result<MustCan, NoMemory>
    ensures { IfOk result (λ b. must_can_of b ≡ hidden signal (must_can_of a)) }
{
    a.must = without(alloc, signal, &a.must)?;
    a.can = without(alloc, signal, &a.can)?;
    Ok(a)
}

/// What one round makes of a signal, from what its body must and can do.
pub fn raised(
    alloc: Global,
    program: &Program,
    signal: u32,
    cell: &SigCell,
    body: &MustCan,
) -> Result<SigCell, NoMemory>
    ensures { IfOk result
        (λ c. c ≡ raised (table_of (kernel_of program.now)) signal cell.now (must_can_of body.now)) }
{
    let must = cells_of(alloc, signal, &body.must)?;
    let can = cells_of(alloc, signal, &body.can)?;
    let kind = kind_of(program, signal);
    let value = value_by(
        alloc,
        kind,
        word_of(program, signal),
        &cell.preval,
        &must,
        &can,
    )?;
    let preval = cell.preval.copy(alloc)?;
    Ok(SigCell {
        status: status_by(&must, &can),
        value,
        pre: cell.pre,
        preval,
    })
}
