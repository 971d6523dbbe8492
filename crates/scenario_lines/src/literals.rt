//! Ids and values, as a scenario writes them.
ghost use Rattle.std.specs.Prelude.{◌≡◌, ◌↔◌, ℕ, false, true, IfOk, IfSome, IsTrue, MatchOption, Some, List};
ghost use Rattle.std.specs.Prelude.{slice_index};
ghost use Rattle.std.specs.Str.{is_utf8};
ghost use Rattle.hh_base.specs.Bytes.{plus};
ghost use Rattle.hh_base.specs.declared.value.Value.{Value as AValue};
ghost use Rattle.scenario_lines.specs.Literals.{IsId, IsValue};
ghost use Rattle.scenario_lines.specs.Reader.{Carries, IsBracketed, Within, valued};

use hh_base::literal::{LiteralFault, read_literal};
use hh_base::value::{NoMemory, Value};
use std::alloc::Global;

#[tactic(auto, using(crate::proofs::Numbers::not_utf8, crate::proofs::Numbers::utf8_from))]
/// The text that the bytes are, if they are UTF-8.
fn as_text(bytes: &[u8]) -> Option<&str>
    ensures { MatchOption result (is_utf8 bytes.now ≡ false) (λ s. (s.now ≡ bytes.now)
        × (is_utf8 bytes.now ≡ true)) }
{
    match str::from_utf8(bytes) {
        Ok(text) => Some(text),
        Err(_) => None,
    }
}

fn begins_with_plus(bytes: &[u8]) -> bool
    ensures { IsTrue result ↔ (slice_index bytes.now 0 ≡ plus) }
{
    !bytes.is_empty() && bytes[0] == b'+'
}

/// The number that a run of digits is, within 64 bits.
fn read_number(text: &str) -> Option<u64>
    ensures found { IfSome result (IsId text.now) }
    ensures only { (n : ℕ) → IsId text.now n → result ≡ Some n }
{
    if begins_with_plus(text.as_bytes()) {
        return None;
    }
    match text.parse::<u64>() {
        Ok(number) => Some(number),
        Err(_) => None,
    }
}

#[tactic(auto, using(crate::proofs::Numbers::no_id))]
/// The id that the bytes are.
pub fn read_id(bytes: &[u8]) -> Option<u64>
    ensures found { IfSome result (IsId bytes.now) }
    ensures only { (n : ℕ) → IsId bytes.now n → result ≡ Some n }
{
    read_number(as_text(bytes)?)
}

/// The value that the bytes are the literal of.
pub fn read_value(alloc: Global, bytes: &[u8]) -> Result<Option<Value>, NoMemory>
    ensures found { IfOk result (λ o. IfSome o (IsValue bytes.now)) }
    ensures only { (v : AValue) → IsValue bytes.now v → IfOk result (λ o. o ≡ Some v) }
{
    let Some(text) = as_text(bytes) else {
        return Ok(None);
    };
    match read_literal(alloc, text) {
        Ok(value) => Ok(Some(value)),
        Err(LiteralFault::NotLiteral) => Ok(None),
        Err(LiteralFault::NoMemory) => Err(NoMemory),
    }
}

/// The bytes between a parenthesis at each end.
fn within(bytes: &[u8]) -> Option<&[u8]>
    ensures { MatchOption result ((l : List ℕ) → Within bytes.now l → ⊥) (λ l. Within bytes.now l.now) }
{
    match bytes.split_first() {
        Some((b'(', behind)) => match behind.split_last() {
            Some((b')', inner)) => Some(inner),
            _ => None,
        },
        _ => None,
    }
}

fn valued(value: Value) -> Option<Value>
    ensures { result ≡ valued value }
{
    match value {
        Value::Unit => None,
        value => Some(value),
    }
}

/// The value whose literal stands in parentheses, which is no `unit`.
fn read_bracketed(alloc: Global, bytes: &[u8]) -> Result<Option<Value>, NoMemory>
    ensures found { IfOk result (λ o. IfSome o (IsBracketed bytes.now)) }
    ensures only { (v : AValue) → IsBracketed bytes.now v → IfOk result (λ o. o ≡ Some v) }
{
    let Some(literal) = within(bytes) else {
        return Ok(None);
    };
    match read_value(alloc, literal)? {
        Some(value) => Ok(valued(value)),
        None => Ok(None),
    }
}

/// The value that stands behind the name of an input: `Unit` where nothing does.
pub fn read_carried(alloc: Global, rest: &[u8]) -> Result<Option<Value>, NoMemory>
    ensures found { IfOk result (λ o. IfSome o (Carries rest.now)) }
    ensures only { (v : AValue) → Carries rest.now v → IfOk result (λ o. o ≡ Some v) }
{
    if rest.is_empty() {
        return Ok(Some(Value::Unit));
    }
    read_bracketed(alloc, rest)
}
