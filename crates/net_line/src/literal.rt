//! Literals, quoted texts and names.
ghost use Rattle.std.specs.Prelude.{◌≡◌, Some, None, ◌↔◌, true, false, IfOk, IsTrue, MatchOption};
ghost use Rattle.std.specs.Prelude.{MatchResult, option_map};
ghost use Rattle.std.specs.Str.{is_utf8};
ghost use Rattle.hh_base.specs.Literal.{printed};
ghost use Rattle.hh_base.specs.declared.value.Value.TheVariants as value;
ghost use Rattle.net_line.specs.Literals.{literal_of, first_of, handler_of, is_dash, is_name_part, name_of};
ghost use Rattle.net_line.specs.Literals.{text_value};
ghost use Rattle.net_line.specs.declared.fault.LineFault.TheVariants.{Formless as formless};
ghost use Rattle.net_line.specs.Reading.{Decodes};

use crate::fault::LineFault;
use hh_base::literal::{LiteralFault, print_literal, read_literal};
use hh_base::text::Text;
use hh_base::value::{NoMemory, Value};
use std::alloc::Global;
use std::str;

/// The text that the bytes are, if they are UTF-8.
#[tactic(auto, using(crate::proofs::Literals::not_utf8, crate::proofs::Literals::utf8_from))]
pub(crate) fn as_text(bytes: &[u8]) -> Option<&str>
    ensures { MatchOption result (is_utf8 bytes.now ≡ false) (λ s. (s.now ≡ bytes.now)
        × (is_utf8 bytes.now ≡ true)) }
{
    match str::from_utf8(bytes) {
        Ok(text) => Some(text),
        Err(_) => None,
    }
}

/// Whether the part is what is written for the value.
fn is_written(alloc: Global, value: &Value, part: &[u8]) -> Result<bool, NoMemory>
    ensures { IfOk result (λ same. IsTrue same ↔ (printed value.now ≡ part.now)) }
{
    let mut text = Vec::new(alloc);
    print_literal(alloc, value, &mut text)?;
    Ok(text.as_slice() == part)
}

fn is_unit(found: &Value) -> bool
    ensures { IsTrue result ↔ (found.now ≡ value.Unit) }
{
    match found {
        Value::Unit => true,
        _ => false,
    }
}

/// The value that the text is the literal of, where it is written so and is no `unit`.
#[tactic(auto, using(crate::proofs::Literals::literal_is, crate::proofs::Literals::not_literal))]
fn literal_in(alloc: Global, text: &str) -> Result<Value, LineFault>
    requires { is_utf8 text.now ≡ true }
    ensures { Decodes (literal_of text.now) result }
{
    let value = match read_literal(alloc, text) {
        Ok(value) => value,
        Err(LiteralFault::NotLiteral) => return Err(LineFault::Formless),
        Err(LiteralFault::NoMemory) => return Err(LineFault::NoMemory),
    };
    if is_unit(&value) || !is_written(alloc, &value, text.as_bytes())? {
        return Err(LineFault::Formless);
    }
    Ok(value)
}

/// The value whose literal the part is.
#[tactic(auto, using(crate::proofs::Literals::not_utf8_literal))]
pub fn literal_of(alloc: Global, part: &[u8]) -> Result<Value, LineFault>
    ensures { Decodes (literal_of part.now) result }
{
    match as_text(part) {
        Some(text) => literal_in(alloc, text),
        None => Err(LineFault::Formless),
    }
}

/// Whether the part stands for what is not there.
pub fn is_dash(part: &[u8]) -> bool
    ensures { result ≡ is_dash part.now }
{
    part == b"-".as_slice()
}

/// The first value of a signal.
pub fn first_of(alloc: Global, part: &[u8]) -> Result<Value, LineFault>
    ensures { Decodes (first_of part.now) result }
{
    if is_dash(part) {
        return Ok(Value::Unit);
    }
    literal_of(alloc, part)
}

/// The text that a value is.
fn text_value(value: Value) -> Result<Option<Text>, LineFault>
    ensures { Decodes (text_value (Some value)) result }
{
    match value {
        Value::Text(text) => Ok(Some(text)),
        _ => Err(LineFault::Formless),
    }
}

/// The text of a handler, or that there is none.
pub fn handler_of(alloc: Global, part: &[u8]) -> Result<Option<Text>, LineFault>
    ensures { Decodes (handler_of part.now) result }
{
    if is_dash(part) {
        return Ok(None);
    }
    let value = literal_of(alloc, part)?;
    text_value(value)
}

/// Whether the part may stand for a name: no quote stands first.
pub fn is_name_part(part: &[u8]) -> bool
    ensures { result ≡ is_name_part part.now }
{
    match part.first() {
        Some(first) => *first != b'"' && as_text(part).is_some(),
        None => false,
    }
}

/// What stands for a name, or that there is none.
pub fn name_of(part: &[u8]) -> Result<Option<&[u8]>, LineFault>
    ensures { MatchResult result (λ o. name_of part.now ≡ Some (option_map (λ w. w.now) o))
        (λ e. e ≡ formless → name_of part.now ≡ None) }
{
    if is_dash(part) {
        return Ok(None);
    }
    if is_name_part(part) {
        return Ok(Some(part));
    }
    Err(LineFault::Formless)
}
