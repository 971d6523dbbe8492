//! Literals of values.
ghost use Rattle.std.specs.Prelude.{◌≡◌, ℕ, ℤ, List, [], ◌∷◌, ◌++◌, true, Some, option_map, IfOk};
ghost use Rattle.std.specs.Prelude.{IfSome, IsSomeAnd, IfNone, MatchResult, OnOk, OnErr, IsTrue, ◌↔◌};
ghost use Rattle.std.specs.Prelude.{slice_index, length, ◌<◌};
ghost use Rattle.std.specs.Fmt.{signed_decimal};
ghost use Rattle.std.specs.List.{flat_map};
ghost use Rattle.std.specs.String.{string_bytes};
ghost use Rattle.hh_base.specs.Bytes.{plus, quote};
ghost use Rattle.hh_base.specs.Text.{has_text_bytes, IsText};
ghost use Rattle.hh_base.specs.Literal.{IsWord, IsInteger, IsLiteral, escaped, quoted, printed};
ghost use Rattle.hh_base.specs.Literal.{escape_of, after_backslash, next_byte};
ghost use Rattle.hh_base.specs.declared.literal.LiteralFault.TheVariants as literal_fault;
ghost use Rattle.hh_base.specs.declared.value.Value.{Value as AValue};

use crate::memory::NoMemory;
use crate::text::{Text, TextFault};
use crate::value::Value;
use std::alloc::Global;
use thiserror::Error;

/// Why a text is no literal.
#[derive(Clone, Copy, PartialEq, Eq, Debug, Error)]
pub enum LiteralFault {
    #[error("not a literal")]
    NotLiteral,
    #[error("memory ran out")]
    NoMemory,
}

impl From<NoMemory> for LiteralFault {
    ghost from_gives = { λ _ e. e ≡ literal_fault.NoMemory };

    fn from(_error: NoMemory) -> LiteralFault {
        LiteralFault::NoMemory
    }
}

fn begins_with_plus(bytes: &[u8]) -> bool
    ensures { IsTrue result ↔ (slice_index bytes.now 0 ≡ plus) }
{
    !bytes.is_empty() && bytes[0] == b'+'
}

/// The number that the text is, in 64 bits.
fn read_integer(text: &str) -> Option<i64>
    ensures found { IfSome result (λ n. IsInteger text.now n) }
    ensures only { (n : ℤ) → IsInteger text.now n → result ≡ Some n }
{
    if begins_with_plus(text.as_bytes()) {
        return None;
    }
    match text.parse::<i64>() {
        Ok(number) => Some(number),
        Err(_) => None,
    }
}

/// The byte that an escape stands for, by what follows its backslash.
fn escape_of(letter: u8) -> Option<u8>
    ensures { result ≡ escape_of letter }
{
    match letter {
        b'"' => Some(b'"'),
        b'\\' => Some(b'\\'),
        b'n' => Some(b'\n'),
        b't' => Some(b'\t'),
        _ => None,
    }
}

fn after_backslash(text: &[u8]) -> Option<(u8, &[u8])>
    ensures next { option_map (λ p. (p.0, p.1.now)) result ≡ after_backslash text.now }
    ensures shorter { IfSome result (λ p. length p.1.now < length text.now) }
{
    let (letter, rest) = text.split_first()?;
    let byte = escape_of(*letter)?;
    Some((byte, rest))
}

/// Between quotes: the first byte of the text value, and what follows what is written for it. None at a quote,
/// at a character below U+0020, and at a backslash that begins no escape.
pub fn next_byte(text: &[u8]) -> Option<(u8, &[u8])>
    ensures next { option_map (λ p. (p.0, p.1.now)) result ≡ next_byte text.now }
    ensures shorter { IfSome result (λ p. length p.1.now < length text.now) }
{
    let (first, rest) = text.split_first()?;
    if *first == b'\\' {
        return after_backslash(rest);
    }
    if *first < b' ' || *first == b'"' {
        return None;
    }
    Some((*first, rest))
}

fn is_quote(text: &[u8]) -> bool
    ensures { IsTrue result ↔ (text.now ≡ quote ∷ []) }
{
    text == b"\"".as_slice()
}

/// The bytes of the text that stands between quotes, given what follows the first quote.
fn unquoted(alloc: Global, text: &[u8]) -> Result<Option<Vec<u8>>, NoMemory>
    ensures found { IfOk result (λ o. IfSome o (λ v. (has_text_bytes v.items ≡ true)
        × (text.now ≡ flat_map escaped v.items ++ quote ∷ []))) }
    ensures only { IfOk result (λ o. (t : List ℕ) → has_text_bytes t ≡ true
        → text.now ≡ flat_map escaped t ++ quote ∷ [] → IsSomeAnd o (λ v. v.items ≡ t)) }
{
    let mut bytes = Vec::new(alloc);
    let mut rest = text;
    while let Some((byte, others)) = next_byte(rest) {
        bytes.push(byte)?;
        rest = others;
    }
    if !is_quote(rest) {
        return Ok(None);
    }
    Ok(Some(bytes))
}

/// The text that stands between the quotes of the whole.
fn read_quoted(alloc: Global, text: &[u8]) -> Result<Option<Text>, NoMemory>
    ensures found { IfOk result (λ o. IfSome o (λ t. IsText t × (text.now ≡ quoted t))) }
    ensures only { IfOk result (λ o. (t : List ℕ) → IsText t → text.now ≡ quoted t → o ≡ Some t) }
{
    let Some((first, rest)) = text.split_first() else {
        return Ok(None);
    };
    if *first != b'"' {
        return Ok(None);
    }
    let Some(bytes) = unquoted(alloc, rest)? else {
        return Ok(None);
    };
    match Text::read(alloc, &bytes) {
        Ok(text) => Ok(Some(text)),
        Err(TextFault::NoMemory) => Err(NoMemory),
        Err(_) => Ok(None),
    }
}

/// The value that a word stands for.
fn read_word(text: &str) -> Option<Value>
    ensures found { IfSome result (λ v. IsLiteral text.now v) }
    ensures only { IfSome result (λ v. (w : AValue) → IsLiteral text.now w → v ≡ w) }
    ensures none { IfNone result (IsWord text.now → ⊥) }
{
    match text {
        "unit" => Some(Value::Unit),
        "true" => Some(Value::Bool(true)),
        "false" => Some(Value::Bool(false)),
        _ => None,
    }
}

/// The value that the text is a literal of.
pub fn read_literal(alloc: Global, text: &str) -> Result<Value, LiteralFault>
    ensures found { IfOk result (λ v. IsLiteral text.now v) }

    // A literal is read, unless memory runs out, and as one value.
    ensures only { (v : AValue) → IsLiteral text.now v
        → MatchResult result (λ u. u ≡ v) (λ e. e ≡ LiteralFault.NoMemory) }
{
    if let Some(value) = read_word(text) {
        return Ok(value);
    }
    if let Some(number) = read_integer(text) {
        return Ok(Value::Int(number));
    }
    match read_quoted(alloc, text.as_bytes())? {
        Some(text) => Ok(Value::Text(text)),
        None => Err(LiteralFault::NotLiteral),
    }
}

/// Adds a byte at the end as it stands between quotes.
fn push_escaped(out: &mut Vec<u8>, byte: u8) -> Result<(), NoMemory>
    ensures { OnOk result (out.new.items ≡ out.old.items ++ escaped byte) }
{
    match byte {
        b'"' => out.extend_from_slice(b"\\\"")?,
        b'\\' => out.extend_from_slice(b"\\\\")?,
        b'\n' => out.extend_from_slice(b"\\n")?,
        b'\t' => out.extend_from_slice(b"\\t")?,
        _ => out.push(byte)?,
    }
    Ok(())
}

/// The bytes of a text between quotes, with a backslash before each quote and backslash, and `\n` and `\t` for
/// LF and TAB: the literal of the text, and the token that module texts have for it.
pub fn quote(alloc: Global, text: &[u8]) -> Result<Vec<u8>, NoMemory>
    ensures { IfOk result (λ v. v.items ≡ quoted text.now) }
{
    let mut out = Vec::new(alloc);
    out.push(b'"')?;
    for byte in text {
        push_escaped(&mut out, *byte)?;
    }
    out.push(b'"')?;
    Ok(out)
}

fn integer_literal(alloc: Global, number: i64) -> Result<String, NoMemory>
    ensures ok { IfOk result (λ s. string_bytes s ≡ signed_decimal number) }
    ensures literal { IsInteger (signed_decimal number) number }
{
    Ok(number.to_string(alloc)?)
}

/// Adds the literal of a value at the end. It is read back as that value.
pub fn print_literal(alloc: Global, value: &Value, out: &mut Vec<u8>) -> Result<(), NoMemory>
    ensures ok { OnOk result (out.new.items ≡ out.old.items ++ printed value.now) }
    ensures err { OnErr result (out.new.items ≡ out.old.items) }
    ensures literal { IsLiteral (printed value.now) value.now }
{
    match value {
        Value::Unit => out.extend_from_slice(b"unit")?,
        Value::Bool(true) => out.extend_from_slice(b"true")?,
        Value::Bool(false) => out.extend_from_slice(b"false")?,
        Value::Int(number) => {
            let digits = integer_literal(alloc, *number)?;
            out.extend_from_slice(digits.as_bytes())?;
        }
        Value::Text(text) => {
            let _bytes = text.len();
            let quoted = quote(alloc, text.as_bytes())?;
            out.extend_from_slice(&quoted)?;
        }
    }
    Ok(())
}
