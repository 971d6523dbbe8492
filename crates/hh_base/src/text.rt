//! Text values.
ghost use Rattle.std.specs.Prelude.{◌≡◌, ◌+◌, ◌<◌, ◌≤◌, ◌↔◌, [], ◌++◌, length, true, false, IsTrue, IfOk};
ghost use Rattle.std.specs.Prelude.{OnOk, OnErr, IsErrOf, MatchOption};
ghost use Rattle.std.specs.Str.{is_utf8};
ghost use Rattle.hh_base.specs.Text.{text_byte, has_text_bytes, IsText};
ghost use Rattle.hh_base.specs.declared.text.TextFault.TheVariants.{NoMemory as OutOfMemory};

use crate::memory::NoMemory;
use std::alloc::{AllocError, AllocFailed, Global};
use std::marker::Model;
use thiserror::Error;

/// The most bytes that a text value has.
pub const TEXT_LIMIT: usize = 4096;

/// Why bytes are no text value.
#[derive(Clone, Copy, PartialEq, Eq, Debug, Error)]
pub enum TextFault {
    #[error("not UTF-8")]
    NotUtf8,
    #[error("a control character other than TAB and LF")]
    BadByte,
    #[error("longer than a text may be")]
    TextLong,
    #[error("memory ran out")]
    NoMemory,
}

impl From<AllocError> for TextFault {
    ghost from_gives = { λ _ e. e ≡ OutOfMemory };

    fn from(_error: AllocError) -> TextFault {
        TextFault::NoMemory
    }
}

/// A text value: UTF-8 of at most `TEXT_LIMIT` bytes with no control characters other than TAB and LF.
/// Contracts see its bytes.
#[derive(Drop)]
pub struct Text {
    string: String,
}

impl Model for Text {
    ghost use Rattle.std.specs.Prelude.{List, ℕ};
    ghost use Rattle.std.specs.String.{string_bytes};
    ghost use Rattle.hh_base.specs.Text.{IsText};

    ghost Value = { List ℕ };

    ghost view = { λ t. string_bytes t.string };

    ghost invariant = { λ t. IsText (string_bytes t.string) };
}

/// Whether a text value may have this byte.
fn is_text_byte(byte: u8) -> bool
    ensures { result ≡ text_byte byte }
{
    byte >= b' ' || byte == b'\t' || byte == b'\n'
}

fn has_text_bytes(bytes: &[u8]) -> bool
    ensures { result ≡ has_text_bytes bytes.now }
{
    bytes.iter().all(|byte| is_text_byte(*byte))
}

#[tactic(auto, using(crate::proofs::Utf8::not_utf8, crate::proofs::Utf8::utf8_from))]
/// The text that the bytes are, if they are UTF-8.
fn as_utf8(bytes: &[u8]) -> Option<&str>
    ensures { MatchOption result (is_utf8 bytes.now ≡ false)
        (λ s. (s.now ≡ bytes.now) × (is_utf8 bytes.now ≡ true)) }
{
    match str::from_utf8(bytes) {
        Ok(text) => Some(text),
        Err(_) => None,
    }
}

impl Text {
    /// The text that the bytes are. Of several faults the first in the order of `TextFault` is answered.
    pub fn read(alloc: Global, bytes: &[u8]) -> Result<Text, TextFault>
        ensures ok { IfOk result (λ t. t ≡ bytes.now) }
        ensures valid { OnOk result (IsText bytes.now) }
        ensures not_utf8 { IsErrOf result TextFault.NotUtf8 ↔ (is_utf8 bytes.now ≡ false) }
        ensures bad_byte { IsErrOf result TextFault.BadByte
            ↔ ((is_utf8 bytes.now ≡ true) × (has_text_bytes bytes.now ≡ false)) }
        ensures long { IsErrOf result TextFault.TextLong
            ↔ ((is_utf8 bytes.now ≡ true) × (has_text_bytes bytes.now ≡ true)
            × (TEXT_LIMIT < length bytes.now)) }
    {
        let Some(text) = as_utf8(bytes) else {
            return Err(TextFault::NotUtf8);
        };
        if !has_text_bytes(bytes) {
            return Err(TextFault::BadByte);
        }
        if bytes.len() > TEXT_LIMIT {
            return Err(TextFault::TextLong);
        }
        Ok(Text {
            string: String::from_str(alloc, text)?,
        })
    }

    /// The empty text.
    pub fn empty(alloc: Global) -> Text
        ensures { result ≡ [] }
    {
        Text {
            string: String::new(alloc),
        }
    }

    /// The text as UTF-8.
    pub fn as_str(&self) -> &str
        ensures { result.now ≡ self.now }
    {
        self.string.as_str()
    }

    /// The bytes of the text.
    pub fn as_bytes(&self) -> &[u8]
        ensures { result.now ≡ self.now }
    {
        self.string.as_bytes()
    }

    /// How many bytes it has.
    pub fn len(&self) -> usize
        ensures len { result ≡ length self.now }
        ensures valid { IsText self.now }
    {
        self.string.len()
    }

    /// A text of its own with the same bytes.
    pub fn copy(&self, alloc: Global) -> Result<Text, NoMemory>
        ensures { IfOk result (λ t. t ≡ self.now) }
    {
        Ok(Text {
            string: String::from_str(alloc, self.string.as_str())?,
        })
    }

    /// The one text followed by the other.
    pub fn join(&self, alloc: Global, other: &Text) -> Result<Text, NoMemory>
        requires { length self.now + length other.now ≤ TEXT_LIMIT }
        ensures { IfOk result (λ t. t ≡ self.now ++ other.now) }
    {
        let mut string = String::from_str(alloc, self.string.as_str())?;
        string.push_str(other.string.as_str())?;
        Ok(Text { string })
    }

    /// Adds the other text at the end, in amortized time of the other. After an Err it is as before.
    pub fn append(&mut self, other: &Text) -> Result<(), NoMemory>
        requires { length self.old + length other.now ≤ TEXT_LIMIT }
        ensures ok { OnOk result (self.new ≡ self.old ++ other.now) }
        ensures err { OnErr result (self.new ≡ self.old) }
    {
        self.string.push_str(other.string.as_str())?;
        Ok(())
    }
}

/// Whether two texts are the same, byte for byte.
pub fn same_text(a: &Text, b: &Text) -> bool
    ensures { IsTrue result ↔ (a.now ≡ b.now) }
{
    a.as_str() == b.as_str()
}
