//! Names of signals, modules, bodies and traps.
ghost use Rattle.std.specs.Prelude.{◌≡◌, ◌<◌, ◌≤◌, ◌↔◌, ◌||◌, ◌==◌, length, true, false, IsTrue, IfOk};
ghost use Rattle.std.specs.Prelude.{OnOk, IsErrOf};
ghost use Rattle.std.specs.List.{list_all};
ghost use Rattle.std.specs.Str.{chars};
ghost use Rattle.unicode_ident.specs.Ident.{is_xid_continue};
ghost use Rattle.hh_base.specs.Name.{starts_word, is_word, IsName};
ghost use Rattle.hh_base.specs.declared.name.NameFault.TheVariants.{NoMemory as OutOfMemory};

use crate::memory::NoMemory;
use std::alloc::{AllocError, Global};
use std::marker::Model;
use thiserror::Error;

/// The most bytes that a name has.
pub const NAME_LIMIT: usize = 255;

/// Why a text is no name.
#[derive(Clone, Copy, PartialEq, Eq, Debug, Error)]
pub enum NameFault {
    #[error("not an identifier")]
    NotName,
    #[error("longer than a name may be")]
    NameLong,
    #[error("memory ran out")]
    NoMemory,
}

impl From<AllocError> for NameFault {
    ghost from_gives = { λ _ e. e ≡ OutOfMemory };

    fn from(_error: AllocError) -> NameFault {
        NameFault::NoMemory
    }
}

/// A name: an identifier of 1 to `NAME_LIMIT` bytes. Contracts see its bytes. Keywords are names here.
#[derive(Drop)]
pub struct Name {
    string: String,
}

impl Model for Name {
    ghost use Rattle.std.specs.Prelude.{List, ℕ};
    ghost use Rattle.std.specs.String.{string_bytes};
    ghost use Rattle.hh_base.specs.Name.{IsName};

    ghost Value = { List ℕ };

    ghost view = { λ n. string_bytes n.string };

    ghost invariant = { λ n. IsName (string_bytes n.string) };
}

/// Whether a word may begin with the character.
pub fn starts_word(letter: char) -> bool
    ensures { result ≡ starts_word letter }
{
    unicode_ident::is_xid_start(letter) || letter == '_'
}

fn goes_on(text: &str) -> bool
    ensures { result ≡ list_all is_xid_continue (chars text.now) }
{
    text.chars().all(unicode_ident::is_xid_continue)
}

/// Whether the text is one word: it begins with a character that may begin one, and goes on with such
/// that may go on one.
pub fn is_word(text: &str) -> bool
    ensures { result ≡ is_word (chars text.now) }
{
    let mut letters = text.chars();
    match letters.next() {
        None => false,
        Some(first) => starts_word(first) && goes_on(letters.as_str()),
    }
}

impl Name {
    /// The name that the text is. A text that is no word is `NotName`, however long it is.
    pub fn read(alloc: Global, text: &str) -> Result<Name, NameFault>
        ensures ok { IfOk result (λ n. n ≡ text.now) }
        ensures valid { OnOk result (IsName text.now) }
        ensures not_name { IsErrOf result NameFault.NotName ↔ (is_word (chars text.now) ≡ false) }
        ensures long { IsErrOf result NameFault.NameLong
            ↔ ((is_word (chars text.now) ≡ true) × (NAME_LIMIT < length text.now)) }
    {
        if !is_word(text) {
            return Err(NameFault::NotName);
        }
        if text.len() > NAME_LIMIT {
            return Err(NameFault::NameLong);
        }
        Ok(Name {
            string: String::from_str(alloc, text)?,
        })
    }

    /// The name as it is written.
    pub fn as_str(&self) -> &str
        ensures text { result.now ≡ self.now }
        ensures valid { IsName self.now }
    {
        self.string.as_str()
    }

    /// The bytes of the name.
    pub fn as_bytes(&self) -> &[u8]
        ensures bytes { result.now ≡ self.now }
        ensures valid { IsName self.now }
    {
        self.string.as_bytes()
    }

    /// A name of its own with the same bytes.
    pub fn copy(&self, alloc: Global) -> Result<Name, NoMemory>
        ensures { IfOk result (λ n. n ≡ self.now) }
    {
        Ok(Name {
            string: String::from_str(alloc, self.string.as_str())?,
        })
    }
}

/// Whether two names are the same, byte for byte.
pub fn same_name(a: &Name, b: &Name) -> bool
    ensures { IsTrue result ↔ (a.now ≡ b.now) }
{
    a.as_str() == b.as_str()
}
