//! Why a text has no tokens.
ghost use Rattle.std.specs.Prelude.{◌≡◌, Some};
ghost use Rattle.module_token.specs.FaultWord.{fault_word};

use hh_base::value::Pos;
use std::alloc::{AllocError, AllocFailed};
use std::fmt;
use thiserror::Error;

/// What is wrong at the first place of a text that has neither a gap nor a token. At most one of these is
/// wrong there,
/// so they have no order among themselves.
#[derive(Clone, Copy, PartialEq, Eq, Debug)]
pub enum TokenFaultKind {
    /// A character that begins no token.
    BadChar,
    /// A word of more than 255 bytes.
    NameLong,
    /// A number of more than 2^63.
    NumberLarge,
    /// A quoted text without a closing quote before the next character below U+0020 or the end.
    TextOpen,
    /// A backslash in a quoted text before a character that makes no escape. The place is the backslash.
    BadEscape,
    /// A quoted text whose value has more than 4,096 bytes. It is met at the closing quote alone.
    TextLong,
    /// A comment that is not closed.
    CommentOpen,
}

impl TokenFaultKind {
    /// Its word in output.
    pub fn word(self) -> &'static str
        ensures { result.now ≡ fault_word self }
    {
        match self {
            TokenFaultKind::BadChar => "BadChar",
            TokenFaultKind::NameLong => "NameLong",
            TokenFaultKind::NumberLarge => "NumberLarge",
            TokenFaultKind::TextOpen => "TextOpen",
            TokenFaultKind::BadEscape => "BadEscape",
            TokenFaultKind::TextLong => "TextLong",
            TokenFaultKind::CommentOpen => "CommentOpen",
        }
    }
}

impl fmt::Display for TokenFaultKind {
    ghost output = { λ kind. Some (fault_word kind) };

    fn fmt<W: fmt::Write>(&self, f: &mut fmt::Formatter<W>) -> fmt::Result {
        let word = self.word();
        write!(f, "{word}")
    }
}

/// The first fault of a text's tokens, and its place: that of the quote, word, number, comment or character
/// that it is
/// about, but for `BadEscape`.
#[derive(Clone, Copy, PartialEq, Eq, Debug, Error)]
#[error("{kind}")]
pub struct TokenFault {
    pub pos: Pos,
    pub kind: TokenFaultKind,
}

/// Why the tokens of a text are not answered.
#[derive(Clone, Copy, PartialEq, Eq, Debug, Error)]
pub enum TokensError {
    #[error("{0}")]
    Fault(TokenFault),
    #[error("memory ran out")]
    NoMemory,
}

impl From<AllocError> for TokensError {
    ghost use Rattle.std.specs.Prelude.{◌≡◌};
    ghost use Rattle.module_token.specs.declared.fault.TokensError.TheVariants.{NoMemory as OutOfMemory};

    ghost from_gives = { λ _ e. e ≡ OutOfMemory };

    fn from(_: AllocError) -> TokensError {
        TokensError::NoMemory
    }
}

impl<T: Drop> From<AllocFailed<T>> for TokensError {
    ghost use Rattle.std.specs.Prelude.{◌≡◌};
    ghost use Rattle.module_token.specs.declared.fault.TokensError.TheVariants.{NoMemory as OutOfMemory};

    ghost from_gives = { λ _ e. e ≡ OutOfMemory };

    fn from(_: AllocFailed<T>) -> TokensError {
        TokensError::NoMemory
    }
}
