//! Why a text is not read.
ghost use Rattle.std.specs.Prelude.{◌≡◌, Some};
ghost use Rattle.module_reader.specs.FaultWord.{grammar_fault_word, read_fault_word};
ghost use Rattle.module_reader.specs.Refusals as refusals;

use expression_reader::fault::StepError;
use hh_base::value::Pos;
use module_token::fault::TokenFault;
use std::fmt;
use thiserror::Error;

/// What is wrong at a token, or at the end of the text, in the order in which two faults at one token are
/// answered.
#[derive(Clone, Copy, PartialEq, Eq, Debug)]
pub enum GrammarFaultKind {
    /// 2^63 as a leaf of an expression.
    NumberLarge,
    /// A token that may not stand there.
    Unexpected,
    /// The text ends within a module, a body or a host. The place is the length of the text.
    EndOfText,
    /// A bracket where no more may be opened.
    DeepNesting,
    /// A leaf or operator more than an outermost expression may have.
    ExprLarge,
    /// A number of `count` that is out of its range.
    BadCount,
}

impl GrammarFaultKind {
    /// Its word in output.
    pub fn word(self) -> &'static str
        ensures { result.now ≡ grammar_fault_word self }
    {
        match self {
            GrammarFaultKind::NumberLarge => "NumberLarge",
            GrammarFaultKind::Unexpected => "Unexpected",
            GrammarFaultKind::EndOfText => "EndOfText",
            GrammarFaultKind::DeepNesting => "DeepNesting",
            GrammarFaultKind::ExprLarge => "ExprLarge",
            GrammarFaultKind::BadCount => "BadCount",
        }
    }
}

/// The first fault of the grammar in a text's tokens, and its place.
#[derive(Clone, Copy, PartialEq, Eq, Debug)]
pub struct GrammarFault {
    pub pos: Pos,
    pub kind: GrammarFaultKind,
}

/// Why a text is not read. Faults of tokens come before those of the grammar, and that it has no module, last.
#[derive(Clone, Copy, PartialEq, Eq, Debug)]
pub enum ReadFault {
    Token(TokenFault),
    Grammar(GrammarFault),
    NoModule,
    NoMemory,
}

impl ReadFault {
    /// The word of its kind in output.
    pub fn word(self) -> &'static str
        ensures { result.now ≡ read_fault_word self }
    {
        match self {
            ReadFault::Token(fault) => fault.kind.word(),
            ReadFault::Grammar(fault) => fault.kind.word(),
            ReadFault::NoModule => "NoModule",
            ReadFault::NoMemory => "NoMemory",
        }
    }

    /// The number of bytes before it: 0 where the text has no module, and where memory ran out.
    pub fn place(self) -> u32
        ensures { result ≡ refusals.place_of self }
    {
        match self {
            ReadFault::Token(fault) => fault.pos.0,
            ReadFault::Grammar(fault) => fault.pos.0,
            ReadFault::NoModule | ReadFault::NoMemory => 0,
        }
    }
}

impl fmt::Display for ReadFault {
    ghost output = { λ fault. Some (read_fault_word fault) };

    fn fmt<W: fmt::Write>(&self, f: &mut fmt::Formatter<W>) -> fmt::Result {
        let word = self.word();
        write!(f, "{word}")
    }
}

impl std::error::Error for ReadFault {}

fn grammar_fault(place: u32, kind: GrammarFaultKind) -> ReadFault
    ensures { result ≡ refusals.grammar_fault place kind }
{
    ReadFault::Grammar(GrammarFault {
        pos: Pos(place),
        kind,
    })
}

/// What the reader's step refuses, as a fault of the text.
pub(crate) fn as_fault(error: StepError) -> ReadFault
    ensures { result ≡ refusals.as_fault error }
{
    match error {
        StepError::Unexpected(place) => grammar_fault(place, GrammarFaultKind::Unexpected),
        StepError::EndOfText(place) => grammar_fault(place, GrammarFaultKind::EndOfText),
        StepError::DeepNesting(place) => grammar_fault(place, GrammarFaultKind::DeepNesting),
        StepError::ExprLarge(place) => grammar_fault(place, GrammarFaultKind::ExprLarge),
        StepError::NumberLarge(place) => grammar_fault(place, GrammarFaultKind::NumberLarge),
        StepError::BadCount(place) => grammar_fault(place, GrammarFaultKind::BadCount),
        StepError::NoMemory => ReadFault::NoMemory,
    }
}
