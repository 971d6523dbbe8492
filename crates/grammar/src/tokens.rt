//! The tokens of a text.
ghost use Rattle.std.specs.Prelude.{◌≡◌, List};
ghost use Rattle.grammar.specs.Tokens.{Tok, kind_of, place_of};
ghost use Rattle.grammar.specs.Parser.{value_of, tail_of};

use crate::kinds::Kinds;

/// The tokens of a text that are still to be read.
pub trait Tokens: Drop {
    type Kind: Kinds;

    ghost left: { Self → List (Tok Self.Kind) };

    /// The kind of the next token, None at the end.
    fn kind(&self) -> Option<Self::Kind>
        ensures { result ≡ kind_of (left self.now) };

    /// The place of the next token, `end` at the end.
    fn place_or(&self, end: u32) -> u32
        ensures { result ≡ place_of end (left self.now) };

    /// The value of the next token where it is a number, 0 at the end.
    fn value(&self) -> u64
        ensures { result ≡ value_of (left self.now) };

    /// Goes behind the next token, if there is one.
    fn skip(&mut self)
        ensures { left self.new ≡ tail_of (left self.old) };
}
