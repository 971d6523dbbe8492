//! A cursor over the tokens of a text, and the steps that take one.
ghost use Rattle.std.specs.Prelude.{◌≡◌, OnErr};
ghost use Rattle.grammar.specs.Tokens.{is};
ghost use Rattle.grammar.specs.Parser as parser;
ghost use Rattle.grammar.specs.Parser.{Reads};
ghost use Rattle.grammar.specs.Refusals.{fault_of, refusal_of, as_refusal};

use crate::fault::{Fault, Refusal};
use crate::kinds::Kinds;
use crate::tokens::Tokens;
use std::marker::Model;

/// A cursor over the tokens of a text. Contracts see what a reader reads from: the tokens that are left,
/// how many
/// leaves and operators of the outermost expression were taken, and the size of the text in bytes.
#[derive(Drop)]
pub struct Cursor<T: Tokens> {
    tokens: T,
    count: u32,
    size: u32,
}

impl<T: Tokens> Model for Cursor<T> {
    ghost use Rattle.grammar.specs.Parser.{Unread};

    ghost Value = { Unread T.Kind };

    ghost view = { λ c. record { rest = T.left c.tokens; count = c.count; size = c.size } };
}

impl<T: Tokens> Cursor<T> {
    /// A cursor at the beginning of a text of so many bytes.
    pub fn new(tokens: T, size: u32) -> Cursor<T>
        ensures { result ≡ parser.start (T.left tokens) size }
    {
        Cursor {
            tokens,
            count: 0,
            size,
        }
    }

    /// The tokens that are left.
    pub fn tokens(&self) -> &T
        ensures { T.left result.now ≡ self.now.rest }
    {
        &self.tokens
    }

    // ---- the next token

    /// Its kind, None at the end.
    #[tactic(auto, unfolding(crate::specs::Parser::kind))]
    pub fn kind(&self) -> Option<T::Kind>
        ensures { result ≡ parser.kind self.now }
    {
        self.tokens.kind()
    }

    /// Its place, the size of the text at the end.
    #[tactic(auto, unfolding(crate::specs::Parser::place))]
    pub fn place(&self) -> u32
        ensures { result ≡ parser.place self.now }
    {
        self.tokens.place_or(self.size)
    }

    /// Its value, 0 at the end.
    #[tactic(auto, unfolding(crate::specs::Parser::value))]
    pub fn value(&self) -> u64
        ensures { result ≡ parser.value self.now }
    {
        self.tokens.value()
    }

    /// Whether it is of this kind.
    #[tactic(auto, unfolding(crate::specs::Parser::sees))]
    pub fn sees(&self, kind: T::Kind) -> bool
        ensures { result ≡ parser.sees (is T.Kind.alphabet kind) self.now }
    {
        match self.kind() {
            None => false,
            Some(next) => next.class() == kind.class(),
        }
    }

    // ---- refusals

    /// The refusal of the next token, or of the end.
    #[tactic(auto, unfolding(crate::specs::Parser::refusal))]
    pub fn refusal(&self) -> Refusal
        ensures { refusal_of result ≡ parser.refusal self.now }
    {
        match self.kind() {
            None => self.fails(Fault::EndOfText),
            Some(_) => self.fails(Fault::Unexpected),
        }
    }

    /// This fault at the next token.
    pub fn fails(&self, fault: Fault) -> Refusal
        ensures { refusal_of result ≡ record { place = parser.place self.now; fault = fault_of fault } }
    {
        Refusal {
            place: self.place(),
            fault,
        }
    }

    /// Why no bracket of this kind can be opened.
    #[tactic(auto, unfolding(crate::specs::Parser::too_deep, crate::specs::Parser::refusal))]
    pub fn too_deep(&self, bracket: T::Kind) -> Refusal
        ensures { refusal_of result ≡ parser.too_deep T.Kind.alphabet bracket self.now }
    {
        if self.sees(bracket) {
            self.fails(Fault::Deep)
        } else {
            self.refusal()
        }
    }

    // ---- steps

    /// Goes behind the next token, if there is one.
    #[tactic(auto, unfolding(crate::specs::Parser::next))]
    pub fn skip(&mut self)
        ensures { self.new ≡ parser.next self.old }
    {
        self.tokens.skip();
    }

    /// Counts leaves and operators from 0, before an outermost expression.
    pub fn restart(&mut self)
        ensures { self.new ≡ record self.old { count = 0 } }
    {
        self.count = 0;
    }

    /// Takes a token of this kind, and gives its place.
    ///
    /// # Errors
    /// `Unexpected` at another token, `EndOfText` at the end.
    #[tactic(auto, unfolding(crate::specs::Parser::take, crate::specs::Parser::refusal))]
    pub fn take(&mut self, kind: T::Kind) -> Result<u32, Refusal>
        ensures reads { Reads as_refusal (parser.take T.Kind.alphabet kind self.old) result self.new }
        ensures kept { OnErr result (self.new ≡ self.old) }
    {
        let place = self.place();
        if self.sees(kind) {
            self.skip();
            Ok(place)
        } else {
            Err(self.refusal())
        }
    }

    /// Takes the next token, which is a leaf or an operator.
    ///
    /// # Errors
    /// `Large` where no more may be counted.
    #[tactic(auto, unfolding(crate::specs::Parser::counted, crate::specs::Parser::skipped, crate::specs::Parser::fail, crate::specs::Parser::next))]
    pub fn skip_counted(&mut self) -> Result<(), Refusal>
        ensures reads { Reads as_refusal
            (parser.counted T.Kind.alphabet parser.skipped self.old) result self.new }
        ensures kept { OnErr result (self.new ≡ self.old) }
    {
        if self.count >= T::Kind::most_counted() {
            return Err(self.fails(Fault::Large));
        }
        self.count += 1;
        self.skip();
        Ok(())
    }

    /// Takes a token of this kind, which is a leaf or an operator, and gives its place.
    ///
    /// # Errors
    /// `Unexpected` at another token, `EndOfText` at the end, `Large` where no more may be counted.
    #[tactic(auto, unfolding(crate::specs::Parser::counted_token, crate::specs::Parser::take, crate::specs::Parser::refusal, crate::specs::Parser::counted, crate::specs::Parser::skipped, crate::specs::Parser::fail, crate::specs::Parser::next))]
    pub fn counted_token(&mut self, kind: T::Kind) -> Result<u32, Refusal>
        ensures reads { Reads as_refusal
            (parser.counted_token T.Kind.alphabet kind self.old) result self.new }
        ensures kept { OnErr result (self.new ≡ self.old) }
    {
        let place = self.place();
        if !self.sees(kind) {
            return Err(self.refusal());
        }
        self.skip_counted()?;
        Ok(place)
    }

    /// That nothing is left.
    ///
    /// # Errors
    /// `Unexpected` at the next token, where there is one.
    #[tactic(auto, unfolding(crate::specs::Parser::finish, crate::specs::Parser::refusal))]
    pub fn finish(&self) -> Result<(), Refusal>
        ensures { Reads as_refusal (parser.finish self.now) result self.now }
    {
        match self.kind() {
            None => Ok(()),
            Some(_) => Err(self.refusal()),
        }
    }
}
