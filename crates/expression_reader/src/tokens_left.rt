//! The tokens of a module text that are still to be read, with what is written there.
ghost use Rattle.std.specs.Prelude.{◌≡◌, true, All, IfOk};
ghost use Rattle.grammar.specs.Tokens.{kind_of, passes};
ghost use Rattle.grammar.specs.Parser.{text_of};
ghost use Rattle.expression_reader.specs.Cursor.{IsReadable, toks};
ghost use Rattle.expression_reader.specs.Rules.{is_quoted};
ghost use Rattle.expression_reader.specs.Terminals.{is_name};

use crate::terminal::Terminal;
use grammar::tokens::Tokens;
use hh_base::memory::NoMemory;
use hh_base::name::{Name, NameFault};
use hh_base::text::Text;
use module_token::token::{Token, TokenKind};
use module_token::tokens::{token_text, unquote};
use std::alloc::Global;
use std::marker::Model;

/// The tokens of a text that are still to be read. Contracts see them as the grammar does.
#[derive(Drop)]
pub(crate) struct TokensLeft<'a> {
    text: &'a str,
    rest: &'a [Token],
}

impl<'a> Model for TokensLeft<'a> {
    ghost use Rattle.std.specs.Prelude.{List};
    ghost use Rattle.grammar.specs.Tokens.{Tok};
    ghost use Rattle.expression_reader.specs.declared.terminal.Terminal.{Terminal as ATerminal};

    ghost Value = { List (Tok ATerminal) };

    ghost use Rattle.expression_reader.specs.Cursor.{left_of, AllReadable};

    ghost view = { left_of };

    ghost invariant = { AllReadable };
}

impl<'a> TokensLeft<'a> {
    pub(crate) fn new(text: &'a str, tokens: &'a [Token]) -> TokensLeft<'a>
        requires { All (IsReadable text.now) tokens.now }
        ensures { result ≡ toks text.now tokens.now }
    {
        TokensLeft { text, rest: tokens }
    }

    /// The name that the next token is.
    pub(crate) fn name(&self, alloc: Global) -> Result<Name, NoMemory>
        requires { passes is_name (kind_of self.now) ≡ true }
        ensures { IfOk result (λ n. n ≡ text_of self.now) }
    {
        match self.rest {
            [] => unreachable!(),
            [token, ..] => match Name::read(alloc, token_text(self.text, *token)) {
                Ok(name) => Ok(name),
                Err(NameFault::NoMemory) => Err(NoMemory),
                Err(NameFault::NotName | NameFault::NameLong) => unreachable!(),
            },
        }
    }

    /// The text between the quotes of the next token.
    pub(crate) fn quoted(&self, alloc: Global) -> Result<Text, NoMemory>
        requires { passes is_quoted (kind_of self.now) ≡ true }
        ensures { IfOk result (λ t. t ≡ text_of self.now) }
    {
        match self.rest {
            [] => unreachable!(),
            [token, ..] => match token.what {
                TokenKind::Quoted => unquote(alloc, self.text, *token),
                _ => unreachable!(),
            },
        }
    }
}

impl<'a> Tokens for TokensLeft<'a> {
    type Kind = Terminal;

    ghost left = { λ s. s };

    fn kind(&self) -> Option<Terminal> {
        match self.rest {
            [] => None,
            [token, ..] => Some(Terminal::of(token.what, token_text(self.text, *token))),
        }
    }

    fn place_or(&self, end: u32) -> u32 {
        match self.rest {
            [] => end,
            [token, ..] => token.start,
        }
    }

    fn value(&self) -> u64 {
        match self.rest {
            [] => 0,
            [token, ..] => match token.what {
                TokenKind::Number(value) => value,
                _ => 0,
            },
        }
    }

    fn skip(&mut self) {
        if let [_, rest @ ..] = self.rest {
            self.rest = rest;
        }
    }
}
