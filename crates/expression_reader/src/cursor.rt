//! The tokens that are still to be read, and the steps that take one.
ghost use Rattle.std.specs.Prelude.{◌≡◌, ◌<◌, ◌≤◌, Some, true, [], All, IfOk, OnErr};
ghost use Rattle.grammar.specs.Fault.{Fault, Unexpected, OutOfRange};
ghost use Rattle.grammar.specs.Parser as parser;
ghost use Rattle.grammar.specs.Parser.{Reads};
ghost use Rattle.grammar.specs.Tokens.{is, in_range};
ghost use Rattle.expression_reader.specs.Cursor.{IsReadable, Shows, toks};
ghost use Rattle.expression_reader.specs.Reference as rule;
ghost use Rattle.expression_reader.specs.Refusals.{as_refusal};
ghost use Rattle.expression_reader.specs.Rules.{is_number, is_quoted, largest};
ghost use Rattle.expression_reader.specs.Terminals.{symbols, is_name, is_keyword, is_punct, is_in_round};
ghost use Rattle.expression_reader.specs.Terminals.{is_in_curly};

use crate::fault::StepError;
use crate::terminal::Terminal;
use crate::tokens_left::TokensLeft;
use grammar::cursor::Cursor;
use hh_base::keyword::Keyword;
use hh_base::name::Name;
use hh_base::text::Text;
use hh_base::value::Pos;
use module_token::punct::Punct;
use module_token::token::Token;
use module_tree::limits::COUNT_LIMIT;
use module_tree::source::NameAt;
use sqlite_items::{Boxed, Items};
use std::alloc::{AllocError, Global};
use std::marker::Model;

/// The largest integer: the largest number that an expression has.
pub const LARGEST: u64 = i64::MAX as u64;

/// A list that was read to its end. Most lists of a text are short, so none keeps places for more items.
pub fn whole_list<T>(items: Vec<T>) -> Items<T>
    ensures { result ≡ items.items }
{
    let mut items = items;
    items.shrink_to_fit();
    Items::from_vec(items)
}

/// A reader of the tokens of a text.
#[derive(Drop)]
pub struct Reader<'a> {
    pub(crate) alloc: Global,
    cursor: Cursor<TokensLeft<'a>>,
}

impl<'a> Model for Reader<'a> {
    ghost use Rattle.grammar.specs.Parser.{Unread};
    ghost use Rattle.expression_reader.specs.declared.terminal.Terminal.{Terminal as ATerminal};

    ghost Value = { Unread ATerminal };

    ghost view = { λ r. r.cursor };
}

impl<'a> Reader<'a> {
    /// A reader at the beginning of a text of so many bytes.
    pub fn new(alloc: Global, text: &'a str, tokens: &'a [Token], size: u32) -> Reader<'a>
        requires { All (IsReadable text.now) tokens.now }
        ensures { result ≡ parser.start (toks text.now tokens.now) size }
    {
        Reader {
            alloc,
            cursor: Cursor::new(TokensLeft::new(text, tokens), size),
        }
    }

    // ---- the next token

    /// Its terminal, None at the end.
    pub fn kind(&self) -> Option<Terminal>
        ensures { result ≡ parser.kind self.now }
    {
        self.cursor.kind()
    }

    /// Its place, that of the end where there is none.
    pub(crate) fn place(&self) -> u32
        ensures { result ≡ parser.place self.now }
    {
        self.cursor.place()
    }

    /// Whether the next token is this one.
    pub fn sees(&self, terminal: Terminal) -> bool
        ensures { result ≡ parser.sees (is symbols terminal) self.now }
    {
        self.cursor.sees(terminal)
    }

    /// Whether the next token is this keyword.
    pub fn sees_keyword(&self, keyword: Keyword) -> bool
        ensures { result ≡ parser.sees (is_keyword keyword) self.now }
    {
        self.sees(Terminal::Keyword(keyword))
    }

    /// Whether the next token is this mark.
    pub fn sees_punct(&self, punct: Punct) -> bool
        ensures { result ≡ parser.sees (is_punct punct) self.now }
    {
        self.sees(Terminal::Punct(punct))
    }

    /// Whether the next token may stand in a list that is not closed yet.
    #[tactic(auto, unfolding(grammar::specs::Parser::sees))]
    pub fn sees_in_round(&self) -> bool
        ensures { result ≡ parser.sees is_in_round self.now }
    {
        match self.kind() {
            None => false,
            Some(next) => !next.is(Terminal::Punct(Punct::RightParen)),
        }
    }

    /// Whether the next token may stand in a block that is not closed yet.
    #[tactic(auto, unfolding(grammar::specs::Parser::sees))]
    pub fn sees_in_curly(&self) -> bool
        ensures { result ≡ parser.sees is_in_curly self.now }
    {
        match self.kind() {
            None => false,
            Some(next) => !next.is(Terminal::Punct(Punct::RightBrace)),
        }
    }

    // ---- refusals

    /// The refusal of the next token, or of the end.
    pub(crate) fn refuse(&self) -> StepError
        ensures { as_refusal result ≡ Some (parser.refusal self.now) }
    {
        StepError::from(self.cursor.refusal())
    }

    /// Why this bracket cannot be opened where no bracket can.
    fn too_deep(&self, bracket: Punct) -> StepError
        ensures { as_refusal result ≡ Some (parser.too_deep symbols (Terminal.Punct bracket) self.now) }
    {
        StepError::from(self.cursor.too_deep(Terminal::Punct(bracket)))
    }

    // ---- one token

    /// Takes this token, and gives its place.
    pub fn take(&mut self, terminal: Terminal) -> Result<u32, StepError>
        ensures reads { Reads as_refusal (parser.take symbols terminal self.old) result self.new }
        ensures kept { OnErr result (self.new ≡ self.old) }
    {
        Ok(self.cursor.take(terminal)?)
    }

    /// Takes this keyword, and gives its place.
    pub fn keyword(&mut self, keyword: Keyword) -> Result<u32, StepError>
        ensures reads { Reads as_refusal (rule.keyword keyword self.old) result self.new }
        ensures kept { OnErr result (self.new ≡ self.old) }
    {
        self.take(Terminal::Keyword(keyword))
    }

    /// Takes this mark, and gives its place.
    pub fn punct(&mut self, punct: Punct) -> Result<u32, StepError>
        ensures reads { Reads as_refusal (rule.punct punct self.old) result self.new }
        ensures kept { OnErr result (self.new ≡ self.old) }
    {
        self.take(Terminal::Punct(punct))
    }

    /// Takes this bracket, where so many may still be opened. Gives its place, and how many may be opened
    /// behind it.
    #[tactic(auto, unfolding(grammar::specs::Parser::opening, grammar::specs::Parser::too_deep))]
    pub fn open(&mut self, bracket: Punct, room: u8) -> Result<(u32, u8), StepError>
        ensures reads { Reads as_refusal
            (parser.opening symbols room (Terminal.Punct bracket) self.old) result self.new }
        ensures kept { OnErr result (self.new ≡ self.old) }
        ensures less { IfOk result (λ opened. opened.1 < room) }
    {
        if room == 0 {
            return Err(self.too_deep(bracket));
        }
        let place = self.punct(bracket)?;
        Ok((place, room - 1))
    }

    #[tactic(auto, unfolding(grammar::specs::Parser::sees))]
    pub(crate) fn sees_name(&self) -> bool
        ensures { result ≡ parser.sees is_name self.now }
    {
        match self.kind() {
            None => false,
            Some(next) => next.is_name(),
        }
    }

    #[tactic(auto, unfolding(grammar::specs::Parser::sees))]
    pub(crate) fn sees_quoted(&self) -> bool
        ensures { result ≡ parser.sees is_quoted self.now }
    {
        match self.kind() {
            Some(Terminal::Quoted) => true,
            _ => false,
        }
    }

    #[tactic(auto, unfolding(grammar::specs::Parser::sees))]
    pub(crate) fn sees_number(&self) -> bool
        ensures { result ≡ parser.sees is_number self.now }
    {
        match self.kind() {
            Some(Terminal::Number) => true,
            _ => false,
        }
    }

    /// A name that is the next token, and its place. It is still to be taken.
    #[tactic(auto, unfolding(grammar::specs::Parser::name, grammar::specs::Parser::sees, grammar::specs::Parser::kind, grammar::specs::Parser::text, grammar::specs::Parser::refusal))]
    fn next_name(&self) -> Result<(u32, Name), StepError>
        ensures { Shows as_refusal (rule.name self.now) result self.now }
    {
        if !self.sees_name() {
            return Err(self.refuse());
        }
        let name = self.cursor.tokens().name(self.alloc)?;
        Ok((self.place(), name))
    }

    /// A quoted text that is the next token, and its place. It is still to be taken.
    #[tactic(auto, unfolding(grammar::specs::Parser::name, grammar::specs::Parser::sees, grammar::specs::Parser::kind, grammar::specs::Parser::text, grammar::specs::Parser::refusal))]
    fn next_quoted(&self) -> Result<(u32, Text), StepError>
        ensures { Shows as_refusal (rule.quoted self.now) result self.now }
    {
        if !self.sees_quoted() {
            return Err(self.refuse());
        }
        let text = self.cursor.tokens().quoted(self.alloc)?;
        Ok((self.place(), text))
    }

    /// A number that is the next token, between these two, and its place. It is still to be taken. Any other
    /// number is refused by `otherwise`, a fault at the next token.
    #[tactic(auto, unfolding(grammar::specs::Parser::ranged, grammar::specs::Parser::fail, grammar::specs::Parser::refusal))]
    fn next_number(
        &self,
        least: u64,
        most: u64,
        otherwise: StepError,
    ) -> Result<(u32, u64), StepError>
        ensures reads { (fault : Fault)
            → as_refusal otherwise ≡ Some (record { place = parser.place self.now; fault = fault })
            → Shows as_refusal (rule.number least most fault self.now) result self.now }
        ensures within { IfOk result (λ n. in_range least most n.1 ≡ true) }
    {
        if !self.sees_number() {
            return Err(self.refuse());
        }
        let value = self.cursor.value();
        if value < least || value > most {
            return Err(otherwise);
        }
        Ok((self.place(), value))
    }

    /// Takes a name, and gives its place too.
    pub fn name(&mut self) -> Result<(u32, Name), StepError>
        ensures reads { Reads as_refusal (rule.name self.old) result self.new }
        ensures kept { OnErr result (self.new ≡ self.old) }
    {
        let name = self.next_name()?;
        self.cursor.skip();
        Ok(name)
    }

    /// A name, as where it stands.
    pub fn name_at(&mut self) -> Result<NameAt<Name>, StepError>
        ensures reads { Reads as_refusal (rule.named self.old) result self.new }
        ensures kept { OnErr result (self.new ≡ self.old) }
    {
        let (pos, name) = self.name()?;
        Ok(NameAt {
            pos: Pos(pos),
            name,
        })
    }

    /// Takes a quoted text, and gives its place too.
    pub fn quoted(&mut self) -> Result<(u32, Text), StepError>
        ensures reads { Reads as_refusal (rule.quoted self.old) result self.new }
        ensures kept { OnErr result (self.new ≡ self.old) }
    {
        let text = self.next_quoted()?;
        self.cursor.skip();
        Ok(text)
    }

    /// Takes a number of at most this value, and gives its place too. Any other may not stand here.
    pub fn number_up_to(&mut self, most: u64) -> Result<(u32, u64), StepError>
        ensures reads { Reads as_refusal (rule.number 0 most Unexpected self.old) result self.new }
        ensures kept { OnErr result (self.new ≡ self.old) }
        ensures small { IfOk result (λ n. n.1 ≤ most) }
    {
        let not_here = StepError::Unexpected(self.place());
        let number = self.next_number(0, most, not_here)?;
        self.cursor.skip();
        Ok(number)
    }

    /// Takes how often something is waited for, and gives its place too.
    pub fn times(&mut self) -> Result<(u32, u8), StepError>
        ensures reads { Reads as_refusal (rule.how_often self.old) result self.new }
        ensures kept { OnErr result (self.new ≡ self.old) }
    {
        let out_of_range = StepError::BadCount(self.place());
        let (pos, times) = self.next_number(1, COUNT_LIMIT, out_of_range)?;
        self.cursor.skip();
        Ok((pos, times as u8))
    }

    // ---- leaves and operators

    /// An outermost expression counts its leaves and operators from 0.
    pub(crate) fn begin_outermost(&mut self)
        ensures { self.new ≡ record self.old { count = 0 } }
    {
        self.cursor.restart();
    }

    /// Takes this token, which is a leaf or an operator, and gives its place.
    pub(crate) fn counted_token(&mut self, terminal: Terminal) -> Result<u32, StepError>
        ensures reads { Reads as_refusal (parser.counted_token symbols terminal self.old) result self.new }
        ensures kept { OnErr result (self.new ≡ self.old) }
    {
        Ok(self.cursor.counted_token(terminal)?)
    }

    /// Takes a name that begins a leaf, and gives its place too.
    #[tactic(auto, unfolding(grammar::specs::Parser::counted, grammar::specs::Parser::skipped, grammar::specs::Parser::fail))]
    pub(crate) fn counted_name(&mut self) -> Result<(u32, Name), StepError>
        ensures reads { Reads as_refusal (parser.counted symbols rule.name self.old) result self.new }
        ensures kept { OnErr result (self.new ≡ self.old) }
    {
        let name = self.next_name()?;
        self.cursor.skip_counted()?;
        Ok(name)
    }

    /// Takes a quoted text that is a leaf, and gives its place too.
    #[tactic(auto, unfolding(grammar::specs::Parser::counted, grammar::specs::Parser::skipped, grammar::specs::Parser::fail))]
    pub(crate) fn counted_quoted(&mut self) -> Result<(u32, Text), StepError>
        ensures reads { Reads as_refusal (parser.counted symbols rule.quoted self.old) result self.new }
        ensures kept { OnErr result (self.new ≡ self.old) }
    {
        let text = self.next_quoted()?;
        self.cursor.skip_counted()?;
        Ok(text)
    }

    /// Takes a number that is a leaf, and gives its place too.
    #[tactic(auto, unfolding(grammar::specs::Parser::counted, grammar::specs::Parser::skipped, grammar::specs::Parser::fail))]
    pub(crate) fn counted_number(&mut self) -> Result<(u32, u64), StepError>
        ensures reads { Reads as_refusal (parser.counted symbols rule.leaf_number self.old) result self.new }
        ensures kept { OnErr result (self.new ≡ self.old) }
        ensures small { IfOk result (λ n. n.1 ≤ largest) }
    {
        let too_large = StepError::NumberLarge(self.place());
        let number = self.next_number(0, LARGEST, too_large)?;
        self.cursor.skip_counted()?;
        Ok(number)
    }

    // ---- what is made of tokens

    /// The list of nothing.
    pub fn empty_list<T: Drop>(&self) -> Items<T>
        ensures { result ≡ [] }
    {
        Items::new(self.alloc)
    }

    /// What is read of a list before its first item. It ends as `whole_list`.
    pub fn start_list<T: Drop>(&self) -> Vec<T>
        ensures { result.items ≡ [] }
    {
        Vec::new(self.alloc)
    }

    /// The value in a block of memory of its own.
    pub fn boxed<T: Drop>(&self, value: T) -> Result<Boxed<T>, AllocError>
        ensures { IfOk result (λ b. b ≡ value) }
    {
        Boxed::new(self.alloc, value)
    }

    // ---- the end

    /// Whether no token is left: the next one is refused.
    pub fn finish(&self) -> Result<(), StepError>
        ensures { Reads as_refusal (parser.finish self.now) result self.now }
    {
        Ok(self.cursor.finish()?)
    }
}
