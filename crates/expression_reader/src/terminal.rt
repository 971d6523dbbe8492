//! What a token is to the grammar.
ghost use Rattle.std.specs.Prelude.{◌≡◌, ◌<◌};
ghost use Rattle.expression_reader.specs.Terminals as terminals;
ghost use Rattle.grammar.specs.Tokens.{is};

use grammar::kinds::Kinds;
use hh_base::keyword::Keyword;
use host_expr::expr::EXPRESSION_LIMIT;
use module_token::punct::Punct;
use module_token::token::TokenKind;

/// A terminal symbol of the grammar: what the reader looks at to choose a rule. The words from `Now` on have
/// a meaning behind `.` or `combine`, and are names elsewhere, as `Word` is.
#[derive(Clone, Copy, PartialEq, Eq, Debug)]
pub enum Terminal {
    Word,
    Now,
    Pre,
    NowVal,
    PreVal,
    Plus,
    Min,
    Max,
    And,
    Or,
    Number,
    Quoted,
    Keyword(Keyword),
    Punct(Punct),
}

#[tactic(auto, unfolding(crate::specs::Terminals::word))]
fn short_word(text: &str) -> Terminal
    ensures { result ≡ terminals.word text.now }
{
    match text {
        "now" => Terminal::Now,
        "pre" => Terminal::Pre,
        "nowval" => Terminal::NowVal,
        "preval" => Terminal::PreVal,
        "plus" => Terminal::Plus,
        "min" => Terminal::Min,
        "max" => Terminal::Max,
        "and" => Terminal::And,
        "or" => Terminal::Or,
        _ => Terminal::Word,
    }
}

/// Most names are told from these words by their length alone.
fn word(text: &str) -> Terminal
    ensures { result ≡ terminals.word text.now }
{
    match text.len() {
        2 | 3 | 4 | 6 => short_word(text),
        _ => Terminal::Word,
    }
}

fn keyword_number(keyword: Keyword) -> u8
    ensures number { result ≡ terminals.keyword_number keyword }
    ensures small { result < 39 }
{
    keyword as u8
}

fn punct_number(punct: Punct) -> u8
    ensures number { result ≡ terminals.punct_number punct }
    ensures small { result < 24 }
{
    punct as u8
}

impl Terminal {
    /// What a token of this kind and text is.
    pub fn of(what: TokenKind, text: &str) -> Terminal
        ensures { result ≡ terminals.terminal what text.now }
    {
        match what {
            TokenKind::Word => word(text),
            TokenKind::Keyword(keyword) => Terminal::Keyword(keyword),
            TokenKind::Number(_) => Terminal::Number,
            TokenKind::Quoted => Terminal::Quoted,
            TokenKind::Punct(punct) => Terminal::Punct(punct),
        }
    }

    /// Whether it may be a name.
    pub fn is_name(self) -> bool
        ensures { result ≡ terminals.is_name self }
    {
        match self {
            Terminal::Number | Terminal::Quoted | Terminal::Keyword(_) | Terminal::Punct(_) => {
                false
            }
            _ => true,
        }
    }

    /// Whether it is that one.
    pub fn is(self, other: Terminal) -> bool
        ensures { result ≡ is terminals.symbols other self }
    {
        self.class() == other.class()
    }
}

impl Kinds for Terminal {
    ghost alphabet = { terminals.symbols };

    fn class(self) -> u8 {
        match self {
            Terminal::Word => 0,
            Terminal::Now => 1,
            Terminal::Pre => 2,
            Terminal::NowVal => 3,
            Terminal::PreVal => 4,
            Terminal::Plus => 5,
            Terminal::Min => 6,
            Terminal::Max => 7,
            Terminal::And => 8,
            Terminal::Or => 9,
            Terminal::Number => 10,
            Terminal::Quoted => 11,
            Terminal::Keyword(keyword) => 12 + keyword_number(keyword),
            Terminal::Punct(punct) => 51 + punct_number(punct),
        }
    }

    fn most_counted() -> u32 {
        EXPRESSION_LIMIT
    }
}
