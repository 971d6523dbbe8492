//! Tokens as places in a text.

use crate::punct::Punct;
use hh_base::keyword::Keyword;

/// What a token is. A number has its value. What a quoted text stands for is read by `unquote`.
#[derive(Clone, Copy, PartialEq, Eq, Debug)]
pub enum TokenKind {
    Word,
    Keyword(Keyword),
    Number(u64),
    Quoted,
    Punct(Punct),
}

/// A token: the bytes of a text from `start` to before `end`.
#[derive(Clone, Copy, PartialEq, Eq, Debug)]
pub struct Token {
    pub start: u32,
    pub end: u32,
    pub what: TokenKind,
}
