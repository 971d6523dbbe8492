//! The tokens of a text.
ghost use Rattle.std.specs.Prelude.{◌≡◌, ◌<◌, ◌^◌, ◌⊎◌, ℕ, List, All, length, slice_range, IfOk, IsErrOf};
ghost use Rattle.std.specs.Prelude.{MatchResult};
ghost use Rattle.hh_base.specs.Literal.{quoted};
ghost use Rattle.hh_base.specs.Text.{IsText};
ghost use Rattle.hh_base.specs.declared.value.Value.TheVariants as value_kind;
ghost use Rattle.module_token.specs.Place.{InText, Rising, toks};
ghost use Rattle.module_token.specs.Value.{quoted_value};
ghost use Rattle.module_token.specs.Tokens.{FirstTokenFault, TextToken, HasTokens};
ghost use Rattle.module_token.specs.declared.token.TokenKind.TheVariants as token_kind;
ghost use Rattle.module_token.specs.declared.fault.TokenFault.{TokenFault as AFault};

use crate::fault::{TokenFault, TokensError};
use crate::front::{Front, read_front};
use crate::token::Token;
use hh_base::literal::read_literal;
use hh_base::memory::NoMemory;
use hh_base::text::Text;
use hh_base::value::{Pos, Value};
use std::alloc::Global;

/// The bytes of a token of the text, as they stand there.
pub fn token_text(text: &str, token: Token) -> &str
    requires { InText text.now token }
    ensures { result.now ≡ slice_range text.now token.start token.«end» }
{
    &text[token.start as usize..token.end as usize]
}

fn into_text(value: Value) -> Text
    requires { (t : List ℕ) × (value ≡ value_kind.Text t) }
    ensures { value ≡ value_kind.Text result }
{
    match value {
        Value::Text(text) => text,
        _ => unreachable!(),
    }
}

/// What a quoted text of the text stands for, its escapes replaced.
pub fn unquote(alloc: Global, text: &str, token: Token) -> Result<Text, NoMemory>
    requires in_text { InText text.now token }
    requires quoted { token.what ≡ token_kind.Quoted }
    ensures value { IfOk result (λ t. t ≡ quoted_value (slice_range text.now token.start token.«end»)) }
    ensures spelled { IfOk result (λ t. IsText t × (slice_range text.now token.start token.«end» ≡ quoted
        t)) }
{
    match read_literal(alloc, token_text(text, token)) {
        Ok(value) => Ok(into_text(value)),
        Err(_) => Err(NoMemory),
    }
}

/// The tokens of a text of fewer than 2^32 bytes, in order, with places in bytes. An error is the first
/// place where the text has neither a blank or comment nor a token, and what is wrong there; or memory
/// ran out. Takes time in proportion to the text, and copies none of it.
pub fn tokens(alloc: Global, text: &str) -> Result<Vec<Token>, TokensError>
    requires { length text.now < 2 ^ 32 }
    ensures found { IfOk result (λ ts. HasTokens text.now (toks text.now ts.items)) }
    ensures only { (ts : List TextToken) → HasTokens text.now ts
        → MatchResult result (λ found. toks text.now found.items ≡ ts) (λ e. e ≡ TokensError.NoMemory) }
    ensures fault { (f : AFault) → IsErrOf result (TokensError.Fault f) → FirstTokenFault text.now f }
    ensures refused { (f : AFault) → FirstTokenFault text.now f
        → MatchResult result (λ ts. ⊥) (λ e. (e ≡ TokensError.Fault f) ⊎ (e ≡ TokensError.NoMemory)) }
    ensures in_text { IfOk result (λ ts. All (InText text.now) ts.items) }
    ensures rising { IfOk result (λ ts. Rising 0 ts.items (length text.now)) }
{
    let mut tokens = Vec::new(alloc);
    let mut at = 0;
    loop {
        let (_, rest) = text.split_at(at);
        match read_front(rest) {
            Front::End => return Ok(tokens),
            Front::Gap(len) => at += len,
            Front::Lexeme(len, what) => {
                let start = at as u32;
                at += len;
                let end = at as u32;
                tokens.push(Token { start, end, what })?;
            }
            Front::Wrong(len, kind) => {
                let pos = Pos((at + len) as u32);
                return Err(TokensError::Fault(TokenFault { pos, kind }));
            }
        }
    }
}
