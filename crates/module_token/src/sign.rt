//! Punctuation and comments.
ghost use Rattle.std.specs.Prelude.{◌≡◌, ◌<◌, ◌==◌, codes, length, drop, slice_index, IfSome};
ghost use Rattle.std.specs.List.{position_or_len};
ghost use Rattle.std.specs.Str.{IsCharBoundary};
ghost use Rattle.hh_base.specs.Bytes.{line_feed};
ghost use Rattle.module_token.specs.Bytes.{byte};
ghost use Rattle.module_token.specs.Cut.{CutsAt};
ghost use Rattle.module_token.specs.Front.{close_of, comment_found, long_mark, pair_front, short_found};
ghost use Rattle.module_token.specs.Front.{short_mark, sign_front};

use crate::fault::TokenFaultKind;
use crate::front::Front;
use crate::punct::Punct;
use crate::token::TokenKind;

/// The mark of one character.
fn short_mark(byte: u8) -> Option<Punct>
    ensures { result ≡ short_mark byte }
{
    match byte {
        b'(' => Some(Punct::LeftParen),
        b')' => Some(Punct::RightParen),
        b'{' => Some(Punct::LeftBrace),
        b'}' => Some(Punct::RightBrace),
        b',' => Some(Punct::Comma),
        b';' => Some(Punct::Semicolon),
        b':' => Some(Punct::Colon),
        b'.' => Some(Punct::Dot),
        b'=' => Some(Punct::Equal),
        b'?' => Some(Punct::Question),
        b'+' => Some(Punct::Plus),
        b'-' => Some(Punct::Minus),
        b'*' => Some(Punct::Star),
        b'/' => Some(Punct::Slash),
        b'%' => Some(Punct::Percent),
        b'!' => Some(Punct::Not),
        b'<' => Some(Punct::Less),
        b'>' => Some(Punct::Greater),
        _ => None,
    }
}

/// The mark of two characters.
fn long_mark(first: u8, second: u8) -> Option<Punct>
    ensures { result ≡ long_mark first second }
{
    match (first, second) {
        (b'=', b'=') => Some(Punct::EqualEqual),
        (b'!', b'=') => Some(Punct::NotEqual),
        (b'<', b'=') => Some(Punct::LessEqual),
        (b'>', b'=') => Some(Punct::GreaterEqual),
        (b'&', b'&') => Some(Punct::And),
        (b'|', b'|') => Some(Punct::Or),
        _ => None,
    }
}

/// How many bytes stand before the first LF, or before the end.
#[tactic(auto, using(crate::proofs::Lines::line_found, crate::proofs::Lines::line_none))]
fn line_len(text: &str) -> usize
    ensures len { result ≡ position_or_len (λ c. c == line_feed) text.now }
    ensures cut { IsCharBoundary text.now result }
{
    match text.find('\n') {
        Some(len) => len,
        None => text.len(),
    }
}

/// How many bytes stand up to the end of the first `*/`.
#[tactic(auto, using(crate::proofs::Lines::close_found, crate::proofs::Lines::close_none))]
fn close_of(body: &str) -> Option<usize>
    ensures len { result ≡ close_of body.now }
    ensures cut { IfSome result (λ n. IsCharBoundary body.now n) }
{
    match body.split_once("*/") {
        Some((inside, _)) => Some(inside.len() + 2),
        None => None,
    }
}

/// The comment with an end at the front of the text.
#[tactic(auto, using(crate::proofs::Cuts::after_two))]
fn comment(text: &str) -> Front
    requires both { 1 < length text.now }
    requires second { slice_index text.now 1 ≡ byte (codes "*") }
    ensures value { result ≡ comment_found (close_of (drop 2 text.now)) }
    ensures cut { CutsAt text.now result }
{
    let (_, body) = text.split_at(2);
    match close_of(body) {
        Some(len) => Front::Gap(len + 2),
        None => Front::Wrong(0, TokenFaultKind::CommentOpen),
    }
}

/// What one character begins at the front of the text.
#[tactic(auto, using(crate::proofs::Cuts::short_cut))]
fn single(first: u8, text: &str) -> Front
    requires some { 0 < length text.now }
    requires first { slice_index text.now 0 ≡ first }
    ensures value { result ≡ short_found (short_mark first) }
    ensures cut { CutsAt text.now result }
{
    match short_mark(first) {
        Some(mark) => Front::Lexeme(1, TokenKind::Punct(mark)),
        None => Front::Wrong(0, TokenFaultKind::BadChar),
    }
}

/// What two characters begin at the front of the text.
#[tactic(auto, using(crate::proofs::Cuts::long_cut))]
fn pair(first: u8, second: u8, text: &str) -> Front
    requires first { slice_index text.now 0 ≡ first }
    requires second { slice_index text.now 1 ≡ second }
    requires both { 1 < length text.now }
    ensures value { result ≡ pair_front first second text.now }
    ensures cut { CutsAt text.now result }
{
    if first == b'/' && second == b'/' {
        return Front::Gap(line_len(text));
    }
    if first == b'/' && second == b'*' {
        return comment(text);
    }
    match long_mark(first, second) {
        Some(mark) => Front::Lexeme(2, TokenKind::Punct(mark)),
        None => single(first, text),
    }
}

/// The punctuation or the comment at the front of the text.
pub fn sign(text: &str) -> Front
    requires { 0 < length text.now }
    ensures value { result ≡ sign_front text.now }
    ensures cut { CutsAt text.now result }
{
    let bytes = text.as_bytes();
    if bytes.len() > 1 {
        return pair(bytes[0], bytes[1], text);
    }
    single(bytes[0], text)
}
