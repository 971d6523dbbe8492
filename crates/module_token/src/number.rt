//! Numbers.
ghost use Rattle.std.specs.Prelude.{◌≡◌, ◌<◌, ◌≤◌, true, length, slice_index};
ghost use Rattle.std.specs.Char.{is_ascii_digit};
ghost use Rattle.std.specs.List.{prefix_len};
ghost use Rattle.std.specs.Str.{all_ascii_digits};
ghost use Rattle.std.specs.Str.Parse.{digits_value};
ghost use Rattle.module_token.specs.Cut.{CutsAt};
ghost use Rattle.module_token.specs.Front.{number_cut, number_front};

use crate::fault::TokenFaultKind;
use crate::front::Front;
use crate::token::TokenKind;

/// The greatest number. It is no literal by itself, but behind a minus it is one.
pub const NUMBER_LIMIT: u64 = 9_223_372_036_854_775_808;

/// How many digits stand first.
fn digits_len(bytes: &[u8]) -> usize
    ensures len { result ≡ prefix_len is_ascii_digit bytes.now }
    ensures within { result ≤ length bytes.now }
{
    let mut len = 0;
    while len < bytes.len() && bytes[len].is_ascii_digit() {
        len += 1;
    }
    len
}

/// The number that `len` digits spell.
fn number_cut(len: usize, digits: &str) -> Front
    requires some { 0 < length digits.now }
    requires digits { all_ascii_digits digits.now ≡ true }
    ensures { result ≡ number_cut len (digits_value 10 digits.now) }
{
    match digits.parse::<u64>() {
        Ok(value) if value <= NUMBER_LIMIT => Front::Lexeme(len, TokenKind::Number(value)),
        _ => Front::Wrong(0, TokenFaultKind::NumberLarge),
    }
}

/// The number at the front of the text.
#[tactic(auto, using(crate::proofs::Digits::digits_cut, crate::proofs::Digits::digits_all, crate::proofs::Digits::number_cuts))]
pub fn number(text: &str) -> Front
    requires { is_ascii_digit (slice_index text.now 0) ≡ true }
    ensures value { result ≡ number_front text.now }
    ensures cut { CutsAt text.now result }
{
    let len = digits_len(text.as_bytes());
    let (digits, _) = text.split_at(len);
    number_cut(len, digits)
}
