//! Quoted texts.
ghost use Rattle.std.specs.Prelude.{◌≡◌, ◌+◌, ◌-◌, ◌<◌, length, slice_index, ◌^◌};
ghost use Rattle.hh_base.specs.Bytes.{quote};
ghost use Rattle.module_token.specs.Cut.{CutsAt};
ghost use Rattle.module_token.specs.Front.{quote_end, quoted_front};

use crate::fault::TokenFaultKind;
use crate::front::Front;
use crate::token::TokenKind;
use hh_base::literal::next_byte;
use hh_base::text::TEXT_LIMIT;

/// What ends a quoted text, so many bytes from its front, whose value has `len` bytes.
fn quote_end(before: usize, len: usize, rest: &[u8]) -> Front
    requires { before + length rest.now < 2 ^ 64 }
    ensures { result ≡ quote_end before len rest.now }
{
    match rest.split_first() {
        Some((b'"', _)) if len <= TEXT_LIMIT => Front::Lexeme(before + 1, TokenKind::Quoted),
        Some((b'"', _)) => Front::Wrong(0, TokenFaultKind::TextLong),
        Some((b'\\', others)) if !others.is_empty() => Front::Wrong(
            before,
            TokenFaultKind::BadEscape,
        ),
        _ => Front::Wrong(0, TokenFaultKind::TextOpen),
    }
}

/// The quoted text at the front of the text.
pub fn quoted(text: &str) -> Front
    requires { slice_index text.now 0 ≡ quote }
    ensures value { result ≡ quoted_front text.now }
    ensures cut { CutsAt text.now result }
{
    let bytes = text.as_bytes();
    let mut rest = &bytes[1..];
    let mut len = 0;
    while let Some((_, others)) = next_byte(rest) {
        len += 1;
        rest = others;
    }
    quote_end(bytes.len() - rest.len(), len, rest)
}
