//! What stands at the front of a text.
ghost use Rattle.std.specs.Prelude.{◌≡◌};
ghost use Rattle.module_token.specs.Cut.{CutsAt};
ghost use Rattle.module_token.specs.Front.{front_of};
ghost use Rattle.module_token.specs.Gap.{is_blank};

use crate::fault::TokenFaultKind;
use crate::number::number;
use crate::quoted::quoted;
use crate::sign::sign;
use crate::token::TokenKind;
use crate::word::word;
use hh_base::name::starts_word;

/// What stands at the front: nothing, a gap or a token of so many bytes, or a fault so many bytes on.
#[derive(Clone, Copy, PartialEq, Eq, Debug)]
pub enum Front {
    End,
    Gap(usize),
    Lexeme(usize, TokenKind),
    Wrong(usize, TokenFaultKind),
}

fn is_blank(letter: char) -> bool
    ensures { result ≡ is_blank letter }
{
    matches!(letter, ' ' | '\t' | '\n' | '\r')
}

/// What stands at the front of the text.
#[tactic(auto, unfolding(crate::specs::Front::front_of))]
pub fn read_front(text: &str) -> Front
    ensures value { result ≡ front_of text.now }
    ensures cut { CutsAt text.now result }
{
    let Some(first) = text.chars().next() else {
        return Front::End;
    };
    if is_blank(first) {
        return Front::Gap(1);
    }
    if first.is_ascii_digit() {
        return number(text);
    }
    if first == '"' {
        return quoted(text);
    }
    if starts_word(first) {
        return word(text);
    }
    sign(text)
}
