//! A cursor over tokens of two kinds: words, and a bracket that opens. Two words may be counted.
ghost use Rattle.std.specs.Prelude.{true, false, cond, refl, [], ◌∷◌, map};

use crate::cursor::Cursor;
use crate::fault::{Fault, Refusal};
use crate::kinds::Kinds;
use crate::tokens::Tokens;
use std::test::Fail;

const WORD: bool = false;

const BRACKET: bool = true;

impl Kinds for bool {
    ghost alphabet = { record {
      class = λ b. cond b 1 0;
      kinds = false ∷ true ∷ [];
      is_listed = elim [ true ↦ refl | false ↦ refl ];
      opens = λ b. b;
      closes = λ b. false;
      most_open = 1;
      most_counted = 2;
    } };

    fn class(self) -> u8 {
        if self { 1 } else { 0 }
    }

    fn most_counted() -> u32 {
        2
    }
}

#[derive(Clone, Copy)]
struct Lexeme {
    place: u32,
    kind: bool,
    value: u64,
}

#[derive(Drop)]
struct Lexemes<'a> {
    rest: &'a [Lexeme],
}

impl<'a> Tokens for Lexemes<'a> {
    type Kind = bool;

    ghost left = { λ s. map (λ t. record { place = t.place; kind = t.kind; text = []; value = t.value })
        s.rest.now };

    fn kind(&self) -> Option<bool> {
        match self.rest {
            [] => None,
            [token, ..] => Some(token.kind),
        }
    }

    fn place_or(&self, end: u32) -> u32 {
        match self.rest {
            [] => end,
            [token, ..] => token.place,
        }
    }

    fn value(&self) -> u64 {
        match self.rest {
            [] => 0,
            [token, ..] => token.value,
        }
    }

    fn skip(&mut self) {
        if let [_, rest @ ..] = self.rest {
            self.rest = rest;
        }
    }
}

fn token(place: u32, kind: bool, value: u64) -> Lexeme {
    Lexeme { place, kind, value }
}

#[test]
fn steps(rt: HostRuntime) -> Result<(), Fail> {
    let tokens = [token(3, WORD, 0), token(5, BRACKET, 0), token(6, WORD, 12)];
    let mut cursor = Cursor::new(Lexemes { rest: &tokens }, 9);
    assert_eq!(rt; cursor.kind(), Some(WORD));
    assert_eq!(rt; cursor.take(BRACKET), Err(refused(3, Fault::Unexpected)));
    assert_eq!(rt; cursor.take(WORD), Ok(3));
    assert_eq!(rt; cursor.too_deep(BRACKET), refused(5, Fault::Deep));
    assert_eq!(rt; cursor.finish(), Err(refused(5, Fault::Unexpected)));
    assert_eq!(rt; cursor.take(BRACKET), Ok(5));
    assert!(rt; cursor.sees(WORD));
    assert_eq!(rt; cursor.value(), 12);
    assert_eq!(rt; cursor.tokens().place_or(9), 6);
    assert_eq!(rt; cursor.too_deep(BRACKET), refused(6, Fault::Unexpected));
    cursor.skip();
    assert_eq!(rt; cursor.place(), 9);
    assert_eq!(rt; cursor.value(), 0);
    assert_eq!(rt;
        cursor.counted_token(WORD),
        Err(refused(9, Fault::EndOfText))
    );
    assert_eq!(rt; cursor.finish(), Ok(()));
    let tokens = [
        token(0, WORD, 0),
        token(2, WORD, 0),
        token(4, WORD, 0),
        token(6, WORD, 0),
    ];
    let mut cursor = Cursor::new(Lexemes { rest: &tokens }, 7);
    assert_eq!(rt; cursor.counted_token(WORD), Ok(0));
    assert_eq!(rt; cursor.skip_counted(), Ok(()));
    assert_eq!(rt; cursor.skip_counted(), Err(refused(4, Fault::Large)));
    assert_eq!(rt; cursor.counted_token(WORD), Err(refused(4, Fault::Large)));
    cursor.restart();
    assert_eq!(rt; cursor.counted_token(WORD), Ok(4));
    Ok(())
}

fn refused(place: u32, fault: Fault) -> Refusal {
    Refusal { place, fault }
}
