//! Texts with their tokens, and texts with their first fault.

use hh_base::keyword::Keyword;
use module_token::fault::{TokenFaultKind, TokensError};
use module_token::punct::Punct;
use module_token::token::{Token, TokenKind};
use module_token::tokens::{token_text, tokens, unquote};
use std::alloc::Global;
use std::test::Fail;

/// Texts, and what is written at each of their tokens.
const SPLITS: [(&str, &[&str]); 26] = [
    ("", &[]),
    (" \t\r\n", &[]),
    ("//", &[]),
    ("// a", &[]),
    ("//\r", &[]),
    ("/**/", &[]),
    ("/***/", &[]),
    ("/*/ */", &[]),
    ("/* /* */", &[]),
    ("/* // */", &[]),
    ("// /*", &[]),
    ("/*\n*//**/", &[]),
    ("//\r\nx", &["x"]),
    ("//*\nx", &["x"]),
    ("/* é */x", &["x"]),
    ("a/**/b", &["a", "b"]),
    ("a//b\nc", &["a", "c"]),
    ("/* /* */ */", &["*", "/"]),
    ("/ /a*/", &["/", "/", "a", "*", "/"]),
    ("a.now", &["a", ".", "now"]),
    ("é-b", &["é", "-", "b"]),
    ("-1_", &["-", "1", "_"]),
    ("=>===", &["=", ">=", "=="]),
    ("!!=", &["!", "!="]),
    ("< =", &["<", "="]),
    ("in\"a\\\"b\"in", &["in", "\"a\\\"b\"", "in"]),
];

/// Texts of one token.
const ONES: [(&str, TokenKind); 46] = [
    ("_1", TokenKind::Word),
    ("a9", TokenKind::Word),
    ("größe", TokenKind::Word),
    ("a\u{301}", TokenKind::Word),
    ("\u{4e00}\u{4e8c}", TokenKind::Word),
    ("modul", TokenKind::Word),
    ("in_", TokenKind::Word),
    ("weakAbort", TokenKind::Word),
    ("now", TokenKind::Word),
    ("unit", TokenKind::Word),
    ("module", TokenKind::Keyword(Keyword::Module)),
    ("weakabort", TokenKind::Keyword(Keyword::WeakAbort)),
    ("false", TokenKind::Keyword(Keyword::False)),
    ("0", TokenKind::Number(0)),
    ("007", TokenKind::Number(7)),
    (
        "9223372036854775807",
        TokenKind::Number(9_223_372_036_854_775_807),
    ),
    (
        "00000009223372036854775808",
        TokenKind::Number(9_223_372_036_854_775_808),
    ),
    ("\"\"", TokenKind::Quoted),
    ("\"tea\"", TokenKind::Quoted),
    ("\"\\\"\\\\\\n\\t\"", TokenKind::Quoted),
    ("\"é \u{7f}\u{1f600}\"", TokenKind::Quoted),
    ("\"// /* '\"", TokenKind::Quoted),
    ("(", TokenKind::Punct(Punct::LeftParen)),
    (")", TokenKind::Punct(Punct::RightParen)),
    ("{", TokenKind::Punct(Punct::LeftBrace)),
    ("}", TokenKind::Punct(Punct::RightBrace)),
    (",", TokenKind::Punct(Punct::Comma)),
    (";", TokenKind::Punct(Punct::Semicolon)),
    (":", TokenKind::Punct(Punct::Colon)),
    (".", TokenKind::Punct(Punct::Dot)),
    ("=", TokenKind::Punct(Punct::Equal)),
    ("?", TokenKind::Punct(Punct::Question)),
    ("+", TokenKind::Punct(Punct::Plus)),
    ("-", TokenKind::Punct(Punct::Minus)),
    ("*", TokenKind::Punct(Punct::Star)),
    ("/", TokenKind::Punct(Punct::Slash)),
    ("%", TokenKind::Punct(Punct::Percent)),
    ("!", TokenKind::Punct(Punct::Not)),
    ("<", TokenKind::Punct(Punct::Less)),
    (">", TokenKind::Punct(Punct::Greater)),
    ("==", TokenKind::Punct(Punct::EqualEqual)),
    ("!=", TokenKind::Punct(Punct::NotEqual)),
    ("<=", TokenKind::Punct(Punct::LessEqual)),
    (">=", TokenKind::Punct(Punct::GreaterEqual)),
    ("&&", TokenKind::Punct(Punct::And)),
    ("||", TokenKind::Punct(Punct::Or)),
];

/// Texts, and the word and place of their first fault.
const FAULTS: [(&str, &str, u32); 56] = [
    ("/*/", "CommentOpen", 0),
    ("/*", "CommentOpen", 0),
    ("/**", "CommentOpen", 0),
    ("x /* *", "CommentOpen", 2),
    ("/**/é/*", "CommentOpen", 6),
    ("/* \" @", "CommentOpen", 0),
    ("9223372036854775809", "NumberLarge", 0),
    ("18446744073709551616", "NumberLarge", 0),
    ("99999999999999999999999999", "NumberLarge", 0),
    ("9223372036854775809a", "NumberLarge", 0),
    ("1 9223372036854775809", "NumberLarge", 2),
    ("9223372036854775809 @", "NumberLarge", 0),
    ("\"", "TextOpen", 0),
    ("\"a", "TextOpen", 0),
    ("\"a\t\"", "TextOpen", 0),
    ("\"a\n\"", "TextOpen", 0),
    ("\"\u{0}\"", "TextOpen", 0),
    ("\"\u{1f}\"", "TextOpen", 0),
    ("\"a\\", "TextOpen", 0),
    ("\"\\\"", "TextOpen", 0),
    ("\"a\"b\"", "TextOpen", 4),
    ("\"/* @", "TextOpen", 0),
    ("\"a\\\n\"", "BadEscape", 2),
    ("\"\\x\"", "BadEscape", 1),
    ("\"é\\é\"", "BadEscape", 3),
    ("a \"\\\\\\0", "BadEscape", 5),
    ("\"\\r\u{1}", "BadEscape", 1),
    ("in A, \"\\x\" /*", "BadEscape", 7),
    ("@ 9223372036854775809", "BadChar", 0),
    ("// @\n\u{ad}", "BadChar", 5),
    ("&", "BadChar", 0),
    ("|", "BadChar", 0),
    ("&|", "BadChar", 0),
    ("&&&", "BadChar", 2),
    ("||\n|", "BadChar", 3),
    ("a&b", "BadChar", 1),
    ("@", "BadChar", 0),
    ("$", "BadChar", 0),
    ("#", "BadChar", 0),
    ("'", "BadChar", 0),
    ("`", "BadChar", 0),
    ("^", "BadChar", 0),
    ("~", "BadChar", 0),
    ("[", "BadChar", 0),
    ("]", "BadChar", 0),
    ("\\", "BadChar", 0),
    ("\u{0}", "BadChar", 0),
    ("\u{b}", "BadChar", 0),
    ("\u{7f}", "BadChar", 0),
    ("\u{ad}", "BadChar", 0),
    ("a\u{ad}", "BadChar", 1),
    ("\u{feff}module", "BadChar", 0),
    ("é\u{1f600}", "BadChar", 2),
    ("\u{a0}", "BadChar", 0),
    ("\u{2028}", "BadChar", 0),
    ("\u{301}", "BadChar", 0),
];

/// Texts of a front, of a piece so many times, and of a back, and the word and place of their first fault.
const LONG: [(&str, &str, u32, &str, &str, u32); 13] = [
    ("", "a", 255, "", "", 0),
    ("", "é", 127, "a", "", 0),
    (" ", "a", 256, "", "NameLong", 1),
    ("", "é", 128, "", "NameLong", 0),
    ("\"", "a", 4096, "\"", "", 0),
    ("\"", "\\n", 4096, "\"", "", 0),
    ("\"", "é", 2048, "\"", "", 0),
    (" \"", "a", 4097, "\"", "TextLong", 1),
    (" \"", "\\\"", 4097, "\"", "TextLong", 1),
    (" \"", "é", 2048, "a\"", "TextLong", 1),
    (" \"", "a", 4097, "\n\"", "TextOpen", 1),
    (" \"", "a", 4097, "", "TextOpen", 1),
    (" \"", "a", 4097, "\\a\"", "BadEscape", 4099),
];

/// The tokens of a text of at most a million bytes.
fn read(alloc: Global, text: &str) -> Result<Vec<Token>, TokensError> {
    if text.len() > 1_000_000 {
        return Err(TokensError::NoMemory);
    }
    tokens(alloc, text)
}

/// Whether the text is one token, which is that.
fn is_one(alloc: Global, text: &str, what: TokenKind) -> Result<bool, Fail> {
    let found = read(alloc, text)?;
    let whole = Token {
        start: 0,
        end: u32::try_from(text.len()).unwrap_or(0),
        what,
    };
    Ok(found.as_slice() == [whole].as_slice())
}

/// Whether the text has this fault first, or none where the word is empty.
fn refuses(alloc: Global, text: &str, word: &str, place: u32) -> Result<bool, Fail> {
    match read(alloc, text) {
        Ok(_) => Ok(word.is_empty()),
        Err(TokensError::Fault(fault)) => {
            let printed = fault.to_string(alloc)?;
            Ok(printed.as_str() == word && fault.pos.0 == place)
        }
        Err(TokensError::NoMemory) => Err(Fail::new("no memory")),
    }
}

/// Whether what is written at the tokens of the text is this, in order.
fn is_split(alloc: Global, text: &str, pieces: &[&str]) -> Result<bool, Fail> {
    if text.len() > 1_000_000 {
        return Ok(false);
    }
    let found = tokens(alloc, text)?;
    let mut left = pieces;
    for token in &found {
        let [piece, others @ ..] = left else {
            return Ok(false);
        };
        if token_text(text, *token) != *piece {
            return Ok(false);
        }
        left = others;
    }
    Ok(left.is_empty())
}

/// Whether the text is one quoted text of this value.
fn has_value(alloc: Global, text: &str, value: &str) -> Result<bool, Fail> {
    if text.len() > 1_000_000 {
        return Ok(false);
    }
    let found = tokens(alloc, text)?;
    match found.first() {
        Some(token) if token.what == TokenKind::Quoted => {
            Ok(unquote(alloc, text, *token)?.as_str() == value)
        }
        _ => Ok(false),
    }
}

/// A front, a piece so many times, and a back.
fn repeated(
    alloc: Global,
    front: &str,
    piece: &str,
    count: u32,
    back: &str,
) -> Result<String, Fail> {
    let mut text = String::from_str(alloc, front)?;
    for _ in 0..count {
        text.push_str(piece)?;
    }
    text.push_str(back)?;
    Ok(text)
}

#[test]
fn splits_texts(rt: HostRuntime) -> Result<(), Fail> {
    for (text, pieces) in SPLITS {
        assert!(rt; is_split(rt.alloc(), text, pieces)?, "{text}");
    }
    Ok(())
}

#[test]
fn reads_one_token(rt: HostRuntime) -> Result<(), Fail> {
    for (text, what) in ONES {
        assert!(rt; is_one(rt.alloc(), text, what)?, "{text}");
    }
    Ok(())
}

#[test]
fn refuses_texts(rt: HostRuntime) -> Result<(), Fail> {
    for (text, word, place) in FAULTS {
        assert!(rt; refuses(rt.alloc(), text, word, place)?, "{text}");
    }
    Ok(())
}

#[test]
fn refuses_long_texts(rt: HostRuntime) -> Result<(), Fail> {
    for (front, piece, count, back, word, place) in LONG {
        let text = repeated(rt.alloc(), front, piece, count, back)?;
        assert!(rt; refuses(rt.alloc(), text.as_str(), word, place)?, "{word}");
    }
    Ok(())
}

#[test]
fn reads_escapes(rt: HostRuntime) -> Result<(), Fail> {
    assert!(rt; has_value(rt.alloc(), "\"\\\"\\\\\\n\\t é/* '\"", "\"\\\n\t é/* '")?);
    Ok(())
}
