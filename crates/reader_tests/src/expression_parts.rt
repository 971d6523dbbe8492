//! Parts that are read, and parts that are refused.

use expression_reader::cursor::Reader;
use expression_reader::fault::StepError;
use expression_reader::terminal::Terminal;
use hh_base::keyword::Keyword;
use hh_base::value::Pos;
use host_expr::expr::{ExprNode, Op};
use module_token::punct::Punct;
use module_token::token::Token;
use module_token::tokens::tokens;
use sqlite_items::Items;
use std::alloc::Global;

/// What a text is to begin with.
#[derive(Clone, Copy)]
enum Part {
    Emit,
    Plus,
    Name,
    NameAt,
    Quoted,
    Number,
    Times,
    Outermost,
    Tested,
    Arguments,
    Difference,
    Bracket,
    Nothing,
}

/// Whether all that looks at the next token sees the bracket that a text begins with.
fn sees_bracket(reader: &mut Reader<'_>) -> bool {
    let list: Items<u8> = reader.empty_list();
    reader.kind() == Some(Terminal::Punct(Punct::LeftParen))
        && reader.sees(Terminal::Punct(Punct::LeftParen))
        && reader.sees_punct(Punct::LeftParen)
        && !reader.sees_keyword(Keyword::Emit)
        && reader.sees_in_round()
        && reader.sees_in_curly()
        && reader.open(Punct::LeftParen, 0) == Err(StepError::DeepNesting(0))
        && list.is_empty()
}

/// The tree of a difference: it groups to the left, and its parts stand where they are read.
fn is_difference(reader: &mut Reader<'_>) -> Result<bool, StepError> {
    reader.punct(Punct::LeftParen)?;
    let read = reader.outermost(0)?;
    Ok(match &read.expr.node {
        ExprNode::Arith(Op::Sub, left, right) => {
            read.expr.pos == Pos(4) && left.get().pos == Pos(2) && right.get().pos == Pos(5)
        }
        _ => false,
    })
}

fn read_part(reader: &mut Reader<'_>, part: Part) -> Result<u32, StepError> {
    match part {
        Part::Emit => reader.keyword(Keyword::Emit),
        Part::Plus => reader.take(Terminal::Plus),
        Part::Name => Ok(reader.name()?.0),
        Part::NameAt => Ok(reader.name_at()?.pos.0),
        Part::Quoted => Ok(reader.quoted()?.0),
        Part::Number => Ok(reader.number_up_to(9)?.0),
        Part::Times => Ok(u32::from(reader.times()?.1)),
        Part::Outermost => Ok(reader.outermost(2)?.pos.0),
        Part::Tested => Ok(reader.test(2)?.pos.0),
        Part::Arguments => Ok(u32::from(reader.arguments(2)?.len() == 3)),
        Part::Difference => Ok(u32::from(is_difference(reader)?)),
        Part::Bracket => Ok(u32::from(sees_bracket(reader))),
        Part::Nothing => {
            reader.finish()?;
            Ok(0)
        }
    }
}

/// What reading the part gives: a place, a number that was read, or 1 for yes. None where the text has no
/// tokens.
fn read_of(alloc: Global, text: &str, part: Part) -> Option<Result<u32, StepError>> {
    if text.len() >= 1 << 32 {
        return None;
    }
    match tokens(alloc, text) {
        Ok(tokens) => {
            let mut reader = Reader::new(alloc, text, tokens.as_slice(), text.len() as u32);
            Some(read_part(&mut reader, part))
        }
        Err(_) => None,
    }
}

/// Texts, what is read of each, and what that gives.
const TEXTS: [(&str, Part, Result<u32, StepError>); 27] = [
    (" emit A;", Part::Emit, Ok(1)),
    ("plus", Part::Plus, Ok(0)),
    (" now.", Part::Name, Ok(1)),
    ("  A, B", Part::NameAt, Ok(2)),
    (" \"a\"", Part::Quoted, Ok(1)),
    (" 9", Part::Number, Ok(1)),
    ("64, A.now", Part::Times, Ok(64)),
    (" A.now && B.pre) {}", Part::Outermost, Ok(1)),
    ("((1) == - 1)", Part::Tested, Ok(1)),
    ("()", Part::Arguments, Ok(0)),
    ("(1, A.nowval ? 2 : (3), \"a\")", Part::Arguments, Ok(1)),
    ("(1-2-3)", Part::Difference, Ok(1)),
    ("(", Part::Bracket, Ok(1)),
    ("// a", Part::Nothing, Ok(0)),
    ("A", Part::Emit, Err(StepError::Unexpected(0))),
    (" 10", Part::Number, Err(StepError::Unexpected(1))),
    ("if", Part::NameAt, Err(StepError::Unexpected(0))),
    (" A", Part::Nothing, Err(StepError::Unexpected(1))),
    ("a < b < c) ", Part::Tested, Err(StepError::Unexpected(0))),
    ("", Part::Name, Err(StepError::EndOfText(0))),
    ("1 +", Part::Outermost, Err(StepError::EndOfText(3))),
    ("(1, ", Part::Arguments, Err(StepError::EndOfText(4))),
    ("(((1)))", Part::Outermost, Err(StepError::DeepNesting(2))),
    ("(((1)))", Part::Tested, Err(StepError::DeepNesting(2))),
    (
        "-9223372036854775808",
        Part::Outermost,
        Err(StepError::NumberLarge(1)),
    ),
    ("65,", Part::Times, Err(StepError::BadCount(0))),
    ("0,", Part::Times, Err(StepError::BadCount(0))),
];

#[test]
fn reads_parts(rt: HostRuntime) {
    for (text, part, gives) in TEXTS {
        assert!(rt; read_of(rt.alloc(), text, part) == Some(gives), "{text}");
    }
}
