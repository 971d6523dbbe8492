//! What the first part of an expression says.
ghost use Rattle.std.specs.Prelude.{◌≡◌};
ghost use Rattle.net_line.specs.ExpressionReading.{placed_word, placed_of, access_of, logic_of, relation_of};
ghost use Rattle.net_line.specs.ExpressionReading.{first_found, starts_literal, spelled_node, node_word};

use crate::decode::number_of;
use host_expr::expr::{Op, Rel};

/// What is read of a signal, or a parameter.
#[derive(Clone, Copy, PartialEq, Eq, Debug)]
pub enum Access {
    Now,
    Pre,
    NowVal,
    PreVal,
    Arg,
}

/// An operator with one operand; `Neg` has its place.
#[derive(Clone, Copy, PartialEq, Eq, Debug)]
pub enum Unary {
    Not,
    Neg(u32),
}

/// An operator with two operands; one of arithmetic has its place.
#[derive(Clone, Copy, PartialEq, Eq, Debug)]
pub enum Binary {
    Arith(Op, u32),
    Compare(Rel),
    And,
    Or,
}

/// A node of an expression in prefix form. What is no word of another node is to be a literal.
#[derive(Clone, Copy, PartialEq, Eq, Debug)]
pub enum NodeWord {
    Literal,
    Reads(Access),
    Unary(Unary),
    Binary(Binary),
    Choose,
}

fn placed_word(word: &[u8], place: u32) -> Option<NodeWord>
    ensures { result ≡ placed_word word.now place }
{
    if word == b"add@".as_slice() {
        return Some(NodeWord::Binary(Binary::Arith(Op::Add, place)));
    }
    if word == b"sub@".as_slice() {
        return Some(NodeWord::Binary(Binary::Arith(Op::Sub, place)));
    }
    if word == b"mul@".as_slice() {
        return Some(NodeWord::Binary(Binary::Arith(Op::Mul, place)));
    }
    if word == b"div@".as_slice() {
        return Some(NodeWord::Binary(Binary::Arith(Op::Div, place)));
    }
    if word == b"rem@".as_slice() {
        return Some(NodeWord::Binary(Binary::Arith(Op::Rem, place)));
    }
    if word == b"neg@".as_slice() {
        return Some(NodeWord::Unary(Unary::Neg(place)));
    }
    None
}

/// An operator of arithmetic with its place.
#[tactic(auto, using(crate::proofs::Nodes::placed_short, crate::proofs::Nodes::placed_split))]
fn placed_of(part: &[u8]) -> Option<NodeWord>
    ensures { result ≡ placed_of part.now }
{
    if part.len() < 4 {
        return None;
    }
    let (word, digits) = part.split_at(4);
    match number_of(digits) {
        Some(place) => placed_word(word, place),
        None => None,
    }
}

fn access_of(part: &[u8]) -> Option<NodeWord>
    ensures { result ≡ access_of part.now }
{
    if part == b"now".as_slice() {
        return Some(NodeWord::Reads(Access::Now));
    }
    if part == b"pre".as_slice() {
        return Some(NodeWord::Reads(Access::Pre));
    }
    if part == b"nowval".as_slice() {
        return Some(NodeWord::Reads(Access::NowVal));
    }
    if part == b"preval".as_slice() {
        return Some(NodeWord::Reads(Access::PreVal));
    }
    if part == b"arg".as_slice() {
        return Some(NodeWord::Reads(Access::Arg));
    }
    None
}

fn logic_of(part: &[u8]) -> Option<NodeWord>
    ensures { result ≡ logic_of part.now }
{
    if part == b"not".as_slice() {
        return Some(NodeWord::Unary(Unary::Not));
    }
    if part == b"all".as_slice() {
        return Some(NodeWord::Binary(Binary::And));
    }
    if part == b"any".as_slice() {
        return Some(NodeWord::Binary(Binary::Or));
    }
    if part == b"choose".as_slice() {
        return Some(NodeWord::Choose);
    }
    None
}

fn relation_of(part: &[u8]) -> Option<NodeWord>
    ensures { result ≡ relation_of part.now }
{
    if part == b"eq".as_slice() {
        return Some(NodeWord::Binary(Binary::Compare(Rel::Eq)));
    }
    if part == b"ne".as_slice() {
        return Some(NodeWord::Binary(Binary::Compare(Rel::Ne)));
    }
    if part == b"lt".as_slice() {
        return Some(NodeWord::Binary(Binary::Compare(Rel::Lt)));
    }
    if part == b"le".as_slice() {
        return Some(NodeWord::Binary(Binary::Compare(Rel::Le)));
    }
    if part == b"gt".as_slice() {
        return Some(NodeWord::Binary(Binary::Compare(Rel::Gt)));
    }
    if part == b"ge".as_slice() {
        return Some(NodeWord::Binary(Binary::Compare(Rel::Ge)));
    }
    None
}

fn first_found(first: Option<NodeWord>, other: Option<NodeWord>) -> Option<NodeWord>
    ensures { result ≡ first_found first other }
{
    match first {
        Some(word) => Some(word),
        None => other,
    }
}

fn starts_literal(part: &[u8]) -> bool
    ensures { result ≡ starts_literal part.now }
{
    match part.first() {
        Some(first) => *first == b'"' || *first == b'-' || first.is_ascii_digit(),
        None => false,
    }
}

fn spelled_node(part: &[u8]) -> NodeWord
    ensures { result ≡ spelled_node part.now }
{
    let relation = first_found(relation_of(part), placed_of(part));
    let logic = first_found(logic_of(part), relation);
    match first_found(access_of(part), logic) {
        Some(word) => word,
        None => NodeWord::Literal,
    }
}

/// The node whose word the part is.
pub fn node_word(part: &[u8]) -> NodeWord
    ensures { result ≡ node_word part.now }
{
    if starts_literal(part) {
        return NodeWord::Literal;
    }
    spelled_node(part)
}
