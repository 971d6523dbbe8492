//! Signals, parameters, types and literals.
ghost use Rattle.std.specs.Prelude.{◌≡◌, ◌≤◌, ◌^◌, pos, neg_ℤ};
ghost use Rattle.grammar.specs.Parser.{Reads};
ghost use Rattle.expression_reader.specs.Refusals.{as_refusal};
ghost use Rattle.module_reader.specs.Reference as rule;

use expression_reader::cursor::{LARGEST, Reader};
use expression_reader::fault::StepError;
use expression_reader::terminal::Terminal;
use hh_base::keyword::Keyword;
use hh_base::value::{CombineWord, Dir, Kind, Pos, Value};
use module_token::punct::Punct;
use module_tree::source::{InterfaceNode, ParameterNode, SignalNode};

/// The number without its sign of the least integer.
const LEAST: u64 = 1 << 63;

fn negated(value: u64) -> i64
    requires { value ≤ 2 ^ 63 }
    ensures { result ≡ neg_ℤ (pos value) }
{
    if value == LEAST {
        i64::MIN
    } else {
        -(value as i64)
    }
}

// ---- types

fn read_kind_by(reader: &mut Reader<'_>, word: Keyword, kind: Kind) -> Result<Kind, StepError>
    ensures { Reads as_refusal (rule.kind_by word kind reader.old) result reader.new }
{
    reader.keyword(word)?;
    Ok(kind)
}

#[tactic(auto, unfolding(crate::specs::Reference::valued))]
pub(crate) fn read_valued(reader: &mut Reader<'_>) -> Result<Kind, StepError>
    ensures { Reads as_refusal (rule.valued reader.old) result reader.new }
{
    if reader.sees_keyword(Keyword::Int) {
        return read_kind_by(reader, Keyword::Int, Kind::Int);
    }
    if reader.sees_keyword(Keyword::Bool) {
        return read_kind_by(reader, Keyword::Bool, Kind::Bool);
    }
    read_kind_by(reader, Keyword::Text, Kind::Text)
}

#[tactic(auto, unfolding(crate::specs::Reference::kind))]
pub(crate) fn read_kind(reader: &mut Reader<'_>) -> Result<Kind, StepError>
    ensures { Reads as_refusal (rule.kind reader.old) result reader.new }
{
    if reader.sees_keyword(Keyword::Pure) {
        return read_kind_by(reader, Keyword::Pure, Kind::Pure);
    }
    read_valued(reader)
}

// ---- literals

fn read_literal_by(reader: &mut Reader<'_>, word: Keyword, value: bool) -> Result<Value, StepError>
    ensures { Reads as_refusal (rule.literal_by word value reader.old) result reader.new }
{
    reader.keyword(word)?;
    Ok(Value::Bool(value))
}

#[tactic(auto, unfolding(crate::specs::Reference::literal_text))]
fn read_literal_text(reader: &mut Reader<'_>) -> Result<Value, StepError>
    ensures { Reads as_refusal (rule.literal_text reader.old) result reader.new }
{
    let (_, text) = reader.quoted()?;
    Ok(Value::Text(text))
}

#[tactic(auto, unfolding(crate::specs::Reference::literal_number))]
fn read_literal_number(reader: &mut Reader<'_>) -> Result<Value, StepError>
    ensures { Reads as_refusal (rule.literal_number reader.old) result reader.new }
{
    let (_, value) = reader.number_up_to(LARGEST)?;
    Ok(Value::Int(value as i64))
}

#[tactic(auto, unfolding(crate::specs::Reference::literal_negative))]
fn read_literal_negative(reader: &mut Reader<'_>) -> Result<Value, StepError>
    ensures { Reads as_refusal (rule.literal_negative reader.old) result reader.new }
{
    reader.punct(Punct::Minus)?;
    let (_, value) = reader.number_up_to(LEAST)?;
    Ok(Value::Int(negated(value)))
}

#[tactic(auto, unfolding(crate::specs::Reference::literal))]
fn read_literal(reader: &mut Reader<'_>) -> Result<Value, StepError>
    ensures { Reads as_refusal (rule.literal reader.old) result reader.new }
{
    if reader.sees_keyword(Keyword::True) {
        return read_literal_by(reader, Keyword::True, true);
    }
    if reader.sees_keyword(Keyword::False) {
        return read_literal_by(reader, Keyword::False, false);
    }
    if reader.sees(Terminal::Quoted) {
        return read_literal_text(reader);
    }
    if reader.sees(Terminal::Number) {
        return read_literal_number(reader);
    }
    read_literal_negative(reader)
}

// ---- the parts of a signal

#[tactic(auto, unfolding(crate::specs::Reference::kind_of_signal))]
fn read_kind_of_signal(reader: &mut Reader<'_>) -> Result<Kind, StepError>
    ensures { Reads as_refusal (rule.kind_of_signal reader.old) result reader.new }
{
    if !reader.sees_punct(Punct::Colon) {
        return Ok(Kind::Pure);
    }
    reader.punct(Punct::Colon)?;
    read_kind(reader)
}

#[tactic(auto, unfolding(crate::specs::Reference::first_value))]
fn read_first_value(reader: &mut Reader<'_>) -> Result<Option<Value>, StepError>
    ensures { Reads as_refusal (rule.first_value reader.old) result reader.new }
{
    if !reader.sees_punct(Punct::Equal) {
        return Ok(None);
    }
    reader.punct(Punct::Equal)?;
    Ok(Some(read_literal(reader)?))
}

fn read_combine_by(
    reader: &mut Reader<'_>,
    word: Terminal,
    combine: CombineWord,
) -> Result<CombineWord, StepError>
    ensures { Reads as_refusal (rule.combine_by word combine reader.old) result reader.new }
{
    reader.take(word)?;
    Ok(combine)
}

#[tactic(auto, unfolding(crate::specs::Reference::combine_word))]
fn read_combine_word(reader: &mut Reader<'_>) -> Result<CombineWord, StepError>
    ensures { Reads as_refusal (rule.combine_word reader.old) result reader.new }
{
    if reader.sees(Terminal::Plus) {
        return read_combine_by(reader, Terminal::Plus, CombineWord::Plus);
    }
    if reader.sees(Terminal::Min) {
        return read_combine_by(reader, Terminal::Min, CombineWord::Min);
    }
    if reader.sees(Terminal::Max) {
        return read_combine_by(reader, Terminal::Max, CombineWord::Max);
    }
    if reader.sees(Terminal::And) {
        return read_combine_by(reader, Terminal::And, CombineWord::And);
    }
    read_combine_by(reader, Terminal::Or, CombineWord::Or)
}

#[tactic(auto, unfolding(crate::specs::Reference::combining))]
fn read_combining(reader: &mut Reader<'_>) -> Result<Option<CombineWord>, StepError>
    ensures { Reads as_refusal (rule.combining reader.old) result reader.new }
{
    if !reader.sees_keyword(Keyword::Combine) {
        return Ok(None);
    }
    reader.keyword(Keyword::Combine)?;
    Ok(Some(read_combine_word(reader)?))
}

/// A signal without a type is pure.
#[tactic(auto, unfolding(crate::specs::Reference::signal))]
pub(crate) fn read_signal(reader: &mut Reader<'_>) -> Result<SignalNode, StepError>
    ensures { Reads as_refusal (rule.signal reader.old) result reader.new }
{
    let (pos, name) = reader.name()?;
    let kind = read_kind_of_signal(reader)?;
    let first = read_first_value(reader)?;
    let combine = read_combining(reader)?;
    Ok(SignalNode {
        pos: Pos(pos),
        name,
        kind,
        first,
        combine,
    })
}

// ---- declarations

fn read_direction_by(reader: &mut Reader<'_>, word: Keyword, dir: Dir) -> Result<Dir, StepError>
    ensures { Reads as_refusal (rule.dir_by word dir reader.old) result reader.new }
{
    reader.keyword(word)?;
    Ok(dir)
}

#[tactic(auto, unfolding(crate::specs::Reference::direction))]
fn read_direction(reader: &mut Reader<'_>) -> Result<Dir, StepError>
    ensures { Reads as_refusal (rule.direction reader.old) result reader.new }
{
    if reader.sees_keyword(Keyword::In) {
        return read_direction_by(reader, Keyword::In, Dir::Input);
    }
    if reader.sees_keyword(Keyword::Out) {
        return read_direction_by(reader, Keyword::Out, Dir::Output);
    }
    read_direction_by(reader, Keyword::Inout, Dir::Both)
}

#[tactic(auto, unfolding(crate::specs::Reference::interface))]
pub(crate) fn read_interface(reader: &mut Reader<'_>) -> Result<InterfaceNode, StepError>
    ensures { Reads as_refusal (rule.interface reader.old) result reader.new }
{
    let dir = read_direction(reader)?;
    let signal = read_signal(reader)?;
    Ok(InterfaceNode { dir, signal })
}

#[tactic(auto, unfolding(crate::specs::Reference::parameter))]
pub(crate) fn read_parameter(reader: &mut Reader<'_>) -> Result<ParameterNode, StepError>
    ensures { Reads as_refusal (rule.parameter reader.old) result reader.new }
{
    let (pos, name) = reader.name()?;
    reader.punct(Punct::Colon)?;
    let kind = read_valued(reader)?;
    Ok(ParameterNode {
        pos: Pos(pos),
        name,
        kind,
    })
}
