//! Delays, emissions, and the parts of `run` and `async`.
ghost use Rattle.std.specs.Prelude.{◌≡◌};
ghost use Rattle.grammar.specs.Parser.{Reads};
ghost use Rattle.expression_reader.specs.Refusals.{as_refusal};
ghost use Rattle.expression_reader.specs.Reference as part;
ghost use Rattle.module_reader.specs.Reference as rule;

use crate::lists::read_list_or_none;
use expression_reader::cursor::Reader;
use expression_reader::fault::StepError;
use hh_base::keyword::Keyword;
use hh_base::name::Name;
use hh_base::text::Text;
use module_token::punct::Punct;
use module_tree::source::{Binding, Delay, ExprAt, Later, NameAt};
use sqlite_items::Items;

// ---- delays

/// How often, and for what.
#[tactic(auto, unfolding(crate::specs::Reference::times, expression_reader::specs::Reference::in_round, grammar::specs::Parser::opened))]
fn read_counted_times(reader: &mut Reader<'_>, room: u8) -> Result<(u8, ExprAt<Name>), StepError>
    ensures { Reads as_refusal (part.in_round rule.times room reader.old) result reader.new }
{
    let (_, left) = reader.open(Punct::LeftParen, room)?;
    let (_, times) = reader.times()?;
    reader.punct(Punct::Comma)?;
    let expr = reader.outermost(left)?;
    reader.punct(Punct::RightParen)?;
    Ok((times, expr))
}

#[tactic(auto, unfolding(crate::specs::Reference::count))]
fn read_count_delay(reader: &mut Reader<'_>, room: u8) -> Result<Later<Name>, StepError>
    ensures { Reads as_refusal (rule.count room reader.old) result reader.new }
{
    reader.keyword(Keyword::Count)?;
    let (times, expr) = read_counted_times(reader, room)?;
    Ok(Later::Count(times, expr))
}

#[tactic(auto, unfolding(crate::specs::Reference::once))]
fn read_once(reader: &mut Reader<'_>, room: u8) -> Result<Later<Name>, StepError>
    ensures { Reads as_refusal (rule.once room reader.old) result reader.new }
{
    let expr = reader.test(room)?;
    Ok(Later::Once(expr))
}

#[tactic(auto, unfolding(crate::specs::Reference::later))]
pub(crate) fn read_later(reader: &mut Reader<'_>, room: u8) -> Result<Later<Name>, StepError>
    ensures { Reads as_refusal (rule.later room reader.old) result reader.new }
{
    if reader.sees_punct(Punct::LeftParen) {
        read_once(reader, room)
    } else {
        read_count_delay(reader, room)
    }
}

#[tactic(auto, unfolding(crate::specs::Reference::immediate))]
fn read_immediate(reader: &mut Reader<'_>, room: u8) -> Result<Delay<Name>, StepError>
    ensures { Reads as_refusal (rule.immediate room reader.old) result reader.new }
{
    reader.keyword(Keyword::Immediate)?;
    let expr = reader.test(room)?;
    Ok(Delay::Immediate(expr))
}

#[tactic(auto, unfolding(crate::specs::Reference::later_delay))]
fn read_later_delay(reader: &mut Reader<'_>, room: u8) -> Result<Delay<Name>, StepError>
    ensures { Reads as_refusal (rule.later_delay room reader.old) result reader.new }
{
    let later = read_later(reader, room)?;
    Ok(Delay::Later(later))
}

#[tactic(auto, unfolding(crate::specs::Reference::delay))]
pub(crate) fn read_delay(reader: &mut Reader<'_>, room: u8) -> Result<Delay<Name>, StepError>
    ensures { Reads as_refusal (rule.delay room reader.old) result reader.new }
{
    if reader.sees_keyword(Keyword::Immediate) {
        read_immediate(reader, room)
    } else {
        read_later_delay(reader, room)
    }
}

#[tactic(auto, unfolding(crate::specs::Reference::has_immediate))]
pub(crate) fn read_whether_immediate(reader: &mut Reader<'_>) -> Result<bool, StepError>
    ensures { Reads as_refusal (rule.has_immediate reader.old) result reader.new }
{
    if !reader.sees_keyword(Keyword::Immediate) {
        return Ok(false);
    }
    reader.keyword(Keyword::Immediate)?;
    Ok(true)
}

// ---- emissions

#[tactic(auto, unfolding(crate::specs::Reference::emitted))]
fn read_emitted(reader: &mut Reader<'_>, room: u8) -> Result<Option<ExprAt<Name>>, StepError>
    ensures { Reads as_refusal (rule.emitted room reader.old) result reader.new }
{
    if !reader.sees_punct(Punct::LeftParen) {
        return Ok(None);
    }
    Ok(Some(reader.test(room)?))
}

/// A signal, and its value where there is one.
#[tactic(auto, unfolding(crate::specs::Reference::emission))]
pub(crate) fn read_emission(
    reader: &mut Reader<'_>,
    room: u8,
) -> Result<(NameAt<Name>, Option<ExprAt<Name>>), StepError>
    ensures { Reads as_refusal (rule.emission room reader.old) result reader.new }
{
    let signal = reader.name_at()?;
    let value = read_emitted(reader, room)?;
    reader.punct(Punct::Semicolon)?;
    Ok((signal, value))
}

// ---- the parts of `run` and `async`

#[tactic(auto, unfolding(crate::specs::Reference::binding))]
pub(crate) fn read_binding(reader: &mut Reader<'_>) -> Result<Binding<Name>, StepError>
    ensures { Reads as_refusal (rule.binding reader.old) result reader.new }
{
    let left = reader.name_at()?;
    reader.punct(Punct::Equal)?;
    let right = reader.name_at()?;
    Ok(Binding { left, right })
}

#[tactic(auto, unfolding(expression_reader::specs::Reference::in_round, grammar::specs::Parser::opened))]
pub(crate) fn read_run_bindings(
    reader: &mut Reader<'_>,
    room: u8,
) -> Result<Items<Binding<Name>>, StepError>
    ensures { Reads as_refusal (part.in_round rule.bindings room reader.old) result reader.new }
{
    reader.open(Punct::LeftParen, room)?;
    let list = read_list_or_none(reader)?;
    reader.punct(Punct::RightParen)?;
    Ok(list)
}

#[tactic(auto, unfolding(expression_reader::specs::Reference::in_round, grammar::specs::Parser::opened))]
fn read_name_in_round(reader: &mut Reader<'_>, room: u8) -> Result<NameAt<Name>, StepError>
    ensures { Reads as_refusal (part.in_round rule.result room reader.old) result reader.new }
{
    reader.open(Punct::LeftParen, room)?;
    let name = reader.name_at()?;
    reader.punct(Punct::RightParen)?;
    Ok(name)
}

/// The signal that an async emits, where there is one.
#[tactic(auto, unfolding(crate::specs::Reference::async_signal))]
pub(crate) fn read_async_signal(
    reader: &mut Reader<'_>,
    room: u8,
) -> Result<Option<NameAt<Name>>, StepError>
    ensures { Reads as_refusal (rule.async_signal room reader.old) result reader.new }
{
    if !reader.sees_punct(Punct::LeftParen) {
        return Ok(None);
    }
    Ok(Some(read_name_in_round(reader, room)?))
}

/// The text of a handler, where there is one.
#[tactic(auto, unfolding(crate::specs::Reference::handled))]
pub(crate) fn read_handler(
    reader: &mut Reader<'_>,
    word: Keyword,
) -> Result<Option<Text>, StepError>
    ensures { Reads as_refusal (rule.handled word reader.old) result reader.new }
{
    if !reader.sees_keyword(word) {
        return Ok(None);
    }
    reader.keyword(word)?;
    let (_, text) = reader.quoted()?;
    Ok(Some(text))
}
