//! Bodies, hosts and modules.
ghost use Rattle.std.specs.Prelude.{◌≡◌};
ghost use Rattle.grammar.specs.Parser as parser;
ghost use Rattle.grammar.specs.Parser.{Reads};
ghost use Rattle.expression_reader.specs.Refusals.{as_refusal};
ghost use Rattle.module_reader.specs.Trees as tree;
ghost use Rattle.expression_reader.specs.Reference as part;
ghost use Rattle.module_reader.specs.Reference as rule;

use crate::declarations::{read_kind, read_valued};
use crate::lists::read_list_or_none;
use crate::statements::read_block;
use expression_reader::cursor::{Reader, whole_list};
use expression_reader::fault::StepError;
use hh_base::keyword::Keyword;
use hh_base::name::Name;
use hh_base::value::Pos;
use module_token::punct::Punct;
use module_tree::limits::OPEN_LIMIT;
use module_tree::source::{BodyNode, ExprAt, HostNode, ModuleNode, Part};
use sqlite_items::Items;

/// An outermost expression in curly brackets.
#[tactic(auto, unfolding(expression_reader::specs::Reference::in_curly, grammar::specs::Parser::opened))]
fn read_in_curly(reader: &mut Reader<'_>, room: u8) -> Result<ExprAt<Name>, StepError>
    ensures { Reads as_refusal (part.in_curly part.outermost room reader.old) result reader.new }
{
    let (_, left) = reader.open(Punct::LeftBrace, room)?;
    let expr = reader.outermost(left)?;
    reader.punct(Punct::RightBrace)?;
    Ok(expr)
}

#[tactic(auto, unfolding(crate::specs::Reference::body))]
fn read_body(reader: &mut Reader<'_>) -> Result<Part<Name>, StepError>
    ensures { Reads as_refusal (rule.body OPEN_LIMIT reader.old) result reader.new }
{
    reader.keyword(Keyword::Body)?;
    let (pos, name) = reader.name()?;
    reader.punct(Punct::LeftParen)?;
    let parameters = read_list_or_none(reader)?;
    reader.punct(Punct::RightParen)?;
    reader.punct(Punct::Colon)?;
    let answer = read_valued(reader)?;
    let expr = read_in_curly(reader, OPEN_LIMIT)?;
    Ok(Part::Body(BodyNode {
        pos: Pos(pos),
        name,
        parameters,
        answer,
        expr,
    }))
}

#[tactic(auto, unfolding(crate::specs::Reference::host))]
fn read_host(reader: &mut Reader<'_>) -> Result<Part<Name>, StepError>
    ensures { Reads as_refusal (rule.host reader.old) result reader.new }
{
    let token = reader.keyword(Keyword::Host)?;
    let (pos, name) = reader.name()?;
    reader.punct(Punct::LeftParen)?;
    let parameters = read_list_or_none(reader)?;
    reader.punct(Punct::RightParen)?;
    reader.punct(Punct::Colon)?;
    let answer = read_kind(reader)?;
    reader.punct(Punct::Semicolon)?;
    Ok(Part::Host(HostNode {
        pos: Pos(pos),
        token: Pos(token),
        name,
        parameters,
        answer,
    }))
}

#[tactic(auto, unfolding(crate::specs::Reference::module_of))]
fn read_module(reader: &mut Reader<'_>) -> Result<Part<Name>, StepError>
    ensures { Reads as_refusal (rule.module_of OPEN_LIMIT reader.old) result reader.new }
{
    reader.keyword(Keyword::Module)?;
    let (pos, name) = reader.name()?;
    reader.punct(Punct::LeftParen)?;
    let interface = read_list_or_none(reader)?;
    reader.punct(Punct::RightParen)?;
    let block = read_block(reader, OPEN_LIMIT)?;
    Ok(Part::Module(ModuleNode {
        pos: Pos(pos),
        name,
        interface,
        block,
    }))
}

#[tactic(auto, unfolding(crate::specs::Reference::part))]
fn read_part(reader: &mut Reader<'_>) -> Result<Part<Name>, StepError>
    ensures { Reads as_refusal (rule.part OPEN_LIMIT reader.old) result reader.new }
{
    if reader.sees_keyword(Keyword::Body) {
        return read_body(reader);
    }
    if reader.sees_keyword(Keyword::Host) {
        return read_host(reader);
    }
    read_module(reader)
}

#[tactic(auto, unfolding(grammar::specs::Parser::sees))]
fn sees_part(reader: &Reader<'_>) -> bool
    ensures { result ≡ parser.sees rule.begins_part reader.now }
{
    reader.sees_keyword(Keyword::Body)
        || reader.sees_keyword(Keyword::Host)
        || reader.sees_keyword(Keyword::Module)
}

#[tactic(auto, unfolding(crate::specs::Reference::parts))]
fn read_parts(reader: &mut Reader<'_>) -> Result<Items<Part<Name>>, StepError>
    ensures { Reads as_refusal (rule.parts OPEN_LIMIT reader.old) result reader.new }
{
    let mut list = reader.start_list();
    'each: while sees_part(reader) {
        let part = read_part(reader)?;
        list.push(part)?;
    }
    Ok(whole_list(list))
}

/// All of the text.
pub(crate) fn read_whole(reader: &mut Reader<'_>) -> Result<Items<Part<Name>>, StepError>
    ensures { Reads as_refusal (parser.whole (rule.parts OPEN_LIMIT) reader.old) result reader.new }
{
    let parts = read_parts(reader)?;
    reader.finish()?;
    Ok(parts)
}

/// Whether one of them is a module.
pub(crate) fn has_module(parts: &[Part<Name>]) -> bool
    ensures { result ≡ tree.has_module parts.now }
{
    parts.iter().any(|part| matches!(part, Part::Module(_)))
}
