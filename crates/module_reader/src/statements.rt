//! Statements.
ghost use Rattle.std.specs.Prelude.{◌≡◌};
ghost use Rattle.grammar.specs.Parser as parser;
ghost use Rattle.grammar.specs.Parser.{Reads};
ghost use Rattle.module_tree.specs.declared.source.Statement as A;
ghost use Rattle.expression_reader.specs.Refusals.{as_refusal};
ghost use Rattle.expression_reader.specs.Terminals.{is_keyword, is_in_curly};
ghost use Rattle.module_reader.specs.Trees as tree;
ghost use Rattle.module_reader.specs.Reference as rule;

use crate::delays::{
    read_async_signal, read_delay, read_emission, read_handler, read_later, read_run_bindings,
    read_whether_immediate,
};
use crate::lists::read_list;
use expression_reader::cursor::{Reader, whole_list};
use expression_reader::fault::StepError;
use expression_reader::terminal::Terminal;
use hh_base::keyword::Keyword;
use hh_base::name::Name;
use hh_base::value::Pos;
use module_token::punct::Punct;
use module_tree::source::{AsyncNode, BlockNode, Statement, StatementNode};
use sqlite_items::Items;

/// The statement at this place.
fn statement_at(pos: u32, what: Statement<Name>) -> StatementNode<Name>
    ensures { result ≡ tree.statement_at pos what }
{
    StatementNode {
        pos: Pos(pos),
        what,
    }
}

// ---- statements without blocks, where so many brackets may still be opened

#[tactic(auto, unfolding(crate::specs::Reference::simple))]
fn read_nothing(reader: &mut Reader<'_>) -> Result<StatementNode<Name>, StepError>
    ensures { Reads as_refusal (rule.simple Keyword.Nothing Statement.Nothing reader.old) result reader.new }
{
    let pos = reader.keyword(Keyword::Nothing)?;
    reader.punct(Punct::Semicolon)?;
    Ok(statement_at(pos, Statement::Nothing))
}

#[tactic(auto, unfolding(crate::specs::Reference::simple))]
fn read_pause(reader: &mut Reader<'_>) -> Result<StatementNode<Name>, StepError>
    ensures { Reads as_refusal (rule.simple Keyword.Pause Statement.Pause reader.old) result reader.new }
{
    let pos = reader.keyword(Keyword::Pause)?;
    reader.punct(Punct::Semicolon)?;
    Ok(statement_at(pos, Statement::Pause))
}

#[tactic(auto, unfolding(crate::specs::Reference::simple))]
fn read_halt(reader: &mut Reader<'_>) -> Result<StatementNode<Name>, StepError>
    ensures { Reads as_refusal (rule.simple Keyword.Halt Statement.Halt reader.old) result reader.new }
{
    let pos = reader.keyword(Keyword::Halt)?;
    reader.punct(Punct::Semicolon)?;
    Ok(statement_at(pos, Statement::Halt))
}

#[tactic(auto, unfolding(crate::specs::Reference::emit))]
fn read_emit(reader: &mut Reader<'_>, room: u8) -> Result<StatementNode<Name>, StepError>
    ensures { Reads as_refusal (rule.emit room reader.old) result reader.new }
{
    let pos = reader.keyword(Keyword::Emit)?;
    let (signal, value) = read_emission(reader, room)?;
    Ok(statement_at(pos, Statement::Emit(signal, value)))
}

#[tactic(auto, unfolding(crate::specs::Reference::sustain))]
fn read_sustain(reader: &mut Reader<'_>, room: u8) -> Result<StatementNode<Name>, StepError>
    ensures { Reads as_refusal (rule.sustain room reader.old) result reader.new }
{
    let pos = reader.keyword(Keyword::Sustain)?;
    let (signal, value) = read_emission(reader, room)?;
    Ok(statement_at(pos, Statement::Sustain(signal, value)))
}

#[tactic(auto, unfolding(crate::specs::Reference::await_delay))]
fn read_await_delay(reader: &mut Reader<'_>, room: u8) -> Result<StatementNode<Name>, StepError>
    ensures { Reads as_refusal (rule.await_delay room reader.old) result reader.new }
{
    let pos = reader.keyword(Keyword::Await)?;
    let delay = read_delay(reader, room)?;
    reader.punct(Punct::Semicolon)?;
    Ok(statement_at(pos, Statement::Await(delay)))
}

#[tactic(auto, unfolding(crate::specs::Reference::break_out))]
fn read_break_out(reader: &mut Reader<'_>) -> Result<StatementNode<Name>, StepError>
    ensures { Reads as_refusal (rule.break_out reader.old) result reader.new }
{
    let pos = reader.keyword(Keyword::Break)?;
    let trap = reader.name_at()?;
    reader.punct(Punct::Semicolon)?;
    Ok(statement_at(pos, Statement::Break(trap)))
}

#[tactic(auto, unfolding(crate::specs::Reference::run))]
fn read_run(reader: &mut Reader<'_>, room: u8) -> Result<StatementNode<Name>, StepError>
    ensures { Reads as_refusal (rule.run room reader.old) result reader.new }
{
    let pos = reader.keyword(Keyword::Run)?;
    let module = reader.name_at()?;
    let bindings = read_run_bindings(reader, room)?;
    reader.punct(Punct::Semicolon)?;
    Ok(statement_at(pos, Statement::Run(module, bindings)))
}

#[tactic(auto, unfolding(crate::specs::Reference::async_call))]
fn read_async_call(reader: &mut Reader<'_>, room: u8) -> Result<StatementNode<Name>, StepError>
    ensures { Reads as_refusal (rule.async_call room reader.old) result reader.new }
{
    let pos = reader.keyword(Keyword::Async)?;
    let signal = read_async_signal(reader, room)?;
    reader.keyword(Keyword::Call)?;
    let body = reader.name_at()?;
    let args = reader.arguments(room)?;
    let kill = read_handler(reader, Keyword::Kill)?;
    let suspend = read_handler(reader, Keyword::Suspend)?;
    let resume = read_handler(reader, Keyword::Resume)?;
    reader.punct(Punct::Semicolon)?;
    let node = reader.boxed(AsyncNode {
        signal,
        body,
        args,
        kill,
        suspend,
        resume,
    })?;
    Ok(statement_at(pos, Statement::Async(node)))
}

// ---- statements with blocks

#[cycle(statement)]
#[tactic(auto, unfolding(crate::specs::Reference::otherwise))]
fn read_behind_else(reader: &mut Reader<'_>, room: u8) -> Result<Option<BlockNode<Name>>, StepError>
    ensures { Reads as_refusal (rule.otherwise (rule.block room) reader.old) result reader.new }
{
    if !reader.sees_keyword(Keyword::Else) {
        return Ok(None);
    }
    reader.keyword(Keyword::Else)?;
    Ok(Some(read_block(reader, room)?))
}

#[cycle(statement)]
#[tactic(auto, unfolding(crate::specs::Reference::if_else))]
fn read_if_else(reader: &mut Reader<'_>, room: u8) -> Result<StatementNode<Name>, StepError>
    ensures { Reads as_refusal (rule.if_else (rule.block room) room reader.old) result reader.new }
{
    let pos = reader.keyword(Keyword::If)?;
    let test = reader.test(room)?;
    let test = reader.boxed(test)?;
    let then = read_block(reader, room)?;
    let other = read_behind_else(reader, room)?;
    Ok(statement_at(pos, Statement::If(test, then, other)))
}

#[cycle(statement)]
#[tactic(auto, unfolding(crate::specs::Reference::loop_block))]
fn read_loop(reader: &mut Reader<'_>, room: u8) -> Result<StatementNode<Name>, StepError>
    ensures { Reads as_refusal (rule.loop_block (rule.block room) reader.old) result reader.new }
{
    let pos = reader.keyword(Keyword::Loop)?;
    let block = read_block(reader, room)?;
    Ok(statement_at(pos, Statement::Loop(block)))
}

#[cycle(statement)]
#[tactic(auto, unfolding(crate::specs::Reference::behind_par))]
fn read_behind_par(reader: &mut Reader<'_>, room: u8) -> Result<BlockNode<Name>, StepError>
    ensures { Reads as_refusal (rule.behind_par (rule.block room) reader.old) result reader.new }
{
    reader.keyword(Keyword::Par)?;
    read_block(reader, room)
}

#[cycle(statement)]
#[tactic(auto, unfolding(crate::specs::Reference::par_blocks))]
fn read_par_blocks(reader: &mut Reader<'_>, room: u8) -> Result<Items<BlockNode<Name>>, StepError>
    ensures { Reads as_refusal (rule.par_blocks (rule.block room) reader.old) result reader.new }
{
    let first = read_block(reader, room)?;
    let mut list = reader.start_list();
    list.push(first)?;
    'each: while reader.sees_keyword(Keyword::Par) {
        let branch = read_behind_par(reader, room)?;
        list.push(branch)?;
    }
    Ok(whole_list(list))
}

#[cycle(statement)]
#[tactic(auto, unfolding(crate::specs::Reference::fork, crate::specs::Reference::par_blocks))]
fn read_fork(reader: &mut Reader<'_>, room: u8) -> Result<StatementNode<Name>, StepError>
    ensures { Reads as_refusal (rule.fork (rule.block room) reader.old) result reader.new }
{
    let pos = reader.keyword(Keyword::Fork)?;
    let branches = read_par_blocks(reader, room)?;
    Ok(statement_at(pos, Statement::Fork(branches)))
}

#[cycle(statement)]
#[tactic(auto, unfolding(crate::specs::Reference::every))]
fn read_every(reader: &mut Reader<'_>, room: u8) -> Result<StatementNode<Name>, StepError>
    ensures { Reads as_refusal (rule.every (rule.block room) room reader.old) result reader.new }
{
    let pos = reader.keyword(Keyword::Every)?;
    let delay = read_delay(reader, room)?;
    let block = read_block(reader, room)?;
    Ok(statement_at(pos, Statement::Every(delay, block)))
}

#[cycle(statement)]
#[tactic(auto, unfolding(crate::specs::Reference::do_every))]
fn read_do_every(reader: &mut Reader<'_>, room: u8) -> Result<StatementNode<Name>, StepError>
    ensures { Reads as_refusal (rule.do_every (rule.block room) room reader.old) result reader.new }
{
    let pos = reader.keyword(Keyword::Do)?;
    let block = read_block(reader, room)?;
    reader.keyword(Keyword::Every)?;
    let delay = read_later(reader, room)?;
    reader.punct(Punct::Semicolon)?;
    Ok(statement_at(pos, Statement::DoEvery(block, delay)))
}

#[cycle(statement)]
#[tactic(auto, unfolding(crate::specs::Reference::abort))]
fn read_abort(reader: &mut Reader<'_>, room: u8) -> Result<StatementNode<Name>, StepError>
    ensures { Reads as_refusal (rule.abort (rule.block room) room reader.old) result reader.new }
{
    let pos = reader.keyword(Keyword::Abort)?;
    let delay = read_delay(reader, room)?;
    let block = read_block(reader, room)?;
    Ok(statement_at(pos, Statement::Abort(delay, block)))
}

#[cycle(statement)]
#[tactic(auto, unfolding(crate::specs::Reference::weak_abort))]
fn read_weak_abort(reader: &mut Reader<'_>, room: u8) -> Result<StatementNode<Name>, StepError>
    ensures { Reads as_refusal (rule.weak_abort (rule.block room) room reader.old) result reader.new }
{
    let pos = reader.keyword(Keyword::WeakAbort)?;
    let delay = read_delay(reader, room)?;
    let block = read_block(reader, room)?;
    Ok(statement_at(pos, Statement::WeakAbort(delay, block)))
}

#[cycle(statement)]
#[tactic(auto, unfolding(crate::specs::Reference::suspend))]
fn read_suspend(reader: &mut Reader<'_>, room: u8) -> Result<StatementNode<Name>, StepError>
    ensures { Reads as_refusal (rule.suspend (rule.block room) room reader.old) result reader.new }
{
    let pos = reader.keyword(Keyword::Suspend)?;
    let immediate = read_whether_immediate(reader)?;
    let test = reader.test(room)?;
    let block = read_block(reader, room)?;
    Ok(statement_at(pos, Statement::Suspend(immediate, test, block)))
}

#[cycle(statement)]
#[tactic(auto, unfolding(crate::specs::Reference::local))]
fn read_local(reader: &mut Reader<'_>, room: u8) -> Result<StatementNode<Name>, StepError>
    ensures { Reads as_refusal (rule.local (rule.block room) reader.old) result reader.new }
{
    let pos = reader.keyword(Keyword::Signal)?;
    let signals = read_list(reader)?;
    let block = read_block(reader, room)?;
    Ok(statement_at(pos, Statement::Signal(signals, block)))
}

#[cycle(statement)]
#[tactic(auto, unfolding(crate::specs::Reference::trap))]
fn read_trap(reader: &mut Reader<'_>, room: u8) -> Result<StatementNode<Name>, StepError>
    ensures { Reads as_refusal (rule.trap (rule.block room) reader.old) result reader.new }
{
    let pos = reader.keyword(Keyword::Trap)?;
    let (_, name) = reader.name()?;
    let block = read_block(reader, room)?;
    Ok(statement_at(pos, Statement::Trap(name, block)))
}

/// A block that is a statement stands where the block does.
#[cycle(statement)]
#[tactic(auto, unfolding(crate::specs::Reference::nested_block))]
fn read_nested(reader: &mut Reader<'_>, room: u8) -> Result<StatementNode<Name>, StepError>
    ensures { Reads as_refusal (rule.nested_block (rule.block room) reader.old) result reader.new }
{
    let block = read_block(reader, room)?;
    Ok(StatementNode {
        pos: block.pos,
        what: Statement::Block(block),
    })
}

#[cycle(statement)]
fn read_statement_by(
    reader: &mut Reader<'_>,
    word: Keyword,
    room: u8,
) -> Result<StatementNode<Name>, StepError>
    ensures { Reads as_refusal
        (rule.statement_by (rule.block room) room (Some (Terminal.Keyword word)) reader.old)
        result reader.new }
{
    match word {
        Keyword::Nothing => read_nothing(reader),
        Keyword::Pause => read_pause(reader),
        Keyword::Halt => read_halt(reader),
        Keyword::Emit => read_emit(reader, room),
        Keyword::Sustain => read_sustain(reader, room),
        Keyword::If => read_if_else(reader, room),
        Keyword::Loop => read_loop(reader, room),
        Keyword::Fork => read_fork(reader, room),
        Keyword::Await => read_await_delay(reader, room),
        Keyword::Every => read_every(reader, room),
        Keyword::Do => read_do_every(reader, room),
        Keyword::Abort => read_abort(reader, room),
        Keyword::WeakAbort => read_weak_abort(reader, room),
        Keyword::Suspend => read_suspend(reader, room),
        Keyword::Signal => read_local(reader, room),
        Keyword::Trap => read_trap(reader, room),
        Keyword::Break => read_break_out(reader),
        Keyword::Run => read_run(reader, room),
        Keyword::Async => read_async_call(reader, room),
        _ => read_nested(reader, room),
    }
}

#[cycle(statement)]
#[tactic(auto, unfolding(crate::specs::Reference::statement))]
fn read_statement(reader: &mut Reader<'_>, room: u8) -> Result<StatementNode<Name>, StepError>
    ensures { Reads as_refusal (rule.statement (rule.block room) room reader.old) result reader.new }
{
    match reader.kind() {
        Some(Terminal::Keyword(word)) => read_statement_by(reader, word, room),
        _ => read_nested(reader, room),
    }
}

#[cycle(statement)]
fn read_statements(
    reader: &mut Reader<'_>,
    room: u8,
) -> Result<Items<StatementNode<Name>>, StepError>
    ensures { Reads as_refusal
        (parser.many is_in_curly (rule.statement (rule.block room) room) reader.old) result reader.new }
{
    let mut list = reader.start_list();
    'each: while reader.sees_in_curly() {
        let statement = read_statement(reader, room)?;
        list.push(statement)?;
    }
    Ok(whole_list(list))
}

/// A block, where so many brackets may still be opened.
#[cycle(statement)]
#[tactic(auto, using(crate::proofs::Closings::block_opened), unfolding(crate::specs::Reference::block_with, grammar::specs::Parser::opened))]
pub(crate) fn read_block(reader: &mut Reader<'_>, room: u8) -> Result<BlockNode<Name>, StepError>
    ensures { Reads as_refusal (rule.block room reader.old) result reader.new }
{
    let (pos, left) = reader.open(Punct::LeftBrace, room)?;
    let statements = read_statements(reader, left)?;
    reader.punct(Punct::RightBrace)?;
    Ok(BlockNode {
        pos: Pos(pos),
        statements,
    })
}
