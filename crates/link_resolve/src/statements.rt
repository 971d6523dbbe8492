//! Statements without parts, with their names resolved.

ghost use Rattle.std.specs.Prelude.{◌≡◌, IfOk, option_map};
ghost use Rattle.module_tree.specs.Scopes.{InScope};
ghost use Rattle.module_tree.specs.declared.source.Statement.TheVariants as v;
ghost use Rattle.link_faults.specs.Named.{module_named};
ghost use Rattle.link_faults.specs.Rows.{module_place};
ghost use Rattle.module_link.specs.Resolved.{resolved_async};
ghost use Rattle.module_link.specs.Resolved.{resolved, resolved_name, resolved_delay, resolved_bindings};
ghost use Rattle.module_link.specs.Resolved.{signal_place, trap_place, or_first};
ghost use Rattle.module_link.specs.Places.{ArePlaces, Shows};
ghost use Rattle.module_link.specs.Texts.{IsText};

use hh_base::memory::NoMemory;
use hh_base::name::Name;
use module_link::copies::copy_text;
use module_link::places::Places;
use module_link::text::Text;
use module_tree::source::{AsyncNode, Binding, Delay, ExprAt, NameAt, Statement};
use sqlite_items::Boxed;
use std::alloc::Global;

fn asynchronous(
    alloc: Global,
    text: &Text<'_>,
    places: &Places,
    node: &AsyncNode<Name>,
) -> Result<AsyncNode<u32>, NoMemory>
    requires places { ArePlaces places.now }
    requires text { IsText text.now }
    ensures { (c : InScope) → Shows places.now c → IfOk result (λ a. a ≡ resolved_async text.now.parts.now c
        node.now) }
{
    Ok(AsyncNode {
        signal: places.answer_at(&node.signal),
        body: NameAt {
            pos: node.body.pos,
            name: text.body_place(&node.body.name),
        },
        args: places.arguments(alloc, node.args.as_slice())?,
        kill: copy_text(alloc, &node.kill)?,
        suspend: copy_text(alloc, &node.suspend)?,
        resume: copy_text(alloc, &node.resume)?,
    })
}

pub fn emit(
    alloc: Global,
    places: &Places,
    name: &NameAt<Name>,
    value: &Option<ExprAt<Name>>,
) -> Result<Statement<u32>, NoMemory>
    requires { ArePlaces places.now }
    ensures { (c : InScope) → Shows places.now c → IfOk result (λ s. s ≡ v.Emit
        (resolved_name (signal_place c) name.now) (option_map (resolved c) value.now)) }
{
    let value = places.value(alloc, value)?;
    Ok(Statement::Emit(places.signal_at(name), value))
}

pub fn sustain(
    alloc: Global,
    places: &Places,
    name: &NameAt<Name>,
    value: &Option<ExprAt<Name>>,
) -> Result<Statement<u32>, NoMemory>
    requires { ArePlaces places.now }
    ensures { (c : InScope) → Shows places.now c → IfOk result (λ s. s ≡ v.Sustain
        (resolved_name (signal_place c) name.now) (option_map (resolved c) value.now)) }
{
    let value = places.value(alloc, value)?;
    Ok(Statement::Sustain(places.signal_at(name), value))
}

pub fn awaits(
    alloc: Global,
    places: &Places,
    delay: &Delay<Name>,
) -> Result<Statement<u32>, NoMemory>
    requires { ArePlaces places.now }
    ensures { (c : InScope) → Shows places.now c
        → IfOk result (λ s. s ≡ v.Await (resolved_delay c delay.now)) }
{
    let delay = places.delay(alloc, delay)?;
    Ok(Statement::Await(delay))
}

pub fn breaks(places: &Places, name: &NameAt<Name>) -> Statement<u32>
    requires { ArePlaces places.now }
    ensures { (c : InScope) → Shows places.now c → result ≡ v.Break (resolved_name (trap_place c) name.now) }
{
    Statement::Break(places.trap_at(name))
}

pub fn run(
    alloc: Global,
    text: &Text<'_>,
    places: &Places,
    callee: &NameAt<Name>,
    written: &[Binding<Name>],
) -> Result<Statement<u32>, NoMemory>
    requires places { ArePlaces places.now }
    requires text { IsText text.now }
    ensures { (c : InScope) → Shows places.now c → IfOk result (λ s. s ≡ v.Run
        (resolved_name (λ m. or_first (module_place text.now.parts.now m)) callee.now)
        (resolved_bindings c callee.now.pos written.now (module_named text.now.parts.now
        callee.now.name))) }
{
    let bindings = places.bindings(alloc, text, callee, written)?;
    let callee = NameAt {
        pos: callee.pos,
        name: text.module_place(&callee.name),
    };
    Ok(Statement::Run(callee, bindings))
}

pub fn tested(
    alloc: Global,
    places: &Places,
    test: &Boxed<ExprAt<Name>>,
) -> Result<Boxed<ExprAt<u32>>, NoMemory>
    requires { ArePlaces places.now }
    ensures { (c : InScope) → Shows places.now c → IfOk result (λ e. e ≡ resolved c test.now) }
{
    let test = places.expression(alloc, test.get())?;
    Ok(Boxed::new(alloc, test)?)
}

pub fn starts(
    alloc: Global,
    text: &Text<'_>,
    places: &Places,
    node: &Boxed<AsyncNode<Name>>,
) -> Result<Statement<u32>, NoMemory>
    requires places { ArePlaces places.now }
    requires text { IsText text.now }
    ensures { (c : InScope) → Shows places.now c → IfOk result (λ s. s ≡ v.Async
        (resolved_async text.now.parts.now c node.now)) }
{
    let node = asynchronous(alloc, text, places, node.get())?;
    Ok(Statement::Async(Boxed::new(alloc, node)?))
}
