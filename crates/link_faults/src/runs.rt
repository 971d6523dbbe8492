//! The first faults of `async` and of `run`, where names mean this.

ghost use Rattle.std.specs.Prelude.{◌≡◌, ◌∷◌, ◌||◌, List, Some, None, cond, map, option_map, IfOk};
ghost use Rattle.std.specs.Option.{option_copied};
ghost use Rattle.module_tree.specs.declared.source.ExprAt.{ExprAt as AnExprAt};
ghost use Rattle.link_faults.specs.declared.fault.LinkKind.TheVariants.{KindWrong as AKindWrong};
ghost use Rattle.link_faults.specs.Faults.{earlier};
ghost use Rattle.link_faults.specs.Earliest.{first_at};
ghost use Rattle.module_tree.specs.declared.source.Binding.{Binding as ABinding};
ghost use Rattle.link_faults.specs.declared.fault.LinkKind.{LinkKind as ALinkKind};
ghost use Rattle.link_faults.specs.declared.fault.LinkKind.TheVariants.{TwiceDeclared as ATwice};
ghost use Rattle.link_faults.specs.Named.{Name as AName, interface_named};
ghost use Rattle.link_faults.specs.Rows.{wrong_result};
ghost use Rattle.link_faults.specs.Meanings.{kind_of_signal, kind_of_parameter, meaning, meaning_of};
ghost use Rattle.link_faults.specs.Meanings.{node_meaning};
ghost use Rattle.link_faults.specs.RunFaults.{first_arguments, first_answered, first_called, first_start};
ghost use Rattle.link_faults.specs.RunFaults.{means_input, means_emitted, kinds_differ, first_bound};
ghost use Rattle.link_faults.specs.RunFaults.{first_implied, first_right, first_bindings, first_unbound};
ghost use Rattle.link_faults.specs.RunFaults.{first_in_run, first_call, left_name};
ghost use Rattle.link_faults.specs.NameTables.{IsTable, has_name, interface_name};

use crate::fault::{LinkFault, LinkKind, earlier};
use crate::judge::unknown_at;
use crate::names::{Meaning, Names};
use crate::parts::{fault_if, first_anywhere, first_emitted, first_expected, is_input, is_kind};
use crate::table::{Table, table_of};
use crate::text::Callable;
use hh_base::memory::NoMemory;
use hh_base::name::Name;
use hh_base::value::{Kind, Pos};
use module_tree::source::{AsyncNode, Binding, ExprAt, InterfaceNode, NameAt};
use sqlite_items::at;
use std::alloc::Global;

/// Of an argument, and the kinds of the parameters behind its own.
fn first_argument<'a>(
    names: &Names,
    kinds: &'a [Kind],
    x: &ExprAt<Name>,
) -> (Option<LinkFault>, &'a [Kind])
    ensures { (rest : List (AnExprAt AName)) → first_arguments (kind_of_signal names.now)
        (kind_of_parameter names.now) kinds.now (x.now ∷ rest) ≡ earlier result.0 (first_arguments
        (kind_of_signal names.now) (kind_of_parameter names.now) result.1.now rest) }
{
    match kinds.split_first() {
        None => (first_anywhere(names, x), kinds),
        Some((kind, others)) => (first_expected(names, *kind, x), others),
    }
}

/// Of arguments, where the parameters have these kinds.
fn first_arguments(names: &Names, kinds: &[Kind], args: &[ExprAt<Name>]) -> Option<LinkFault>
    ensures { result ≡ first_arguments (kind_of_signal names.now) (kind_of_parameter names.now) kinds.now
        args.now }
{
    let mut first = None;
    let mut left = kinds;
    'each: for arg in args {
        let (found, others) = first_argument(names, left, arg);
        first = earlier(first, found);
        left = others;
    }
    first
}

fn first_answered(names: &Names, signal: &Option<NameAt<Name>>) -> Option<LinkFault>
    ensures { result ≡ first_answered (meaning_of names.now) signal.now }
{
    match signal {
        None => None,
        Some(name) => first_emitted(name, names.signal(&name.name)),
    }
}

fn wrong_result(names: &Names, answer: Kind, signal: &Option<NameAt<Name>>) -> Option<LinkFault>
    ensures { result ≡ first_at AKindWrong (wrong_result (kind_of_signal names.now) answer signal.now) }
{
    match signal {
        None => None,
        Some(name) => match names.kind_of_signal(&name.name) {
            None => None,
            Some(own) => fault_if(!is_kind(answer, own), name.pos, LinkKind::KindWrong),
        },
    }
}

fn first_called(names: &Names, node: &AsyncNode<Name>, body: Option<&Callable>) -> Option<LinkFault>
    ensures { result ≡ first_called (kind_of_signal names.now) (kind_of_parameter names.now) node.now
        (option_copied body.entry) }
{
    let args = node.args.as_slice();
    match body {
        None => {
            let unknown = Some(LinkFault {
                pos: node.body.pos,
                kind: LinkKind::UnknownBody,
            });
            earlier(unknown, first_arguments(names, &[], args))
        }
        Some(callable) => {
            let kinds = callable.parameters.as_slice();
            let count = fault_if(
                kinds.len() != args.len(),
                node.body.pos,
                LinkKind::KindWrong,
            );
            let result = wrong_result(names, callable.answer, &node.signal);
            earlier(count, earlier(first_arguments(names, kinds, args), result))
        }
    }
}

/// Of `async`, where its body's name means this.
pub fn first_start(
    names: &Names,
    node: &AsyncNode<Name>,
    body: Option<&Callable>,
) -> Option<LinkFault>
    ensures { result ≡ first_start (meaning_of names.now) (kind_of_parameter names.now) node.now
        (option_copied body.entry) }
{
    earlier(
        first_answered(names, &node.signal),
        first_called(names, node, body),
    )
}

fn means_input(meant: Option<Meaning>) -> bool
    ensures { result ≡ means_input meant }
{
    match meant {
        None => false,
        Some(meaning) => is_input(meaning.dir),
    }
}

fn means_emitted(meant: Option<Meaning>) -> bool
    ensures { result ≡ means_emitted meant }
{
    match meant {
        None => false,
        Some(meaning) => !is_input(meaning.dir),
    }
}

fn kinds_differ(left: Option<Meaning>, right: Option<Meaning>) -> bool
    ensures { result ≡ kinds_differ left right }
{
    match (left, right) {
        (Some(left), Some(right)) => !is_kind(left.kind, right.kind),
        _ => false,
    }
}

/// Of a binding that is written.
fn first_bound(
    left: Option<Meaning>,
    right: Option<Meaning>,
    binding: &Binding<Name>,
) -> Option<LinkFault>
    ensures { result ≡ first_bound left right binding.now }
{
    let emits = means_emitted(left) && means_input(right);
    let bad = left.is_none() || kinds_differ(left, right);
    earlier(
        fault_if(emits, binding.right.pos, LinkKind::EmitsInput),
        fault_if(bad, binding.left.pos, LinkKind::BadBinding),
    )
}

/// Of a signal of the interface that is not bound.
fn first_implied(pos: Pos, left: Meaning, right: Option<Meaning>) -> Option<LinkFault>
    ensures { result ≡ first_implied pos left right }
{
    let emits = !is_input(left.dir) && means_input(right);
    let bad = right.is_none() || kinds_differ(Some(left), right);
    earlier(
        fault_if(emits, pos, LinkKind::EmitsInput),
        fault_if(bad, pos, LinkKind::BadBinding),
    )
}

fn meaning(node: &InterfaceNode) -> Meaning
    ensures { result ≡ node_meaning node.now }
{
    Meaning {
        kind: node.signal.kind,
        dir: node.dir,
    }
}

/// What a name means in an interface, whose names are in the table.
fn meaning_in(table: &Table, interface: &[InterfaceNode], name: &Name) -> Option<Meaning>
    ensures { (k : ALinkKind) → IsTable k (map interface_name interface.now) table.now
        → result ≡ option_map meaning (interface_named interface.now name.now) }
{
    match table.place(name) {
        None => None,
        Some(place) => match at(interface, place) {
            None => None,
            Some(node) => Some(meaning(node)),
        },
    }
}

/// Of the right names of bindings.
fn first_right(names: &Names, bindings: &[Binding<Name>]) -> Option<LinkFault>
    ensures { result ≡ first_right (meaning_of names.now) bindings.now }
{
    let mut first = None;
    'rights: for binding in bindings {
        let right = &binding.right;
        first = earlier(
            first,
            unknown_at(right.pos, names.kind_of_signal(&right.name)),
        );
    }
    first
}

/// Of the bindings that are written, but for left names that stand twice.
fn first_bindings(
    names: &Names,
    bindings: &[Binding<Name>],
    table: &Table,
    interface: &[InterfaceNode],
) -> Option<LinkFault>
    ensures { (k : ALinkKind) → IsTable k (map interface_name interface.now) table.now
        → result ≡ first_bindings (meaning_of names.now) bindings.now interface.now }
{
    let mut first = None;
    'written: for binding in bindings {
        let left = meaning_in(table, interface, &binding.left.name);
        let right = names.signal(&binding.right.name);
        first = earlier(first, first_bound(left, right, binding));
    }
    first
}

fn is_among(seen: &Table, lefts: &Table, name: &Name) -> bool
    ensures { result ≡ (has_name seen.now name.now || has_name lefts.now name.now) }
{
    seen.has(name) || lefts.has(name)
}

/// Of a signal of the interface, unless it is bound.
fn unless_bound(names: &Names, pos: Pos, bound: bool, node: &InterfaceNode) -> Option<LinkFault>
    ensures { result ≡ cond bound None (first_implied pos (node_meaning node.now)
        (meaning_of names.now node.now.signal.name)) }
{
    if bound {
        None
    } else {
        first_implied(pos, meaning(node), names.signal(&node.signal.name))
    }
}

/// The table of an interface, and the first fault of a signal of it that is not bound.
fn first_unbound(
    alloc: Global,
    names: &Names,
    pos: Pos,
    lefts: &Table,
    interface: &[InterfaceNode],
) -> Result<(Table, Option<LinkFault>), NoMemory>
    ensures table { IfOk result (λ r. IsTable ATwice (map interface_name interface.now) r.0) }
    ensures first { (k : ALinkKind) (bindings : List (ABinding AName)) → IsTable k (map left_name bindings)
        lefts.now → IfOk result (λ r. r.1 ≡ first_unbound (meaning_of names.now) pos bindings interface.now) }
{
    let mut seen = Table::new(alloc, LinkKind::TwiceDeclared);
    let mut first = None;
    'nodes: for place in 0..interface.len() {
        let node = &interface[place];
        let bound = is_among(&seen, lefts, &node.signal.name);
        first = earlier(first, unless_bound(names, pos, bound, node));
        seen.declare(alloc, node.signal.pos, &node.signal.name, place)?;
    }
    Ok((seen, first))
}

fn first_in_run(
    alloc: Global,
    names: &Names,
    callee: &NameAt<Name>,
    bindings: &[Binding<Name>],
    interface: &[InterfaceNode],
) -> Result<Option<LinkFault>, NoMemory>
    ensures { IfOk result (λ v. v ≡ first_in_run (meaning_of names.now) callee.now bindings.now
        (Some interface.now)) }
{
    let lefts = table_of(alloc, LinkKind::BadBinding, bindings)?;
    let (table, unbound) = first_unbound(alloc, names, callee.pos, &lefts, interface)?;
    let bound = first_bindings(names, bindings, &table, interface);
    Ok(earlier(lefts.first(), earlier(bound, unbound)))
}

/// Of `run`, where its module has this interface.
pub fn first_call(
    alloc: Global,
    names: &Names,
    callee: &NameAt<Name>,
    bindings: &[Binding<Name>],
    interface: Option<&[InterfaceNode]>,
) -> Result<Option<LinkFault>, NoMemory>
    ensures { IfOk result (λ v. v ≡ first_call (meaning_of names.now) callee.now bindings.now
        (option_copied interface.entry)) }
{
    let right = first_right(names, bindings);
    match interface {
        None => Ok(earlier(
            right,
            Some(LinkFault {
                pos: callee.pos,
                kind: LinkKind::UnknownModule,
            }),
        )),
        Some(interface) => {
            let found = first_in_run(alloc, names, callee, bindings, interface)?;
            Ok(earlier(right, found))
        }
    }
}
