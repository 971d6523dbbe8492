//! A tree, and the text that is printed of it.

ghost use Rattle.std.specs.Prelude.{◌≡◌, [], ◌∷◌, true, Some, IfSome, codes};
ghost use Rattle.module_tree.specs.SourceWords.{is_written_name};
ghost use Rattle.module_tree.specs.SourceForms.{fits_block, fits_interface};
ghost use Rattle.module_tree.specs.SourceNesting.{nesting_of_block};
ghost use Rattle.module_tree.specs.Source.{is_source};
ghost use Rattle.module_tree.specs.DeclaredAt.{declared_signal, declared_in_block, declared_in};

use hh_base::name::Name;
use hh_base::value::{Dir, Kind, Pos};
use module_printer::print::print;
use module_tree::source::{
    BlockNode, InterfaceNode, ModuleNode, Modules, NameAt, Part, SignalNode, Statement,
    StatementNode,
};
use sqlite_items::Items;
use std::alloc::Global;

fn name(alloc: Global, text: &str) -> Option<Name>
    ensures { IfSome result (λ n. n ≡ text.now) }
{
    Name::read(alloc, text).ok()
}

fn is_printed(bytes: Option<Vec<u8>>, text: &str) -> bool {
    match bytes {
        None => false,
        Some(bytes) => bytes.as_slice() == text.as_bytes(),
    }
}

/// `{ pause; emit SIGNAL; }`.
fn pause_and_emit(alloc: Global, signal: &str) -> Option<BlockNode<Name>>
    ensures fits { IfSome result (λ b. fits_block b ≡ is_written_name signal.now) }
    ensures flat { IfSome result (λ b. nesting_of_block b ≡ 1) }
    ensures silent { IfSome result (λ b. declared_in_block b ≡ []) }
{
    let name = name(alloc, signal)?;
    let emit = Statement::Emit(NameAt { pos: Pos(23), name }, None);
    let mut statements = Items::new(alloc);
    statements
        .push(StatementNode {
            pos: Pos(16),
            what: Statement::Pause,
        })
        .ok()?;
    statements
        .push(StatementNode {
            pos: Pos(23),
            what: emit,
        })
        .ok()?;
    Some(BlockNode {
        pos: Pos(14),
        statements,
    })
}

/// `out SIGNAL`.
fn output(alloc: Global, signal: &str) -> Option<InterfaceNode>
    ensures fits { IfSome result (λ d. fits_interface d ≡ is_written_name signal.now) }
    ensures named { IfSome result (λ d. declared_signal d.signal
        ≡ record { pos = record { 0 = 13 }; name = Some signal.now }) }
{
    let name = name(alloc, signal)?;
    let signal = SignalNode {
        pos: Pos(13),
        name,
        kind: Kind::Pure,
        first: None,
        combine: None,
    };
    Some(InterfaceNode {
        dir: Dir::Output,
        signal,
    })
}

/// `module M(out O) { pause; emit O; }`.
#[tactic(auto, using(crate::proofs::TestNames::m_is_written, crate::proofs::TestNames::o_is_written))]
fn one_module(alloc: Global) -> Option<Items<Part<Name>>>
    ensures source { IfSome result (λ parts. is_source parts ≡ true) }
    ensures one { IfSome result (λ parts. declared_in parts
        ≡ record { pos = record { 0 = 13 }; name = Some (codes "O") } ∷ []) }
{
    let name = name(alloc, "M")?;
    let mut interface = Items::new(alloc);
    interface.push(output(alloc, "O")?).ok()?;
    let block = pause_and_emit(alloc, "O")?;
    let mut parts = Items::new(alloc);
    let module = ModuleNode {
        pos: Pos(7),
        name,
        interface,
        block,
    };
    parts.push(Part::Module(module)).ok()?;
    Some(parts)
}

#[tactic(auto, using(crate::proofs::TestNames::one_has_its_name))]
fn printed_module(alloc: Global) -> Option<Vec<u8>> {
    let modules = Modules::new(one_module(alloc)?);
    print(alloc, &modules).ok()
}

#[test]
fn prints_a_module(rt: HostRuntime) {
    let alloc = rt.alloc();
    let text = "module M ( out O ) { pause ; emit O ; }\n";
    assert!(rt; is_printed(printed_module(alloc), text));
}
