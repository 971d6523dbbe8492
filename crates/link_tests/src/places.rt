//! Texts that are linked, and the places that stand for names in their main modules.

use link_resolve::link::link;
use module_reader::read::read;
use module_tree::linked::Linked;
use module_tree::source::{Binding, Part, Statement, StatementNode};
use std::alloc::Global;
use std::test::Fail;

/// A text, and the places of what its main module's statements name, behind scopes that hold all others.
const PLACES: [(&str, &str); 12] = [
    ("module f() { } body f(a: int): int { a }", ""),
    ("module M(in A, out B) { emit B; sustain B; }", "1 1"),
    ("module M(in S) { signal S { emit S; } }", "1"),
    (
        "module M(out O) { signal A, O, B { emit B; emit O; emit A; } }",
        "3 2 1",
    ),
    (
        "module M(out O) { signal A { } emit O; signal B { emit O; emit B; } }",
        "- 0 -",
    ),
    (
        "module M() { trap T { trap T { break T; } break T; } }",
        "- 0",
    ),
    (
        "module M() { trap T { trap U { trap V { break T; break V; break U; } } } }",
        "0 2 1",
    ),
    ("module M() { trap T { } trap T { break T; } }", "- -"),
    (
        "module M(in A) { run N(); run N(A = A); } module N(in A) { }",
        "1(0=0) 1(0=0)",
    ),
    (
        "module M(in A, out B) { signal A { run N(Z = A, X = B); } } module L() { } module N(out X, in B, inout Z) { }",
        "2(0=1, 1=1, 2=2)",
    ),
    (
        "module A() { run B(); run C(); } module B() { run C(); } module C() { }",
        "1() 2()",
    ),
    (
        "host g(): int; module M(out V: int) { async (V) call f(); async call g(); async (V) call g(); } body f(): int { 1 }",
        "1>0 0 0>0",
    ),
];

/// The statements of the first module, without the scopes that hold all of them.
fn innermost(linked: &Linked) -> &[StatementNode<u32>] {
    let mut statements = main_statements(linked);
    for _ in 0..8 {
        match statements {
            [
                StatementNode {
                    what: Statement::Signal(_, block) | Statement::Trap(_, block),
                    ..
                },
            ] => statements = block.statements.as_slice(),
            _ => return statements,
        }
    }
    statements
}

fn main_statements(linked: &Linked) -> &[StatementNode<u32>] {
    for part in linked.parts() {
        if let Part::Module(module) = part {
            return module.block.statements.as_slice();
        }
    }
    &[]
}

fn bindings(alloc: Global, bindings: &[Binding<u32>]) -> Result<String, Fail> {
    let mut text = String::new(alloc);
    for binding in bindings {
        let parting = if text.is_empty() { "" } else { ", " };
        write!(
            text,
            "{parting}{}={}",
            binding.left.name, binding.right.name
        )?;
    }
    Ok(text)
}

fn places(alloc: Global, statement: &Statement<u32>) -> Result<String, Fail> {
    Ok(match statement {
        Statement::Emit(name, _) | Statement::Sustain(name, _) | Statement::Break(name) => {
            format!(in alloc; "{}", name.name)?
        }
        Statement::Run(module, bound) => {
            let bound = bindings(alloc, bound.as_slice())?;
            format!(in alloc; "{}({bound})", module.name)?
        }
        Statement::Async(call) => match &call.get().signal {
            Some(signal) => format!(in alloc; "{}>{}", call.get().body.name, signal.name)?,
            None => format!(in alloc; "{}", call.get().body.name)?,
        },
        _ => String::from_str(alloc, "-")?,
    })
}

fn all_places(alloc: Global, text: &str) -> Result<String, Fail> {
    if text.len() >= 1 << 32 {
        return Err(Fail::new("the text is too long"));
    }
    let linked = link(alloc, &read(alloc, text)?)?;
    let mut found = String::new(alloc);
    for node in innermost(&linked) {
        let parting = if found.is_empty() { "" } else { " " };
        let next = places(alloc, &node.what)?;
        write!(found, "{parting}{next}")?;
    }
    Ok(found)
}

/// Whether names of each text have the places behind it.
fn find_each(alloc: Global, rows: &[(&str, &str)]) -> Result<(), Fail> {
    for (text, want) in rows {
        let found = all_places(alloc, text)?;
        if found.as_str() != *want {
            return Err(Fail::new(format!(in alloc; "{found}: {text}")?));
        }
    }
    Ok(())
}

#[test]
fn names_have_places(rt: HostRuntime) -> Result<(), Fail> {
    find_each(rt.alloc(), &PLACES)
}
