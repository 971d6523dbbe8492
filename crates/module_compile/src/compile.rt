//! The compiler of module texts.

ghost use Rattle.std.specs.Prelude.{◌≡◌, ◌<◌, ◌^◌, length};
ghost use Rattle.module_compile.specs.Compiling.{Compiles, ExpandsFrom, LinksFrom, unread};

use crate::fault::{CompileError, ModuleFault};
use hh_base::value::Pos;
use hh_term::program::Program;
use kernel_build::expand::expand;
use kernel_expand::fault::ExpandFault;
use link_resolve::link::{LinkError, link};
use module_reader::fault::ReadFault;
use module_reader::read::read;
use module_tree::linked::Linked;
use module_tree::source::Modules;
use std::alloc::Global;

/// The program of a linked text.
fn expand_linked(alloc: Global, linked: &Linked) -> Result<Program, CompileError>
    ensures { ExpandsFrom linked.now result }
{
    match expand(alloc, linked) {
        Ok(program) => Ok(program),
        Err(ExpandFault::NoMemory) => Err(CompileError::NoMemory),
        Err(fault) => Err(CompileError::Fault(ModuleFault::Expand(fault))),
    }
}

/// The program of a text that was read.
fn compile_tree(alloc: Global, modules: &Modules) -> Result<Program, CompileError>
    ensures { LinksFrom modules.now result }
{
    match link(alloc, modules) {
        Ok(linked) => expand_linked(alloc, &linked),
        Err(LinkError::Fault(fault)) => Err(CompileError::Fault(ModuleFault::Link(fault))),
        Err(LinkError::NoMemory) => Err(CompileError::NoMemory),
    }
}

fn unread(fault: ReadFault) -> CompileError
    ensures { result ≡ unread fault }
{
    match fault {
        ReadFault::NoMemory => CompileError::NoMemory,
        _ => CompileError::Fault(ModuleFault::Read(fault)),
    }
}

/// The program of a text.
fn compile_text(alloc: Global, text: &str) -> Result<Program, CompileError>
    requires { length text.now < 2 ^ 32 }
    ensures { Compiles text.now result }
{
    match read(alloc, text) {
        Ok(modules) => compile_tree(alloc, &modules),
        Err(fault) => Err(unread(fault)),
    }
}

/// The kernel program of the main module of a text of fewer than 2^32 bytes: what is read, linked and
/// expanded, with the positions of its nodes.
///
/// # Errors
/// The first refusal: a byte that is not UTF-8, the first fault of the tokens or the grammar, that of names,
/// kinds and runs, or the first limit that the expansion passes; or want of memory.
pub fn compile(alloc: Global, text: &[u8]) -> Result<Program, CompileError>
    requires { length text.now < 2 ^ 32 }
    ensures { Compiles text.now result }
{
    match str::from_utf8(text) {
        Ok(text) => compile_text(alloc, text),
        Err(error) => Err(CompileError::Fault(ModuleFault::NotUtf8(Pos(
            error.valid_up_to() as u32,
        )))),
    }
}
