//! The programs of texts.

use hh_term::program::{Program, SignalDecl};
use module_compile::compile::compile;
use std::alloc::Global;
use std::test::Fail;

pub fn compiled(alloc: Global, text: &str) -> Result<Program, Fail> {
    if text.len() >= 1 << 32 {
        return Err(Fail::new("the text is too long"));
    }
    match compile(alloc, text.as_bytes()) {
        Ok(program) => Ok(program),
        Err(_) => Err(Fail::new("the text is no program")),
    }
}

/// The name of a signal of the interface.
pub fn name_of(signal: &SignalDecl) -> &str {
    match &signal.name {
        Some(name) => name.as_str(),
        None => "",
    }
}
