//! Texts at the limits, and texts that are refused. Those that are read are printed too, in crate play_tests.

mod limits;
mod refusals;

use module_reader::read::read;
use std::alloc::{AllocError, Global};

fn is_read(alloc: Global, text: &str) -> bool {
    text.len() < 1 << 32 && read(alloc, text).is_ok()
}

fn is_refused(alloc: Global, text: &str, kind: &str, pos: u32) -> bool {
    if text.len() >= 1 << 32 {
        return false;
    }
    match read(alloc, text) {
        Ok(_) => false,
        Err(fault) => fault.word() == kind && fault.place() == pos,
    }
}

fn push_times(text: &mut String, piece: &str, count: usize) -> Result<(), AllocError> {
    for _ in 0..count {
        text.push_str(piece)?;
    }
    Ok(())
}

/// The pieces one after another, each so often.
fn repeated(alloc: Global, pieces: &[(&str, usize)]) -> Result<String, AllocError> {
    let mut text = String::from_str(alloc, "")?;
    for (piece, count) in pieces.iter() {
        push_times(&mut text, piece, *count)?;
    }
    Ok(text)
}
