//! A program and its scenario, made from a seed.

ghost use Rattle.std.specs.Prelude.{◌≡◌, ◌≤◌, ◌+◌, ◌*◌, ◌++◌, IfOk, OnOk, codes, length};
ghost use Rattle.scenario_make.specs.Make as spec;

use hh_base::memory::NoMemory;
use std::alloc::Global;

/// How many reactions a scenario has.
const REACTIONS: u32 = 100;

/// The number behind this one, in a sequence that goes through all numbers of 64 bits.
fn next(number: u64) -> u64
    ensures { result ≡ spec.next number }
{
    number
        .wrapping_mul(6364136223846793005)
        .wrapping_add(1442695040888963407)
}

/// The template that a number chooses.
fn chosen(number: u64) -> &'static str
    ensures { result.now ≡ spec.chosen number }
{
    match (number >> 33) % 3 {
        0 => "loop { emit N(1); pause; }",
        1 => "every (A.now) { emit N(2); }",
        _ => "abort count(3, A.now) { sustain N(3); }",
    }
}

/// The word that a branch begins with, with so many branches before it.
fn word_of(before: u32) -> &'static str
    ensures { result.now ≡ spec.word_of (before + 1) }
{
    if before == 0 { "fork" } else { "par" }
}

/// Adds a branch, which begins with this word.
fn add_branch(word: &str, number: u64, text: &mut Vec<u8>) -> Result<(), NoMemory>
    ensures { OnOk result (text.new.items ≡ text.old.items ++
        (word.now ++ codes " { " ++ spec.chosen number ++ codes " }\n")) }
{
    text.extend_from_slice(word.as_bytes())?;
    text.extend_from_slice(b" { ")?;
    text.extend_from_slice(chosen(number).as_bytes())?;
    Ok(text.extend_from_slice(b" }\n")?)
}

/// Adds the branches of the fork, whose numbers follow the seed.
#[tactic(auto, unfolding(crate::specs::Make::lines_up_to))]
fn add_branches(seed: u32, size: u32, text: &mut Vec<u8>) -> Result<(), NoMemory>
    ensures { OnOk result (text.new.items ≡ text.old.items ++ spec.lines_up_to size (spec.branch_line seed)) }
{
    let mut number = u64::from(seed);
    'branches: for before in 0..size {
        number = next(number);
        add_branch(word_of(before), number, text)?;
    }
    Ok(())
}

/// Adds the reactions of the scenario.
#[tactic(auto, unfolding(crate::specs::Make::lines_up_to))]
fn add_reactions(text: &mut Vec<u8>) -> Result<(), NoMemory>
    ensures { OnOk result (text.new.items ≡ text.old.items ++ spec.lines_up_to 100 spec.reaction_line) }
{
    'reactions: for before in 0..REACTIONS {
        let has_input = before % 2 == 1;
        let line: &[u8] = if has_input { b"react A\n" } else { b"react\n" };
        text.extend_from_slice(line)?;
    }
    Ok(())
}

/// A module that is a fork of `size` branches, each one of three that the numbers from the seed on choose,
/// and a scenario of 100 reactions, of which each second one has the input `A`. With no branches the block is
/// empty.
pub fn make(alloc: Global, seed: u32, size: u32) -> Result<Vec<u8>, NoMemory>
    ensures made { IfOk result (λ text. text.items ≡ spec.made seed size) }
    ensures few { IfOk result (λ text. length text.items ≤ 8192 + 64 * size) }
{
    let mut text = Vec::new(alloc);
    text.extend_from_slice(b"module Gen(in A, out N: int combine plus) {\n")?;
    add_branches(seed, size, &mut text)?;
    text.extend_from_slice(b"}\n%% scenario\n")?;
    add_reactions(&mut text)?;
    Ok(text)
}
