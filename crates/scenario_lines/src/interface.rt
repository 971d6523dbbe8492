//! The signals that the environment gives, by name.
ghost use Rattle.std.specs.Prelude.{◌≡◌, ◌≢◌, ℕ, All, IfOk, IfSome, OnOk, MatchOption};
ghost use Rattle.std.specs.Option.{option_copied};
ghost use Rattle.hh_term.specs.declared.program.SignalDecl.{SignalDecl as ADeclaration};
ghost use Rattle.scenario_lines.specs.Index.{IsIndex};
ghost use Rattle.scenario_lines.specs.Interface.{HasKind, HasNames, HasWords, IsGiven, given_name, is_given};

use hh_base::name::Name;
use hh_base::value::{Dir, Kind, NoMemory};
use hh_term::program::SignalDecl;
use std::alloc::Global;
use std::collections::HashMap;
use std::marker::Model;

/// The signals that the environment gives, found by name. Contracts see the declarations, of which no two that
/// the environment gives have one name.
#[derive(Drop)]
pub struct NameIndex<'a> {
    signals: &'a [SignalDecl],
    numbers: HashMap<&'a [u8], u32>,
}

impl<'a> Model for NameIndex<'a> {
    ghost use Rattle.std.specs.Prelude.{List};
    ghost use Rattle.hh_term.specs.declared.program.SignalDecl.{SignalDecl as ADeclaration};

    ghost Value = { List ADeclaration };

    ghost use Rattle.scenario_lines.specs.Named.{signals_of, IsIndexed};

    ghost view = { signals_of };

    ghost invariant = { IsIndexed };
}

fn is_given(dir: Dir) -> bool
    ensures { result ≡ is_given dir }
{
    matches!(dir, Dir::Input | Dir::Both)
}

/// The bytes of a name, of which none is a parenthesis.
fn word_of(name: &Name) -> &[u8]
    ensures bytes { result.now ≡ name.now }
    ensures word { All (λ b. b ≢ 40) name.now }
{
    name.as_str().as_bytes()
}

/// The bytes of the signal's name, if the environment gives it.
fn given_name(signal: &SignalDecl) -> Option<&[u8]>
    ensures name { option_copied result ≡ given_name signal.now }
    ensures word { IfSome result (λ name. All (λ b. b ≢ 40) name.now) }
{
    match &signal.name {
        Some(name) if is_given(signal.dir) => Some(word_of(name)),
        _ => None,
    }
}

/// The numbers of the signals that the environment gives, by their names.
fn number_names(alloc: Global, signals: &[SignalDecl]) -> Result<HashMap<&[u8], u32>, NoMemory>
    requires { HasNames signals.now }
    ensures index { IfOk result (IsIndex signals.now) }
    ensures words { OnOk result (HasWords signals.now) }
{
    let mut numbers = HashMap::new(alloc);
    for (number, signal) in signals.iter().enumerate() {
        if let Some(name) = given_name(signal) {
            numbers.insert(name, number as u32)?;
        }
    }
    Ok(numbers)
}

impl<'a> NameIndex<'a> {
    /// The index of declarations, of which no two that the environment gives have one name.
    pub fn new(alloc: Global, signals: &'a [SignalDecl]) -> Result<NameIndex<'a>, NoMemory>
        requires { HasNames signals.now }
        ensures signals { IfOk result (λ i. i ≡ signals.now) }
        ensures words { OnOk result (HasWords signals.now) }
    {
        Ok(NameIndex {
            signals,
            numbers: number_names(alloc, signals)?,
        })
    }

    /// The number and the kind of the signal that the environment gives and that has this name.
    pub fn find_input(&self, name: &[u8]) -> Option<(u32, Kind)>
        ensures input { MatchOption result ((s : ℕ) (d : ADeclaration) → IsGiven self.now name.now s d → ⊥)
            (λ p. HasKind self.now name.now p.0 p.1) }
        ensures words { HasWords self.now }
    {
        let number = *self.numbers.get(name)?;
        let signal = &self.signals[number as usize];
        Some((number, signal.kind))
    }
}
