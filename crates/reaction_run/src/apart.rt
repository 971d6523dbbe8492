//! Whether inputs are of different signals.

ghost use Rattle.std.specs.Prelude.{◌≡◌, ◌≢◌, ◌+◌, ◌<◌, ◌↔◌, IsTrue};
ghost use Rattle.std.specs.List.{AllByRecursion};
ghost use Rattle.hh_term.specs.Pairs.{EachPair};
ghost use Rattle.reaction_run.specs.declared.event.Input.{Input as AnInput};
ghost use Rattle.reaction_run.specs.declared.apart.TheConstants.{BLOCK};
ghost use Rattle.reaction_run.specs.Apart.{AreApart};

use crate::event::Input;

/// How many signals one pass over the inputs looks at.
const BLOCK: usize = 8_192;

/// Whether no two inputs name one signal of the block that begins here.
fn differ_within(from: usize, inputs: &[Input]) -> bool
    ensures { IsTrue result ↔ AreApart from (from + BLOCK) inputs.now }
{
    let mut seen = [false; BLOCK];
    for input in inputs {
        let signal = input.signal as usize;
        if signal >= from && signal - from < BLOCK {
            if seen[signal - from] {
                return false;
            }
            seen[signal - from] = true;
        }
    }
    true
}

/// Whether no two inputs, whose signals stand before this one, name one signal. Each block of signals costs a
/// pass over the inputs. Takes no memory.
pub fn all_differ(signals: usize, inputs: &[Input]) -> bool
    requires { AllByRecursion (λ i. i.signal < signals) inputs.now }
    ensures { IsTrue result ↔ EachPair (λ (i : AnInput) (j : AnInput). i.signal ≢ j.signal) inputs.now }
{
    let mut from = 0;
    while differ_within(from, inputs) {
        if signals - from <= BLOCK {
            return true;
        }
        from += BLOCK;
    }
    false
}
