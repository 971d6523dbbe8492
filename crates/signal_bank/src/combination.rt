//! What several emissions of one signal in one reaction combine to.
ghost use Rattle.std.specs.Prelude.{◌≡◌, ◌≢◌, ◌↔◌, ◌∷◌, ◌+ℤ◌, [], true, false, not, length, IsTrue, IfOk};
ghost use Rattle.std.specs.Prelude.{OnErr};
ghost use Rattle.std.specs.List.{list_any, list_all};
ghost use Rattle.hh_base.specs.Value.{kind_of};
ghost use Rattle.hh_base.specs.declared.value.Value.{Value as AValue};
ghost use Rattle.hh_base.specs.declared.value.Value.TheVariants as value;
ghost use Rattle.hh_base.specs.declared.value.Kind.TheVariants as kind;
ghost use Rattle.host_expr.specs.Combination.{combined, combined_by, is_several, is_overflowed};
ghost use Rattle.host_expr.specs.Combination.{numbers_in, truths_in, whole_sum, least_of, greatest_of};
ghost use Rattle.host_expr.specs.Combination.{all_of, any_of};
ghost use Rattle.hh_term.specs.Fits.{WordFits, kind_of_word};
ghost use Rattle.signal_bank.specs.BagKind.{kind_of_bag, AreOfOneKind};
ghost use Rattle.signal_bank.specs.Outcome.{outcome};
ghost use Rattle.signal_bank.specs.Truth.{is_true, is_false};

use crate::bag::Bag;
use hh_base::value::{CombineWord, NoMemory, Value};
use std::alloc::Global;

/// What a bag combines to.
#[derive(Drop)]
pub enum Combined {
    Single(Value),
    /// Two or more values without a combine word.
    Several,
    /// A sum outside 64 bits.
    Overflowed,
}

/// What the emissions combine to: `Several` exactly where there are two or more values other than `Unit` and
/// no word, `Overflowed` exactly where the word is `Plus` and the whole sum is outside 64 bits, else the value.
/// The order of the emissions does not matter. Memory can run out only where there is one value, which is
/// copied.
pub fn combine(alloc: Global, bag: &Bag, word: Option<CombineWord>) -> Result<Combined, NoMemory>
    requires filled { bag.now ≢ [] }
    requires one_kind { AreOfOneKind bag.now }
    requires fits { WordFits (kind_of_bag bag.now) word }
    ensures outcome { IfOk result (λ c. c ≡ outcome word bag.now) }
    ensures several { (result ≡ Ok Combined.Several)
        ↔ (is_several (kind_of_bag bag.now) word bag.now ≡ true) }
    ensures overflowed { (result ≡ Ok Combined.Overflowed) ↔ (is_overflowed word bag.now ≡ true) }
    ensures single { IfOk result (λ c. (v : AValue) → (c ≡ Combined.Single v)
        ↔ ((is_several (kind_of_bag bag.now) word bag.now ≡ false) × (is_overflowed word bag.now ≡ false)
        × (v ≡ combined (kind_of_bag bag.now) word bag.now))) }
    ensures memory { OnErr result (length bag.now ≡ 1) }
{
    match bag.as_slice() {
        [] => unreachable!(),
        [value] => Ok(Combined::Single(value.copy(alloc)?)),
        [first, rest @ ..] => Ok(combine_several(first, rest, word)),
    }
}

/// Two or more values.
fn combine_several(first: &Value, rest: &[Value], word: Option<CombineWord>) -> Combined
    requires more { rest.now ≢ [] }
    requires fits { WordFits (kind_of first.now) word }
    ensures { result ≡ outcome word (first.now ∷ rest.now) }
{
    match (word, first) {
        (None, Value::Unit) => Combined::Single(Value::Unit),
        (None, _) => Combined::Several,
        (Some(word), Value::Int(first)) => combine_numbers(*first, rest, word),
        (Some(word), Value::Bool(first)) => Combined::Single(combine_truths(*first, rest, word)),
        (Some(_), Value::Unit | Value::Text(_)) => unreachable!(),
    }
}

fn combine_numbers(first: i64, rest: &[Value], word: CombineWord) -> Combined
    requires more { rest.now ≢ [] }
    requires fits { kind_of_word word ≡ kind.Int }
    ensures { result ≡ outcome (Some word) (value.Int first ∷ rest.now) }
{
    match word {
        CombineWord::Plus => match i64::try_from(sum(first, rest)) {
            Ok(sum) => Combined::Single(Value::Int(sum)),
            Err(_) => Combined::Overflowed,
        },
        CombineWord::Min => Combined::Single(Value::Int(least(first, rest))),
        CombineWord::Max => Combined::Single(Value::Int(greatest(first, rest))),
        CombineWord::And | CombineWord::Or => unreachable!(),
    }
}

/// The sum of the number and those of the values. 128 bits hold the sum of as many numbers of 64 bits
/// as there can be values.
fn sum(first: i64, rest: &[Value]) -> i128
    ensures { result ≡ first +ℤ whole_sum (numbers_in rest.now) }
{
    let mut sum = i128::from(first);
    for value in rest {
        if let Value::Int(number) = value {
            sum += i128::from(*number);
        }
    }
    sum
}

fn least(first: i64, rest: &[Value]) -> i64
    ensures { result ≡ least_of first (numbers_in rest.now) }
{
    let mut least = first;
    for value in rest {
        if let Value::Int(number) = value {
            least = least.min(*number);
        }
    }
    least
}

fn greatest(first: i64, rest: &[Value]) -> i64
    ensures { result ≡ greatest_of first (numbers_in rest.now) }
{
    let mut greatest = first;
    for value in rest {
        if let Value::Int(number) = value {
            greatest = greatest.max(*number);
        }
    }
    greatest
}

#[tactic(auto, using(crate::proofs::Folds::any_is, crate::proofs::Folds::all_is))]
fn combine_truths(first: bool, rest: &[Value], word: CombineWord) -> Value
    requires { kind_of_word word ≡ kind.Bool }
    ensures { result ≡ combined_by word (value.Bool first ∷ rest.now) }
{
    match word {
        CombineWord::And => Value::Bool(first && all_true(rest)),
        CombineWord::Or => Value::Bool(first || any_true(rest)),
        CombineWord::Plus | CombineWord::Min | CombineWord::Max => unreachable!(),
    }
}

fn all_true(values: &[Value]) -> bool
    ensures { result ≡ list_all (λ v. not (is_false v)) values.now }
{
    values.iter().all(|value| !is_false(value))
}

fn any_true(values: &[Value]) -> bool
    ensures { result ≡ list_any is_true values.now }
{
    values.iter().any(|value| is_true(value))
}

fn is_true(value: &Value) -> bool
    ensures { result ≡ is_true value.now }
{
    matches!(value, Value::Bool(true))
}

fn is_false(value: &Value) -> bool
    ensures { result ≡ is_false value.now }
{
    matches!(value, Value::Bool(false))
}
