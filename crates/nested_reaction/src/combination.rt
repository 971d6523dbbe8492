//! What several emissions of one signal in one reaction combine to.

ghost use Rattle.std.specs.Prelude.{◌≡◌, IfOk, map};
ghost use Rattle.host_expr.specs.Combination.{counts_as, combined, combined_by, numbers_in, truths_in};
ghost use Rattle.host_expr.specs.Combination.{whole_sum, least_of, greatest_of, all_of, any_of};

use hh_base::value::{CombineWord, Kind, NoMemory, Value, default_of};
use host_expr::cell::Cell;
use std::alloc::Global;

/// The value of the cell; a fault counts as the default of the kind.
fn value_in(alloc: Global, kind: Kind, cell: &Cell) -> Result<Value, NoMemory>
    ensures { IfOk result (λ v. v ≡ counts_as kind cell.now) }
{
    match cell {
        Cell::Known(value) => value.copy(alloc),
        Cell::Unknown | Cell::Faulted(_, _) => Ok(default_of(alloc, kind)),
    }
}

/// The values of the cells, in their order.
pub fn values_in(alloc: Global, kind: Kind, cells: &[Cell]) -> Result<Vec<Value>, NoMemory>
    ensures { IfOk result (λ v. v.items ≡ map (counts_as kind) cells.now) }
{
    match cells {
        [] => Ok(Vec::new(alloc)),
        [first, rest @ ..] => {
            let mut values = values_in(alloc, kind, rest)?;
            values.insert(0, value_in(alloc, kind, first)?)?;
            Ok(values)
        }
    }
}

/// The numbers among the values.
fn numbers(alloc: Global, values: &[Value]) -> Result<Vec<i64>, NoMemory>
    ensures { IfOk result (λ v. v.items ≡ numbers_in values.now) }
{
    match values {
        [] => Ok(Vec::new(alloc)),
        [Value::Int(number), rest @ ..] => {
            let mut found = numbers(alloc, rest)?;
            found.insert(0, *number)?;
            Ok(found)
        }
        [_, rest @ ..] => numbers(alloc, rest),
    }
}

/// The truths among the values.
fn truths(alloc: Global, values: &[Value]) -> Result<Vec<bool>, NoMemory>
    ensures { IfOk result (λ v. v.items ≡ truths_in values.now) }
{
    match values {
        [] => Ok(Vec::new(alloc)),
        [Value::Bool(truth), rest @ ..] => {
            let mut found = truths(alloc, rest)?;
            found.insert(0, *truth)?;
            Ok(found)
        }
        [_, rest @ ..] => truths(alloc, rest),
    }
}

/// The whole sum. One past 128 bits, for which no memory holds the numbers, is want of memory.
fn sum(numbers: &[i64]) -> Result<i128, NoMemory>
    ensures { IfOk result (λ n. n ≡ whole_sum numbers.now) }
{
    match numbers {
        [] => Ok(0),
        [first, rest @ ..] => i128::from(*first).checked_add(sum(rest)?).ok_or(NoMemory),
    }
}

fn least(first: i64, others: &[i64]) -> i64
    ensures { result ≡ least_of first others.now }
{
    match others {
        [] => first,
        [second, rest @ ..] => first.min(least(*second, rest)),
    }
}

fn greatest(first: i64, others: &[i64]) -> i64
    ensures { result ≡ greatest_of first others.now }
{
    match others {
        [] => first,
        [second, rest @ ..] => first.max(greatest(*second, rest)),
    }
}

fn all_true(truths: &[bool]) -> bool
    ensures { result ≡ all_of truths.now }
{
    match truths {
        [] => true,
        [first, rest @ ..] => *first && all_true(rest),
    }
}

fn any_true(truths: &[bool]) -> bool
    ensures { result ≡ any_of truths.now }
{
    match truths {
        [] => false,
        [first, rest @ ..] => *first || any_true(rest),
    }
}

/// Two or more values by a word. A sum outside 64 bits counts as 0.
fn by_word(alloc: Global, word: CombineWord, values: &[Value]) -> Result<Value, NoMemory>
    ensures { IfOk result (λ v. v ≡ combined_by word values.now) }
{
    match word {
        CombineWord::Plus => Ok(Value::Int(i64::try_from(sum(&numbers(alloc, values)?)?).unwrap_or(
            0,
        ))),
        CombineWord::Min => match numbers(alloc, values)?.as_slice() {
            [] => Ok(Value::Int(0)),
            [first, rest @ ..] => Ok(Value::Int(least(*first, rest))),
        },
        CombineWord::Max => match numbers(alloc, values)?.as_slice() {
            [] => Ok(Value::Int(0)),
            [first, rest @ ..] => Ok(Value::Int(greatest(*first, rest))),
        },
        CombineWord::And => Ok(Value::Bool(all_true(&truths(alloc, values)?))),
        CombineWord::Or => Ok(Value::Bool(any_true(&truths(alloc, values)?))),
    }
}

/// What the values of a signal of this kind and this combine word make together.
pub fn combined(
    alloc: Global,
    kind: Kind,
    word: Option<CombineWord>,
    values: &[Value],
) -> Result<Value, NoMemory>
    ensures { IfOk result (λ v. v ≡ combined kind word values.now) }
{
    match values {
        [] => Ok(default_of(alloc, kind)),
        [value] => value.copy(alloc),
        [_, _, ..] => match word {
            Some(word) => by_word(alloc, word, values),
            None => Ok(default_of(alloc, kind)),
        },
    }
}
