//! Lists of kinds, compared.

ghost use Rattle.std.specs.Prelude.{◌≡◌, ◌↔◌, IsTrue};
ghost use Rattle.host_hooks.specs.Law.{kinds_of};

use hh_base::value::{Kind, Value};

/// Whether the values are of these kinds, in this order.
pub(crate) fn are_of_kinds(values: &[Value], kinds: &[Kind]) -> bool
    ensures { IsTrue result ↔ (kinds_of values.now ≡ kinds.now) }
{
    let mut values = values;
    let mut kinds = kinds;
    while let (Some((value, other_values)), Some((kind, other_kinds))) = (
        values.split_first(),
        kinds.split_first(),
    ) {
        if value.kind() != *kind {
            return false;
        }
        values = other_values;
        kinds = other_kinds;
    }
    values.is_empty() && kinds.is_empty()
}

/// Whether the two lists are the same.
pub(crate) fn same_kinds(left: &[Kind], right: &[Kind]) -> bool
    ensures { IsTrue result ↔ (left.now ≡ right.now) }
{
    let mut left = left;
    let mut right = right;
    while let (Some((kind, other_left)), Some((other, other_right))) = (
        left.split_first(),
        right.split_first(),
    ) {
        if *kind != *other {
            return false;
        }
        left = other_left;
        right = other_right;
    }
    left.is_empty() && right.is_empty()
}
