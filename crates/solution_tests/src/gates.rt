//! Tables of three-valued gates.

use hh_base::value::Tri;
use net_solution::gate::{and_over, or_over};
use std::test::Fail;

/// Two inputs, their `and` and their `or`.
const TWO: [(Tri, Tri, Tri, Tri); 9] = [
    (Tri::Zero, Tri::Zero, Tri::Zero, Tri::Zero),
    (Tri::Zero, Tri::Unknown, Tri::Zero, Tri::Unknown),
    (Tri::Zero, Tri::One, Tri::Zero, Tri::One),
    (Tri::Unknown, Tri::Zero, Tri::Zero, Tri::Unknown),
    (Tri::Unknown, Tri::Unknown, Tri::Unknown, Tri::Unknown),
    (Tri::Unknown, Tri::One, Tri::Unknown, Tri::One),
    (Tri::One, Tri::Zero, Tri::Zero, Tri::One),
    (Tri::One, Tri::Unknown, Tri::Unknown, Tri::One),
    (Tri::One, Tri::One, Tri::One, Tri::One),
];

#[test]
fn two_inputs(rt: HostRuntime) -> Result<(), Fail> {
    let inputs = [0, 1];
    for row in TWO.iter() {
        let gates = [row.0, row.1];
        assert!(rt; and_over(&gates, &inputs) == row.2);
        assert!(rt; or_over(&gates, &inputs) == row.3);
    }
    Ok(())
}

#[test]
fn no_inputs(rt: HostRuntime) -> Result<(), Fail> {
    assert!(rt; and_over(&[], &[]) == Tri::One);
    assert!(rt; or_over(&[], &[]) == Tri::Zero);
    Ok(())
}
