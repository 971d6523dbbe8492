//! Valuations.
ghost use Rattle.std.specs.Prelude.{◌≡◌, get_or};
ghost use Rattle.host_expr.specs.Environment.{is_decided, is_present};
ghost use Rattle.hh_base.specs.declared.value.Tri.TheVariants as tri;

use hh_base::value::Tri;
use host_expr::cell::Cells;

/// Whether the previous status of a signal, and its base value, are known.
#[derive(Clone, Copy, Debug, PartialEq, Eq)]
pub struct Before {
    pub pre: bool,
    pub base: bool,
}

/// A status for each gate and a value for each signal, and what expressions read of signals: their cells, and
/// what of their past is known.
#[derive(Drop)]
pub struct Valuation {
    pub gates: Vec<Tri>,
    pub cells: Cells,
    pub before: Vec<Before>,
}

/// The status of a gate.
pub fn status_of(gates: &[Tri], gate: u32) -> Tri
    ensures { result ≡ get_or gates.now gate tri.Unknown }
{
    match gates.get(gate as usize) {
        Some(status) => *status,
        None => Tri::Unknown,
    }
}

/// Whether a status is known.
pub fn is_decided(status: Tri) -> bool
    ensures { result ≡ is_decided status }
{
    !matches!(status, Tri::Unknown)
}

/// Whether a status is 1.
pub fn is_present(status: Tri) -> bool
    ensures { result ≡ is_present status }
{
    matches!(status, Tri::One)
}
