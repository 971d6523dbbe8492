//! Laws of the definitions of evaluation and combination. Each call does nothing; its contract is the law.

ghost use Rattle.host_expr.specs.Knows.{EvaluationRises};
ghost use Rattle.host_expr.specs.Misfit.{JudgedByKind, MisfitWithoutKind};
ghost use Rattle.host_expr.specs.Reordering.{CombinedInAnyOrder, SeveralInAnyOrder, OverflowedInAnyOrder};

/// Where more is known of the signals, an expression that was known keeps its value.
pub fn evaluation_rises()
    ensures { EvaluationRises }
{}

/// What several emissions combine to does not depend on their order.
pub fn combined_in_any_order()
    ensures value { CombinedInAnyOrder }
    ensures several { SeveralInAnyOrder }
    ensures overflowed { OverflowedInAnyOrder }
{}

/// What `check` answers of an expression without a kind: there is a first misfit exactly where there is no
/// kind.
pub fn misfit_without_kind()
    ensures kind { JudgedByKind }
    ensures misfit { MisfitWithoutKind }
{}
