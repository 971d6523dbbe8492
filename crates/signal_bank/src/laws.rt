//! Laws of what a bag combines to. Each call does nothing; its contract is the law.

ghost use Rattle.signal_bank.specs.AnyOrder.{OutcomeInAnyOrder};
ghost use Rattle.signal_bank.specs.BagKind.{BagIsOfItsKind};

/// What a bag combines to does not depend on the order in which its values were met.
pub fn outcome_in_any_order()
    ensures { OutcomeInAnyOrder }
{}

/// A bag whose values are of the kind of a signal is of that kind.
pub fn bag_is_of_its_kind()
    ensures { BagIsOfItsKind }
{}
