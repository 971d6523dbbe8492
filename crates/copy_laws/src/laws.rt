//! Each call does nothing; its contract is the law.

ghost use Rattle.copy_laws.specs.Lawful.{CopiesMustAndCanDoTheSame, CopiesStepTheSame};

/// A copied program must and can do what the program must and can do.
pub fn same_must_can()
    ensures { CopiesMustAndCanDoTheSame }
{}

/// A copied program steps as the program does: the same emissions, code, touches and faults, and next marks
/// that stand for each other.
pub fn same_step()
    ensures { CopiesStepTheSame }
{}
