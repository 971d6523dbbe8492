//! Laws of the flat table. Each call does nothing; its contract is the law.

ghost use Rattle.status_table.specs.TableLaws.{StandingIsSolved, StandingSteps, ProgramIsSolved};

/// A table that rounds reach and that no round changes gives what Must and Can with Solve give.
pub fn standing_is_solved()
    ensures { StandingIsSolved }
{}

/// With such a table the step is that of the definition.
pub fn standing_steps()
    ensures { StandingSteps }
{}

/// Where rounds over a whole program come to a standstill, its interface is solved, and the step with the
/// table is that of the definition.
pub fn program_is_solved()
    ensures { ProgramIsSolved }
{}
