//! Laws of least solutions. Each call does nothing; its contract is the law.
ghost use Rattle.net_solution.specs.Solution.{OneLeast, EquationsRise, NothingRises, StepsRise};
ghost use Rattle.net_solution.specs.Solution.{StandingIsLeast};

/// There is no second least solution, so two ways that both come to one leave the same valuation.
pub fn one_least()
    ensures { OneLeast }
{}

/// Where more is known, the equations give more.
pub fn equations_rise()
    ensures { EquationsRise }
{}

/// A valuation under which nothing is known rises to the least solution.
pub fn nothing_rises()
    ensures { NothingRises }
{}

/// Whichever equations are taken next, what they give rises to the least solution.
pub fn steps_rise()
    ensures { StepsRise }
{}

/// Where what rises stands still, it is the least solution.
pub fn standing_is_least()
    ensures { StandingIsLeast }
{}
