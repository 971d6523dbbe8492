//! Laws of Must, Can, Solve and Step. Each call does nothing; its contract is the law.

ghost use Rattle.hh_term.specs.Lawful.{MustExtendsCanShrinks, MustIsWithinCan};
ghost use Rattle.hh_term.specs.Lawful.{NothingIsSureWherePossible, TwoRoundsStandStill};
ghost use Rattle.hh_term.specs.Lawful.{TermsAreUnplaced, ProgramsAreUnplaced, StepHasTheBagOfMust};
ghost use Rattle.hh_term.specs.Lawful.{MustCodeIsTheOnlyCode, StepHasTheCodeOfMust, StartedCodesAreStatic};
ghost use Rattle.hh_term.specs.Lawful.{InterfaceStandsStill};

/// Where the environment or the index knows more, Must extends and Can shrinks.
pub fn knows_more()
    ensures { MustExtendsCanShrinks }
{}

/// What must be done can be done.
pub fn must_within_can()
    ensures { MustIsWithinCan }
{}

/// Where a statement is only possible, nothing is sure.
pub fn nothing_sure()
    ensures { NothingIsSureWherePossible }
{}

/// Two rounds of Solve reach the standstill.
pub fn two_rounds()
    ensures scope { TwoRoundsStandStill }
    ensures interface { InterfaceStandsStill }
{}

/// A defined step has the bag and the code of Must.
pub fn step_is_must()
    ensures bag { StepHasTheBagOfMust }
    ensures code { StepHasTheCodeOfMust }
{}

/// The codes of a started statement lie in its static codes.
pub fn started_codes()
    ensures { StartedCodesAreStatic }
{}

/// What the semantics sees of a term or a program is what is left without its positions.
pub fn positions_aside()
    ensures terms { TermsAreUnplaced }
    ensures programs { ProgramsAreUnplaced }
{}

/// Where a statement must complete with a code, it can complete with that code alone.
pub fn only_code()
    ensures { MustCodeIsTheOnlyCode }
{}
