//! Each call does nothing; its contract is the law.

ghost use Rattle.copied_reaction.specs.Lawful.{CopiesGiveTheSameIds, CopiesReactTheSame, CopiesStartTheSame};

/// A copied program reacts as the program does: the same refusal, or the same emissions, values, code and
/// touches; and the next marks stand for each other again. So it does from the start.
pub fn same_reaction()
    ensures reacts { CopiesReactTheSame }
    ensures starts { CopiesStartTheSame }
{}

/// The ids that new instances get in the order of copied sites are those that they get in the order of sites.
pub fn same_ids()
    ensures { CopiesGiveTheSameIds }
{}
