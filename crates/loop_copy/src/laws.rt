//! Laws of copied programs. Each call does nothing; its contract is the law.

ghost use Rattle.loop_copy.specs.Lawful.{CopiesKeepTheRules, EachMarkStandsForOne, MarksStandForMarks};

/// The copy of a program keeps the rules of copied programs.
pub fn copies_keep_rules()
    ensures { CopiesKeepTheRules }
{}

/// The marks of the copied statement are those that stand for a mark of the program's, each for one.
pub fn marks_stand()
    ensures marks { MarksStandForMarks }
    ensures one { EachMarkStandsForOne }
{}
