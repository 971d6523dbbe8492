//! Laws of expansions. Each call does nothing; its contract is the law.

ghost use Rattle.kernel_expand.specs.Lawful.{AcceptedKeepRules};

/// Where nothing refuses the expansion of a linked text, it keeps the rules of a program.
pub fn accepted_keep_rules()
    ensures { AcceptedKeepRules }
{}
