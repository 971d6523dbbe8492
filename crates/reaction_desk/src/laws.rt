//! Laws of what is asked at a desk. Each call does nothing; its contract is the law.

ghost use Rattle.reaction_run.specs.Machine.{Machine};
ghost use Rattle.reaction_desk.specs.Unsettled.{UnsettledRise};

/// Where instances rise in id at the start, the ids that `unsettled` tells rise, each once.
pub fn unsettled_rise<Place>()
    ensures { (M : Machine Place) → UnsettledRise M }
{}
