//! Laws of every run, for any step that a machine names. Each call does nothing; its contract is the law.

ghost use Rattle.reaction_run.specs.Machine.{Machine};
ghost use Rattle.reaction_run.specs.Lives.{StaysRising, LivesOnce, LivesOnceFromBegin};
ghost use Rattle.reaction_run.specs.Lives.{UsesOne, UsesWhatEntered};
ghost use Rattle.reaction_run.specs.Laws.{GoneIsStale, GoneStaysGone, StartsCount};
ghost use Rattle.reaction_run.specs.Laws.{TriedOnce, RefusalKeeps, ResetStops};

/// Each answer is tried by at most one accepted reaction.
pub fn tried_once<Place>()
    ensures { (M : Machine Place) → TriedOnce M }
{}

/// A refused reaction changes nothing but that what it took waits.
pub fn refusal_keeps<Place>()
    ensures { (M : Machine Place) → RefusalKeeps M }
{}

/// A reset leaves no instance running.
pub fn reset_stops<Place>()
    ensures { (M : Machine Place) → ResetStops M }
{}

/// The ids of started instances follow on the last id without a gap.
pub fn starts_count<Place>()
    ensures { (M : Machine Place) → StartsCount M }
{}

/// An instance that has stopped never runs again, and each answer to it is dropped as stale.
pub fn gone_for_good<Place>()
    ensures stays { (M : Machine Place) → GoneStaysGone M }
    ensures stale { (M : Machine Place) → GoneIsStale M }
{}

/// Running instances stand in rising id, through all events.
pub fn stays_rising<Place>()
    ensures { (M : Machine Place) → StaysRising M }
{}

/// An instance starts at most once, and only after its start it uses answers and ends or is killed, at most
/// once and never both.
pub fn lives_once<Place>()
    ensures lives { (M : Machine Place) → LivesOnce M }
    ensures from_begin { (M : Machine Place) → LivesOnceFromBegin M }
{}

/// Where a machine uses one answer of an instance in a reaction at most, the values that an instance used are
/// the first ones of those that entered for it, in their order.
pub fn uses_what_entered<Place>()
    ensures { (M : Machine Place) → UsesOne M → UsesWhatEntered M }
{}
