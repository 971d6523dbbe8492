//! Each derived statement obeys its direct rule. Each call does nothing; its contract is the law.

ghost use Rattle.derived_laws.specs.Waits.{HaltObeys, SustainObeys, AwaitObeys, AwaitImmediateObeys};
ghost use Rattle.derived_laws.specs.Aborts.{AbortObeys, AbortImmediateObeys};
ghost use Rattle.derived_laws.specs.Aborts.{WeakAbortObeys, WeakAbortImmediateObeys};
ghost use Rattle.derived_laws.specs.Repeats.{DoEveryObeys, EveryObeys, EveryImmediateObeys};
ghost use Rattle.derived_laws.specs.Suspends.{SuspendImmediateObeys};
ghost use Rattle.derived_laws.specs.Counts.{AwaitCountObeys, WeakAbortCountObeys};
ghost use Rattle.derived_laws.specs.CountedAborts.{AbortCountObeys};
ghost use Rattle.derived_laws.specs.CountedRepeats.{DoEveryCountObeys, EveryCountObeys};
ghost use Rattle.derived_laws.specs.Bodies.{BodiesObey};
ghost use Rattle.derived_laws.specs.Runs.{ReplacedObeys, RunObeys};

/// `halt` rests, when it is started and in each later reaction.
pub fn halt_rule()
    ensures { HaltObeys }
{}

/// `sustain S(e)` emits S when it is started and in each later reaction, and rests.
pub fn sustain_rule()
    ensures { SustainObeys }
{}

/// `await (d)` rests when it is started, without looking at d; later it ends in the first reaction in which d
/// holds.
pub fn await_rule()
    ensures { AwaitObeys }
{}

/// `await immediate (d)` ends in the first reaction in which d holds, that of its start included.
pub fn await_immediate_rule()
    ensures { AwaitImmediateObeys }
{}

/// `abort (d) p` starts p; later, where d holds, p is killed before it reacts, and else p reacts.
pub fn abort_rule()
    ensures { AbortObeys }
{}

/// `abort immediate (d) p` ends at once where d holds as it is started, and does not start p; else it is
/// `abort (d) p`.
pub fn abort_immediate_rule()
    ensures { AbortImmediateObeys }
{}

/// `weakabort (d) p` starts p; later p reacts, for the last time where d holds.
pub fn weak_abort_rule()
    ensures { WeakAbortObeys }
{}

/// `weakabort immediate (d) p`: p reacts, for the last time where d holds, in the reaction of its start as well
/// as later.
pub fn weak_abort_immediate_rule()
    ensures { WeakAbortImmediateObeys }
{}

/// `suspend immediate (d) p` starts p in the first reaction in which d does not hold; later p is held where d
/// holds, and else reacts.
pub fn suspend_immediate_rule()
    ensures { SuspendImmediateObeys }
{}

/// `do p every d` starts p; later, where d holds, what runs of p is killed and p starts anew, and else p
/// reacts. It does not end.
pub fn do_every_rule()
    ensures { DoEveryObeys }
{}

/// `every d p` does not start p when it is started; later p starts where d holds, and from then on it is
/// `do p every d`.
pub fn every_rule()
    ensures { EveryObeys }
{}

/// `every immediate d p` starts p in the first reaction in which d holds, that of its start included; from then
/// on it is `do p every d`.
pub fn every_immediate_rule()
    ensures { EveryImmediateObeys }
{}

/// `await count (n, d)` ends in the n-th later reaction in which d holds.
pub fn await_count_rule()
    ensures { AwaitCountObeys }
{}

/// `weakabort count (n, d) p` starts p; later p reacts, for the last time in the n-th reaction in which d
/// holds.
pub fn weak_abort_count_rule()
    ensures { WeakAbortCountObeys }
{}

/// `abort count (n, d) p` starts p; later, the n-th time that d holds, p is killed before it reacts, and else p
/// reacts.
pub fn abort_count_rule()
    ensures { AbortCountObeys }
{}

/// `do p every count (n, d)` starts p; later, each n-th time that d holds, what runs of p is killed and p
/// starts anew, and else p reacts. It does not end.
pub fn do_every_count_rule()
    ensures { DoEveryCountObeys }
{}

/// `every count (n, d) p` does not start p when it is started; later p starts the n-th time that d holds, and
/// from then on it is `do p every count (n, d)`.
pub fn every_count_rule()
    ensures { EveryCountObeys }
{}

/// A statement with its signals and sites replaced does what the statement does in the environment in which
/// each signal has the status and the value of that in its place.
pub fn replaced_signals_rule()
    ensures { ReplacedObeys }
{}

/// `run m(..)` is the body of m in which each signal of m's interface is the caller's signal that is bound to
/// it.
pub fn run_rule()
    ensures { RunObeys }
{}

/// The bodies of a linked text are as the other rules ask: they leave the numbers of the test's signals as
/// they are, do not mention the row's counter, and have no exit to its trap.
pub fn bodies_rule()
    ensures { BodiesObey }
{}
