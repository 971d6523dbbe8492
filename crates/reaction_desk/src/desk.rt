//! The desk: a machine with its log, the pass with which it takes answers, and the answers that wait there.
ghost use Rattle.std.specs.Prelude.{◌≡◌, ◌≤◌, ◌++◌, [], length};
ghost use Rattle.reaction_run.specs.Legal.{events_of, took_in};
ghost use Rattle.notify_inbox.specs.Views.{took_more};
ghost use Rattle.reaction_desk.specs.Adding.{count_short};
ghost use Rattle.notify_inbox.specs.declared.limits.TheConstants.{INBOX_PLACES};

use crate::logged::Logged;
use crate::origin::Origin;
use exec_instance::answer::Answers;
use notify_inbox::passes::TakePass;
use reaction_run::reactor::Reactor;

/// What a desk begins from. It stands in proofs alone, and no value of it is made.
pub struct Opening<M> {
    pub machine: M,
    pub pass: TakePass,
}

/// A machine with its legal log, the pass with which it takes answers, and answers that were taken and are not
/// in the log. What the pass took is what the log took, and then what waits. The log has no more reactions and
/// pumps with fewer than 4,096 answers than the pass found its queue empty.
#[derive(Drop)]
pub struct Desk<M: Reactor> {
    pub(crate) logged: Logged<M>,
    pub(crate) pass: TakePass,
    pub(crate) waiting: Answers,
    pub(crate) first_pass: Origin<TakePass>,
    ghost inbox: { pass.pass.table_id ≡ first_pass.value.pass.table_id },
    ghost rests: { pass.pass.me.1 ≡ [] },
    ghost took: { pass.pass.me.0.client
        ≡ took_more first_pass.value.pass.me.0.client (took_in (events_of logged.log) ++ waiting) },
    ghost short: { count_short logged.log ≤ pass.empties },
    ghost few: { length waiting ≤ INBOX_PLACES },
}
