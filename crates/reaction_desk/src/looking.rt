//! What is asked at a desk.
ghost use Rattle.std.specs.Prelude.{◌≡◌, suc, IfOk};
ghost use Rattle.turn_cell.specs.Lists.{RisesTo};
ghost use Rattle.exec_instance.specs.Running.{IsRising};
ghost use Rattle.reaction_run.specs.Legal.{events_of};
ghost use Rattle.reaction_run.specs.Reacting.{is_settled};
ghost use Rattle.reaction_run.specs.Run.{final_state};
ghost use Rattle.reaction_desk.specs.Unsettled.{unsettled_ids};
ghost use Rattle.reaction_desk.specs.Desks.{opening_of, log_of};

use crate::desk::Desk;
use hh_base::value::NoMemory;
use reaction_run::reactor::Reactor;
use std::alloc::Global;

/// The ids of the running instances that are not settled, in their order.
fn unsettled_in<M: Reactor>(alloc: Global, machine: &M) -> Result<Vec<u64>, NoMemory>
    ensures { IfOk result (λ ids. ids.items ≡ unsettled_ids (M.state machine.now)) }
{
    let mut ids = Vec::new(alloc);
    for index in 0..usize::MAX {
        match machine.running(index) {
            Some(instance) => {
                if machine.settled(instance.id) {
                    continue;
                }
                ids.push(instance.id)?;
            }
            None => return Ok(ids),
        }
    }
    Err(NoMemory)
}

impl<M: Reactor> Desk<M> {
    /// Whether the id is settled in the state to which the log leads.
    pub fn settled(&self, id: u64) -> bool
        ensures { result ≡ is_settled (final_state M.machine (M.state (opening_of self.now).machine)
            (events_of (log_of self.now))) id }
    {
        self.logged.machine.settled(id)
    }

    /// The ids of the instances that run in the state to which the log leads and are not settled there, in
    /// rising order.
    pub fn unsettled(&self, alloc: Global) -> Result<Vec<u64>, NoMemory>
        ensures { IfOk result (λ ids. ids.items ≡ unsettled_ids (final_state M.machine
            (M.state (opening_of self.now).machine) (events_of (log_of self.now)))) }
    {
        unsettled_in(alloc, &self.logged.machine)
    }
}
