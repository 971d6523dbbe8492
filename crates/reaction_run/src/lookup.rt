//! The running instance with an id.

ghost use Rattle.std.specs.Prelude.{◌≡◌, ◌||◌, ℕ, List};
ghost use Rattle.std.specs.List.{list_any};
ghost use Rattle.std.specs.Option.{option_copied};
ghost use Rattle.exec_instance.specs.Running.{holder};
ghost use Rattle.reaction_run.specs.Reacting.{has_last, is_last_for};

use crate::interface::has_last_for;
use exec_instance::answer::Answers;
use exec_instance::instance::Instance;
use exec_instance::instances::Instances;

/// The running instance with this id, found by halving: where instances rise in id, the one with id n stands
/// before place n. Takes no memory.
pub fn instance_with(instances: &Instances, id: u64) -> Option<&Instance>
    ensures { option_copied result ≡ holder instances.now.instances id }
{
    if id > instances.last() {
        return None;
    }
    let mut low = 0;
    let mut high = id as usize;
    while low < high {
        let middle = low + (high - low) / 2;
        match instances.at(middle) {
            Some(instance) if instance.id == id => return Some(instance),
            Some(instance) if instance.id < id => low = middle + 1,
            _ => high = middle,
        }
    }
    None
}

/// Whether an id needs no answer more: no instance runs with it, its instance has its last answer, or a last
/// answer to it waits. Takes no memory.
pub fn needs_no_answer(instances: &Instances, pending: &Answers, id: u64) -> bool
    ensures { result ≡ (has_last (holder instances.now.instances id)
        || list_any (is_last_for id) pending.now) }
{
    let done = match instance_with(instances, id) {
        Some(instance) => instance.queue.ends_with_last(),
        None => true,
    };
    done || has_last_for(pending, id)
}
