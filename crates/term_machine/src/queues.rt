//! Marks that hold the queues of the running instances.

ghost use Rattle.std.specs.Prelude.{◌≡◌, IfOk};
ghost use Rattle.hh_term.specs.Views.{selection_of, control_of};
ghost use Rattle.exec_instance.specs.Running.{holder};
ghost use Rattle.term_machine.specs.Place.{queue_in, with_queues, control_with_queues};

use exec_instance::instances::Instances;
use hh_base::value::{NoMemory, copy_values};
use hh_term::mark::{AsyncMark, Control, Mark};
use reaction_run::lookup::instance_with;
use std::alloc::Global;

fn async_with_queue(
    alloc: Global,
    mark: &AsyncMark,
    instances: &Instances,
) -> Result<AsyncMark, NoMemory>
    ensures { IfOk result (λ a. a ≡ record mark.now {
      queue = queue_in (holder instances.now.instances mark.now.id) mark.now.queue;
    }) }
{
    let queue = match instance_with(instances, mark.id) {
        Some(instance) => instance.queue.copy(alloc)?,
        None => mark.queue.copy(alloc)?,
    };
    Ok(AsyncMark {
        id: mark.id,
        args: copy_values(alloc, mark.args.as_slice())?,
        queue,
        suspended: mark.suspended,
    })
}

fn mark_with_queues(alloc: Global, mark: &Mark, instances: &Instances) -> Result<Mark, NoMemory>
    ensures { IfOk result (λ m. selection_of m
        ≡ with_queues instances.now.instances (selection_of mark.now)) }
{
    Ok(match mark {
        Mark::Pause => Mark::Pause,
        Mark::Async(a) => Mark::Async(async_with_queue(alloc, a, instances)?),
        Mark::First(m) => Mark::First(Box::new(alloc, mark_with_queues(alloc, m, instances)?)?),
        Mark::Second(m) => Mark::Second(Box::new(alloc, mark_with_queues(alloc, m, instances)?)?),
        Mark::Both(m, n) => {
            let first = Box::new(alloc, mark_with_queues(alloc, m, instances)?)?;
            Mark::Both(
                first,
                Box::new(alloc, mark_with_queues(alloc, n, instances)?)?,
            )
        }
        Mark::Inside(m) => Mark::Inside(Box::new(alloc, mark_with_queues(alloc, m, instances)?)?),
        Mark::Local(m, status, value) => {
            let body = Box::new(alloc, mark_with_queues(alloc, m, instances)?)?;
            Mark::Local(body, *status, value.copy(alloc)?)
        }
    })
}

/// A copy of the control whose async marks hold the answers that wait for the running instances.
pub fn control_with_queues(
    alloc: Global,
    control: &Control,
    instances: &Instances,
) -> Result<Control, NoMemory>
    ensures { IfOk result (λ c. control_of c
        ≡ control_with_queues instances.now.instances (control_of control.now)) }
{
    Ok(match control {
        Control::Fresh => Control::Fresh,
        Control::At(mark) => Control::At(mark_with_queues(alloc, mark, instances)?),
        Control::Ended => Control::Ended,
    })
}
