//! The least solution by a work list.
ghost use Rattle.std.specs.Prelude.{◌≡◌, ◌≤◌, ◌<◌, true, false, OnOk, IfOk};
ghost use Rattle.net_solution.specs.Places.{question_of, valuation_of};
ghost use Rattle.net_solution.specs.Solution.{IsLeast, IsBelowAll};
ghost use Rattle.net_propagate.specs.Settling.{IsReserved, IsUnderWay, HasRoom, IsListed};
ghost use Rattle.net_propagate.specs.Settling.{nets_in, question_in, left_in};

use crate::news::News;
use crate::nothing::{forget, room_for};
use crate::see::see_all;
use crate::sweep::sweep;
use crate::task::Task;
use crate::tell::tell_all;
use crate::watchers::Watchers;
use hh_base::item::Item;
use hh_base::memory::NoMemory;
use hh_base::value::Value;
use host_expr::cell::Cells;
use net_list::nets::Nets;
use net_list::record::NetRecords;
use net_solution::question::Asked;
use net_solution::valuation::Valuation;
use std::alloc::Global;

/// Takes each equation once, and tells what is new to those that read it. Tells whether something was new:
/// else the least solution is reached.
fn go_on(
    alloc: Global,
    task: &Task<'_>,
    place: &mut Valuation,
    news: &mut News,
) -> Result<bool, NoMemory>
    requires { IsUnderWay task.now place.old }
    ensures way { IsUnderWay task.now place.new }
    ensures less { IfOk result (λ more. more ≡ true → left_in place.new < left_in place.old) }
    ensures least { IfOk result (λ more. more ≡ false
        → IsLeast (nets_in task.now) (question_in task.now) (valuation_of place.new)) }
{
    see_all(alloc, task, place)?;
    if sweep(alloc, task, place, news)? {
        tell_all(alloc, task, place, news)?;
        return Ok(true);
    }
    Ok(false)
}

/// The least solution of the equations of these records. After want of memory it is a valuation below it.
fn settle_asked(
    alloc: Global,
    task: &Task<'_>,
    place: &mut Valuation,
    news: &mut News,
) -> Result<(), NoMemory>
    requires room { HasRoom (nets_in task.now) place.old }
    requires listed { IsListed (nets_in task.now) task.now.watchers.now }
    ensures way { IsUnderWay task.now place.new }
    ensures least { OnOk result (IsLeast (nets_in task.now) (question_in task.now) (valuation_of place.new)) }
{
    news.begin(task.watchers.counts());
    forget(place);
    'sweeps: while go_on(alloc, task, place, news)? {}
    Ok(())
}

/// Where the reactions of nets are settled: what is known in the last one, and who reads what, which is made
/// once.
#[derive(Drop)]
pub struct Place {
    pub valuation: Valuation,
    pub watchers: Watchers,
    news: News,
}

/// A place for the reactions of these records, in which nothing is known.
pub fn reserve_records(alloc: Global, nets: &NetRecords) -> Result<Place, NoMemory>
    ensures { IfOk result (IsReserved nets.now) }
{
    let valuation = room_for(alloc, nets)?;
    let watchers = Watchers::of(alloc, nets)?;
    let news = News::with_room(alloc, nets)?;
    Ok(Place {
        valuation,
        watchers,
        news,
    })
}

/// A place for the reactions of nets, in which nothing is known.
pub fn reserve(alloc: Global, nets: &Nets) -> Result<Place, NoMemory>
    ensures { IfOk result (IsReserved nets.now) }
{
    reserve_records(alloc, nets.records())
}

/// Leaves the least solution of the equations of these records; as `settle`.
pub fn settle_records(
    alloc: Global,
    nets: &NetRecords,
    asked: &Asked<'_>,
    place: &mut Place,
) -> Result<(), NoMemory>
    requires { IsReserved nets.now place.old }
    ensures least { OnOk result (IsLeast nets.now (question_of asked.now)
        (valuation_of place.new.valuation)) }
    ensures below { IsBelowAll nets.now (question_of asked.now) (valuation_of place.new.valuation) }
    ensures reserved { IsReserved nets.now place.new }
{
    let task = Task {
        nets,
        asked: *asked,
        watchers: &place.watchers,
    };
    settle_asked(alloc, &task, &mut place.valuation, &mut place.news)
}

/// Leaves the least solution of nets for these states of the registers, these cells, of which the previous
/// values count as the last values, these first items of the queues of execs, and these given inputs. After
/// want of memory the place holds a valuation below the least solution. The time is in proportion to the
/// gates and their inputs, to the emissions, and to the walks of expressions.
pub fn settle(
    alloc: Global,
    nets: &Nets,
    registers: &[bool],
    cells: &Cells,
    answered: &[Option<Item>],
    given: &[(u32, Value)],
    place: &mut Place,
) -> Result<(), NoMemory>
    requires { IsReserved nets.now place.old }
    ensures least { OnOk result (IsLeast nets.now (record {
      registers = registers.now;
      cells = cells.now.signals.items;
      answered = answered.now;
      given = given.now;
    }) (valuation_of place.new.valuation)) }
    ensures below { IsBelowAll nets.now (record {
      registers = registers.now;
      cells = cells.now.signals.items;
      answered = answered.now;
      given = given.now;
    }) (valuation_of place.new.valuation) }
    ensures reserved { IsReserved nets.now place.new }
{
    let asked = Asked {
        registers,
        cells,
        answered,
        given,
    };
    settle_records(alloc, nets.records(), &asked, place)
}
