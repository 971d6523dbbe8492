//! What a reaction does to the running instances.

ghost use Rattle.std.specs.Prelude.{◌≡◌, ◌<◌, ◌≤◌, ◌++◌, ◌^◌, ℕ, Some, None, List, IfOk, OnOk, OnErr, IsTrue};
ghost use Rattle.std.specs.Prelude.{◌↔◌, count_by, MatchOption, map, slice_get, length, option_map};
ghost use Rattle.std.specs.Prelude.{if◌then◌else◌, ◌+◌, vec_len, vec_capacity, drop, not, ◌||◌, ◌&&◌};
ghost use Rattle.std.specs.Option.{option_copied, option_to_list};
ghost use Rattle.exec_instance.specs.Changes.{change_of, found_in};
ghost use Rattle.exec_instance.specs.Effects.{takes_id, effect_in, with_change, row_of, old_effects, effects};
ghost use Rattle.exec_instance.specs.Effects.{changed, after_change, kept, born, started, last_after};
ghost use Rattle.exec_instance.specs.Effects.{advanced};

use super::Instances;
use crate::change::Change;
use crate::effect::Effect;
use crate::instance::Instance;
use crate::table::Row;
use hh_base::item::Queue;
use hh_base::text::Text;
use hh_base::value::{NoMemory, Value, copy_values};
use std::alloc::Global;
use std::collections::BTreeMap;

/// The changes of running instances by id; of several with one id the first.
fn index_of(alloc: Global, changes: &[Change]) -> Result<BTreeMap<u64, &Change>, NoMemory>
    ensures { IfOk result (λ index. (id : ℕ) → found_in index id ≡ change_of changes.now id) }
{
    let mut index = BTreeMap::new(alloc);
    let mut at = changes.len();
    while at > 0 {
        at -= 1;
        let change = &changes[at];
        if change.started.is_none() {
            index.insert(change.id, change)?;
        }
    }
    Ok(index)
}

/// The change of the instance with this id, if there is one.
fn find<'a>(index: &BTreeMap<u64, &'a Change>, id: u64) -> Option<&'a Change>
    ensures { option_copied result ≡ found_in index.now id }
{
    index.get(&id).copied()
}

/// A copy of the text, if there is one.
fn copy_action(alloc: Global, action: &Option<Text>) -> Result<Option<Text>, NoMemory>
    ensures { IfOk result (λ a. a ≡ action.now) }
{
    Ok(match action {
        Some(text) => Some(text.copy(alloc)?),
        None => None,
    })
}

/// A copy of the first value that waits for the instance.
fn first_value(alloc: Global, instance: &Instance) -> Result<Option<Value>, NoMemory>
    ensures { IfOk result (λ v. v ≡ option_map (λ a. a.value) (slice_get instance.now.queue 0)) }
{
    Ok(match instance.queue.get(0) {
        Some(item) => Some(item.value.copy(alloc)?),
        None => None,
    })
}

/// The effect of this row on the instance, if its change has one.
fn effect_in(
    alloc: Global,
    row: Row,
    instance: &Instance,
    change: &Change,
) -> Result<Option<Effect>, NoMemory>
    ensures { IfOk result (λ e. e ≡ effect_in row instance.now change.now) }
{
    let id = instance.id;
    let runs_after = change.runs_after;
    Ok(match row {
        Row::More if change.used => first_value(alloc, instance)?.map(|value| Effect::More(
            id, value,
        )),
        Row::Ended if change.ended => first_value(alloc, instance)?.map(|value| Effect::Ended(
            id, value,
        )),
        Row::Killed if !change.ended && !runs_after => {
            Some(Effect::Killed(id, copy_action(alloc, &change.kill)?))
        }
        Row::Suspended if change.held && runs_after && !instance.suspended => {
            Some(Effect::Suspended(id, copy_action(alloc, &change.suspend)?))
        }
        Row::Resumed if instance.suspended && change.resumed && runs_after => {
            Some(Effect::Resumed(id, copy_action(alloc, &change.resume)?))
        }
        _ => None,
    })
}

/// The effect of this row on the instance, by its change in the index.
fn effect_on(
    alloc: Global,
    row: Row,
    instance: &Instance,
    index: &BTreeMap<u64, &Change>,
) -> Result<Option<Effect>, NoMemory>
    ensures { IfOk result (λ e. e ≡ with_change row instance.now (found_in index.now instance.now.id)) }
{
    match find(index, instance.id) {
        Some(change) => effect_in(alloc, row, instance, change),
        None => Ok(None),
    }
}

/// Adds the effect, if there is one.
fn add(told: &mut Vec<Effect>, effect: Option<Effect>) -> Result<(), NoMemory>
    ensures { OnOk result (told.new.items ≡ told.old.items ++ option_to_list effect) }
{
    if let Some(effect) = effect {
        told.push(effect)?;
    }
    Ok(())
}

/// Adds the effects of one row, in rising id.
fn add_row(
    alloc: Global,
    row: Row,
    running: &[Instance],
    index: &BTreeMap<u64, &Change>,
    told: &mut Vec<Effect>,
) -> Result<(), NoMemory>
    ensures { OnOk result (told.new.items ≡ told.old.items ++ row_of row (found_in index.now) running.now) }
{
    for instance in running {
        let effect = effect_on(alloc, row, instance, index)?;
        add(told, effect)?;
    }
    Ok(())
}

/// The effects on the instances that ran before, in the order of the table.
fn old_effects(
    alloc: Global,
    running: &[Instance],
    index: &BTreeMap<u64, &Change>,
) -> Result<Vec<Effect>, NoMemory>
    ensures { IfOk result (λ v. v.items ≡ old_effects (found_in index.now) running.now) }
{
    let mut told = Vec::new(alloc);
    add_row(alloc, Row::More, running, index, &mut told)?;
    add_row(alloc, Row::Ended, running, index, &mut told)?;
    add_row(alloc, Row::Killed, running, index, &mut told)?;
    add_row(alloc, Row::Suspended, running, index, &mut told)?;
    add_row(alloc, Row::Resumed, running, index, &mut told)?;
    Ok(told)
}

/// The new instances, which get the next ids in the order of the list.
fn born(alloc: Global, changes: &[Change], last: u64) -> Result<Vec<Instance>, NoMemory>
    requires { last_after last changes.now < 2 ^ 64 }
    ensures { IfOk result (λ v. v.items ≡ born last changes.now) }
{
    let mut born = Vec::new(alloc);
    let mut id = last;
    for change in changes {
        if let (Some(args), true) = (&change.started, change.runs_after) {
            id += 1;
            born.push(Instance {
                id,
                body: change.body,
                args: copy_values(alloc, args.as_slice())?,
                queue: Queue::new(alloc),
                suspended: false,
            })?;
        }
    }
    Ok(born)
}

/// Adds the starts of the new instances.
fn add_starts(alloc: Global, born: &[Instance], told: &mut Vec<Effect>) -> Result<(), NoMemory>
    ensures { OnOk result (told.new.items ≡ told.old.items ++ map started born.now) }
{
    for instance in born {
        told.push(Effect::Started(
            instance.id,
            instance.body,
            copy_values(alloc, instance.args.as_slice())?,
        ))?;
    }
    Ok(())
}

/// Takes the first item off the queue, if there is one.
fn drop_first(queue: &mut Queue)
    ensures { queue.new ≡ drop 1 queue.old }
{
    let _ = queue.pop();
}

/// Whether the instance is marked suspended after the reaction.
fn suspended_after(suspended: bool, change: &Change) -> bool
    ensures { result ≡ (change.now.held || (suspended && not change.now.resumed)) }
{
    change.held || (suspended && !change.resumed)
}

/// Changes an instance that runs on.
fn change_instance(instance: &mut Instance, change: &Change)
    ensures { instance.new ≡ changed instance.old change.now }
{
    instance.suspended = suspended_after(instance.suspended, change);
    if change.used {
        drop_first(&mut instance.queue);
    }
}

/// Changes the instance if it runs on, and tells whether it does.
fn runs_on(instance: &mut Instance, change: Option<&Change>) -> bool
    ensures { after_change instance.old (option_copied change.entry) ≡
        (if result then Some instance.new else None) }
{
    match change {
        None => true,
        Some(change) if !change.ended && change.runs_after => {
            change_instance(instance, change);
            true
        }
        Some(_) => false,
    }
}

/// Changes the instances that run on, lets the others go, and adds the new ones, for which there is room.
fn finish(running: &mut Vec<Instance>, index: &BTreeMap<u64, &Change>, mut born: Vec<Instance>)
    requires { vec_len running.old + vec_len born ≤ vec_capacity running.old }
    ensures { running.new.items ≡ kept (found_in index.now) running.old.items ++ born.items }
{
    running.retain_mut(|instance| runs_on(instance, find(index, instance.id)));
    if running.append(&mut born).is_err() {
        unreachable!();
    }
}

/// How many ids the changes take.
fn new_ids(changes: &[Change]) -> usize
    ensures { result ≡ count_by takes_id changes.now }
{
    let mut new = 0;
    for change in changes {
        if change.started.is_some() && change.runs_after {
            new += 1;
        }
    }
    new
}

impl Instances {
    /// Whether ids are left for all that the changes start.
    pub fn has_ids(&self, changes: &[Change]) -> bool
        ensures { IsTrue result ↔ (last_after self.now.last changes.now < 2 ^ 64) }
    {
        new_ids(changes) as u64 <= u64::MAX - self.last
    }

    /// Adds to `out` what the changes of a reaction did to the instances, but for drops, in the order of the
    /// table of effects; and the instances are those that run after it. New ones that run after get the next
    /// ids in the order of the list, for which ids must be left. A reset is a list of changes in which nothing
    /// is started or ends and nothing runs after. After want of memory all is as before.
    pub fn advance(
        &mut self,
        alloc: Global,
        changes: &[Change],
        out: &mut Vec<Effect>,
    ) -> Result<(), NoMemory>
        requires { last_after self.old.last changes.now < 2 ^ 64 }
        ensures ok { OnOk result
            (self.new ≡ record {
              last = last_after self.old.last changes.now;
              instances = advanced self.old.last changes.now self.old.instances;
            }) }
        ensures told { OnOk result (out.new.items ≡ out.old.items ++
            effects self.old.last changes.now self.old.instances) }
        ensures err { OnErr result ((self.new ≡ self.old) × (out.new.items ≡ out.old.items)) }
    {
        let index = index_of(alloc, changes)?;
        let born = born(alloc, changes, self.last)?;
        let mut told = old_effects(alloc, &self.running, &index)?;
        add_starts(alloc, &born, &mut told)?;
        self.running.reserve(born.len())?;
        out.append(&mut told)?;
        self.last += born.len() as u64;
        finish(&mut self.running, &index, born);
        Ok(())
    }
}
