//! Answers enter the running instances.

ghost use Rattle.std.specs.Prelude.{◌≡◌, ◌<◌, ◌++◌, ◌∷◌, [], false, Some, None, ℕ, IfOk, IfErr, OnOk, OnErr};
ghost use Rattle.std.specs.Prelude.{MatchOption, MatchResult, IsTrue, ◌↔◌, slice_get, length, map};
ghost use Rattle.hh_base.specs.Queue.{ends_with_last};
ghost use Rattle.exec_instance.specs.Kinds.{same_kind};
ghost use Rattle.exec_instance.specs.Entering.{under, is_well_typed};

use super::Instances;
use crate::answer::{Answer, Answers};
use crate::effect::{Effect, Reason};
use crate::instance::Instance;
use hh_base::item::{Item, Queue};
use hh_base::value::{Kind, NoMemory};
use std::alloc::Global;

/// Whether the two kinds are the same.
fn same_kind(a: Kind, b: Kind) -> bool
    ensures { result ≡ same_kind a b }
{
    match (a, b) {
        (Kind::Pure, Kind::Pure) => true,
        (Kind::Int, Kind::Int) => true,
        (Kind::Bool, Kind::Bool) => true,
        (Kind::Text, Kind::Text) => true,
        _ => false,
    }
}

/// Adds an answer at the end of a queue that takes more.
fn push(queue: &mut Queue, item: Item) -> Result<(), NoMemory>
    requires { ends_with_last queue.old ≡ false }
    ensures ok { OnOk result (queue.new ≡ queue.old ++ item ∷ []) }
    ensures err { OnErr result (queue.new ≡ queue.old) }
{
    queue.try_push(item)?;
    Ok(())
}

impl Instances {
    ghost use Rattle.exec_instance.specs.Running.{holder};
    ghost use Rattle.exec_instance.specs.Entering.{Enters, Drops, verdict, with_item, after, entered};
    ghost use Rattle.exec_instance.specs.Entering.{dropped, drops};
    ghost use Rattle.exec_instance.specs.Places.{IsHeldAt, IsOpenAt, shortened, queue_length};

    /// The place of the instance that has the id.
    fn place_of(&self, id: u64) -> Option<usize>
        ensures { MatchOption result (holder self.now.instances id ≡ None) (IsHeldAt self.now.instances id) }
    {
        self.running
            .binary_search_by_key(&id, |instance| instance.id)
            .ok()
    }

    /// The place of the instance that the answer enters, or why it does not enter.
    fn judge(&self, kinds: &[Kind], parts: bool, answer: &Answer) -> Result<usize, Reason>
        ensures enters { IfOk result
            (λ place. verdict (under kinds.now parts self.now.last) self.now.instances answer.now ≡ Enters) }
        ensures place { IfOk result (IsOpenAt self.now.instances answer.now.id) }
        ensures drops { IfErr result
            (λ reason. verdict (under kinds.now parts self.now.last) self.now.instances answer.now ≡
            Drops reason) }
    {
        if answer.id == 0 || answer.id > self.last {
            return Err(Reason::Unknown);
        }
        let Some(place) = self.place_of(answer.id) else {
            return Err(Reason::Stale);
        };
        let instance = &self.running[place];
        if instance.queue.ends_with_last() {
            return Err(Reason::Repeated);
        }
        if is_well_typed(kinds, parts, instance, answer) {
            Ok(place)
        } else {
            Err(Reason::Mistyped)
        }
    }

    /// Puts the answer at the end of the queue of the instance at this place.
    fn put(&mut self, alloc: Global, place: usize, answer: &Answer) -> Result<(), NoMemory>
        requires { IsOpenAt self.old.instances answer.now.id place }
        ensures ok { OnOk result
            (self.new ≡ record self.old { instances = map (with_item answer.now) self.old.instances }) }
        ensures err { OnErr result (self.new ≡ self.old) }
    {
        let item = answer.item(alloc)?;
        push(&mut self.running[place].queue, item)
    }

    /// Tries one answer.
    fn try_answer(
        &mut self,
        alloc: Global,
        kinds: &[Kind],
        parts: bool,
        answer: &Answer,
        out: &mut Vec<Effect>,
    ) -> Result<(), NoMemory>
        ensures ok { OnOk result
            (self.new ≡ record self.old {
              instances = after (verdict (under kinds.now parts self.old.last) self.old.instances answer.now)
                  answer.now self.old.instances;
            }) }
        ensures told { OnOk result (out.new.items ≡ out.old.items ++
            dropped (verdict (under kinds.now parts self.old.last) self.old.instances answer.now)
            answer.now) }
        ensures err { OnErr result ((self.new ≡ self.old) × (out.new.items ≡ out.old.items)) }
    {
        match self.judge(kinds, parts, answer) {
            Ok(place) => self.put(alloc, place, answer),
            Err(reason) => {
                out.push(Effect::Dropped(answer.id, reason))?;
                Ok(())
            }
        }
    }

    /// Keeps so many items of each queue.
    fn shorten(&mut self, lengths: &[usize])
        requires { length lengths.now ≡ length self.old.instances }
        ensures { self.new ≡ record self.old { instances = shortened lengths.now self.old.instances } }
    {
        for (place, instance) in self.running.iter_mut().enumerate() {
            instance.queue.truncate(lengths[place]);
        }
    }

    /// Tries the answers in order: each enters the queue of its instance, or its drop is added to `out`.
    /// `kinds` are those that the bodies answer, and `parts` says whether answers that are not last are taken.
    /// After want of memory all is as before.
    pub fn enter(
        &mut self,
        alloc: Global,
        kinds: &[Kind],
        parts: bool,
        answers: &Answers,
        out: &mut Vec<Effect>,
    ) -> Result<(), NoMemory>
        ensures ok { OnOk result
            (self.new ≡ record self.old
            { instances = entered (under kinds.now parts self.old.last) self.old.instances answers.now }) }
        ensures told { OnOk result (out.new.items ≡ out.old.items ++
            drops (under kinds.now parts self.old.last) self.old.instances answers.now) }
        ensures err { OnErr result ((self.new ≡ self.old) × (out.new.items ≡ out.old.items)) }
    {
        let lengths: Vec<usize> = self.queue_lengths(alloc)?;
        let told = out.len();
        for answer in answers.as_slice() {
            if self.try_answer(alloc, kinds, parts, answer, out).is_err() {
                self.shorten(&lengths);
                out.truncate(told);
                return Err(NoMemory);
            }
        }
        Ok(())
    }

    fn queue_lengths(&self, alloc: Global) -> Result<Vec<usize>, NoMemory>
        ensures { IfOk result (λ v. v.items ≡ map queue_length self.now.instances) }
    {
        Ok(
            self.running
                .iter()
                .map(|instance| instance.queue.len())
                .collect(alloc)?,
        )
    }
}

/// Whether the answer is of the kind that the instance's body answers, and last where partial ones are not
/// taken.
fn is_well_typed(kinds: &[Kind], parts: bool, instance: &Instance, answer: &Answer) -> bool
    ensures { (last : ℕ) → result ≡ is_well_typed (under kinds.now parts last) instance.now answer.now }
{
    let of_kind = match kinds.get(instance.body as usize) {
        Some(kind) => same_kind(*kind, answer.value.kind()),
        None => false,
    };
    of_kind && (answer.last || parts)
}
