//! What a machine answers.

ghost use Rattle.std.specs.Prelude.{◌≡◌, IfOk};

use exec_instance::effect::Effect;
use hh_base::name::Name;
use hh_base::text::Text;
use hh_base::value::{FaultKind, NoMemory, Pos, Value, copy_values};
use sqlite_items::Items;
use std::alloc::Global;

/// Effects in order. Contracts see the list.
pub type Effects = Items<Effect>;

/// Present outputs in order of declaration, each with its value. Contracts see the list.
pub type Outputs = Items<(u32, Value)>;

/// Names in order. Contracts see the list of them.
pub type Names = Items<Name>;

/// An accepted reaction: the present `out` and `inout` signals in order of declaration, whether the program
/// completed with 0 in it, and the effects on answers and instances.
#[derive(Drop)]
pub struct Done {
    pub outs: Outputs,
    pub ended: bool,
    pub effects: Effects,
}

/// The reply to an event. Refusals of a reaction are: signals left undecided, by name in order of
/// declaration; a valued signal without a combine word that was emitted twice; a fault at a position; that no
/// ids are left, with the last one. `Idle` where nothing waits to be pumped, and the kills of a reset.
#[derive(Drop)]
pub enum Reply {
    Done(Done),
    Causality(Names),
    Multiple(Name),
    Fault(Pos, FaultKind),
    Worn(u64),
    Idle,
    Reset(Effects),
}

/// A copy of the action that an async names, if it names one.
pub fn copy_action(alloc: Global, action: &Option<Text>) -> Result<Option<Text>, NoMemory>
    ensures { IfOk result (λ a. a ≡ action.now) }
{
    Ok(match action {
        Some(text) => Some(text.copy(alloc)?),
        None => None,
    })
}

/// An effect of its own that is the same.
pub fn copy_effect(alloc: Global, effect: &Effect) -> Result<Effect, NoMemory>
    ensures { IfOk result (λ e. e ≡ effect.now) }
{
    Ok(match effect {
        Effect::Dropped(id, reason) => Effect::Dropped(*id, *reason),
        Effect::More(id, value) => Effect::More(*id, value.copy(alloc)?),
        Effect::Ended(id, value) => Effect::Ended(*id, value.copy(alloc)?),
        Effect::Killed(id, action) => Effect::Killed(*id, copy_action(alloc, action)?),
        Effect::Suspended(id, action) => Effect::Suspended(*id, copy_action(alloc, action)?),
        Effect::Resumed(id, action) => Effect::Resumed(*id, copy_action(alloc, action)?),
        Effect::Started(id, body, args) => {
            Effect::Started(*id, *body, copy_values(alloc, args.as_slice())?)
        }
    })
}

/// A copy of the effects, in their order.
pub fn copy_effects(alloc: Global, effects: &[Effect]) -> Result<Effects, NoMemory>
    ensures { IfOk result (λ e. e ≡ effects.now) }
{
    let mut copies = Vec::with_capacity(alloc, effects.len())?;
    for effect in effects {
        copies.push(copy_effect(alloc, effect)?)?;
    }
    Ok(Items::from_vec(copies))
}

/// A copy of the outputs, in their order.
pub fn copy_outputs(alloc: Global, outputs: &[(u32, Value)]) -> Result<Outputs, NoMemory>
    ensures { IfOk result (λ o. o ≡ outputs.now) }
{
    let mut copies = Vec::with_capacity(alloc, outputs.len())?;
    for output in outputs {
        copies.push((output.0, output.1.copy(alloc)?))?;
    }
    Ok(Items::from_vec(copies))
}

/// A copy of the names, in their order.
pub fn copy_names(alloc: Global, names: &[Name]) -> Result<Names, NoMemory>
    ensures { IfOk result (λ n. n ≡ names.now) }
{
    let mut copies = Vec::with_capacity(alloc, names.len())?;
    for name in names {
        copies.push(name.copy(alloc)?)?;
    }
    Ok(Items::from_vec(copies))
}

impl Done {
    /// The same of its own.
    pub fn copy(&self, alloc: Global) -> Result<Done, NoMemory>
        ensures { IfOk result (λ d. d ≡ self.now) }
    {
        Ok(Done {
            outs: copy_outputs(alloc, self.outs.as_slice())?,
            ended: self.ended,
            effects: copy_effects(alloc, self.effects.as_slice())?,
        })
    }
}

impl Reply {
    /// A reply of its own that is the same.
    pub fn copy(&self, alloc: Global) -> Result<Reply, NoMemory>
        ensures { IfOk result (λ r. r ≡ self.now) }
    {
        Ok(match self {
            Reply::Done(done) => Reply::Done(done.copy(alloc)?),
            Reply::Causality(names) => Reply::Causality(copy_names(alloc, names.as_slice())?),
            Reply::Multiple(name) => Reply::Multiple(name.copy(alloc)?),
            Reply::Fault(pos, kind) => Reply::Fault(*pos, *kind),
            Reply::Worn(last) => Reply::Worn(*last),
            Reply::Idle => Reply::Idle,
            Reply::Reset(kills) => Reply::Reset(copy_effects(alloc, kills.as_slice())?),
        })
    }
}
