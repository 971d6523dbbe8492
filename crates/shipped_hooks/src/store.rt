//! Storing the hooks `text_size` and `same_text`. A boxed closure may not be handed out by the function that
//! makes it, so callers make the two closures, by `text_size` of host_hooks and by `compare`, and hand them
//! in.

ghost use Rattle.std.specs.Prelude.{◌≡◌, ◌++◌, ◌∷◌, [], OnOk};
ghost use Rattle.hh_base.specs.declared.value.Kind.TheVariants as kind;
ghost use Rattle.host_hooks.specs.Law.{AnswersAllowed, LawFits, TakesAll, kinds_of};
ghost use Rattle.host_hooks.specs.Shipped.{one_text, size_law, two_texts};
ghost use Rattle.host_hooks.specs.Stored.{promises_of};
ghost use Rattle.shipped_hooks.specs.Shipping.{AnswersSameText, IsSameText, AddsSameText, text_size_promise};

use hh_base::memory::NoMemory;
use hh_base::name::Name;
use hh_base::value::{Kind, Value};
use host_hooks::hook::{Hook, HookCall};
use host_hooks::law::HookLaw;
use host_hooks::shipped::{same_text, same_text_law, text_size_law};
use host_hooks::table::HookTable;
use std::alloc::Global;

/// Whether two texts are the same, by the law of `same_text`.
pub fn compare(args: &[Value]) -> Value
    requires { kinds_of args.now ≡ two_texts }
    ensures { IsSameText args.now result }
{
    same_text(args)
}

/// Stores a hook of this name. That its name is stored already counts as want of memory.
fn store(
    alloc: Global,
    hooks: &mut HookTable,
    name: &str,
    params: Vec<Kind>,
    answer: Kind,
    law: HookLaw,
    call: HookCall,
) -> Result<(), NoMemory>
    requires fits { ∥ LawFits law params.items answer ∥₁ }
    requires takes { TakesAll params.items (HookCall.pre call) }
    requires answers { AnswersAllowed law params.items answer (HookCall.post call) }
    ensures { OnOk result (promises_of hooks.new ≡ promises_of hooks.old
        ++ record { name = name.now; params = params.items; answer = answer; law = law } ∷ []) }
{
    let Ok(name) = Name::read(alloc, name) else {
        return Err(NoMemory);
    };
    match hooks.add(alloc, Hook::new(name, params, answer, law, call)) {
        Ok(()) => Ok(()),
        Err(_) => Err(NoMemory),
    }
}

/// Stores the hook `text_size`, which runs this call.
pub fn store_text_size(alloc: Global, hooks: &mut HookTable, call: HookCall) -> Result<(), NoMemory>
    requires takes { TakesAll one_text (HookCall.pre call) }
    requires answers { AnswersAllowed size_law one_text kind.Int (HookCall.post call) }
    ensures { OnOk result (promises_of hooks.new ≡ promises_of hooks.old ++ text_size_promise ∷ []) }
{
    let texts = Vec::from_slice(alloc, &[Kind::Text])?;
    let law = text_size_law();
    Ok(store(alloc, hooks, "text_size", texts, Kind::Int, law, call)?)
}

/// Stores the hook `same_text`, which runs this call.
pub fn store_same_text(alloc: Global, hooks: &mut HookTable, call: HookCall) -> Result<(), NoMemory>
    requires takes { TakesAll two_texts (HookCall.pre call) }
    requires answers { AnswersSameText (HookCall.post call) }
    ensures { OnOk result (AddsSameText (promises_of hooks.old) (promises_of hooks.new)) }
{
    let texts = Vec::from_slice(alloc, &[Kind::Text, Kind::Text])?;
    let law = same_text_law(alloc)?;
    Ok(store(alloc, hooks, "same_text", texts, Kind::Bool, law, call)?)
}
