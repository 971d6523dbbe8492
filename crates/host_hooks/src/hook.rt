//! Hooks of the host.

ghost use Rattle.std.specs.Prelude.{◌≡◌, IfOk};
ghost use Rattle.host_hooks.specs.Law.{AnswersAllowed, IsAllowedBy, LawFits, TakesAll, kinds_of};

use crate::law::HookLaw;
use hh_base::memory::NoMemory;
use hh_base::name::Name;
use hh_base::value::{Kind, Value};

/// What a hook runs: it answers a value to a list of arguments, unless memory runs out.
pub type HookCall = Box<dyn Fn(&[Value]) -> Result<Value, NoMemory> + Send + Sync>;

/// A body that the host stores: its name, the kinds of its arguments and of its answer, what it promises of
/// its answers, and what it runs, which keeps that promise. Contracts see all but the last.
#[derive(Drop)]
pub struct Hook {
    name: Name,
    params: Vec<Kind>,
    answer: Kind,
    law: HookLaw,
    call: HookCall,
    ghost fits: { ∥ LawFits law params.items answer ∥₁ },
    ghost takes: { TakesAll params.items (HookCall.pre call) },
    ghost answers: { AnswersAllowed law params.items answer (HookCall.post call) },
}

impl Hook {
    ghost use Rattle.host_hooks.specs.Promise.{promise_of};

    /// The hook that runs this call, which may be called on all arguments of these kinds, and each value
    /// that it then answers is of the answer's kind and allowed by the law. Takes no memory.
    pub fn new(name: Name, params: Vec<Kind>, answer: Kind, law: HookLaw, call: HookCall) -> Hook
        requires fits { ∥ LawFits law params.items answer ∥₁ }
        requires takes { TakesAll params.items (HookCall.pre call) }
        requires answers { AnswersAllowed law params.items answer (HookCall.post call) }
        ensures { promise_of result ≡ record {
          name = name;
          params = params.items;
          answer = answer;
          law = law;
        } }
    {
        Hook {
            name,
            params,
            answer,
            law,
            call,
        }
    }

    /// The name by which a program calls it.
    pub fn name(&self) -> &str
        ensures { result.now ≡ self.now.name }
    {
        self.name.as_str()
    }

    /// The kinds of its arguments.
    pub fn params(&self) -> &[Kind]
        ensures { result.now ≡ self.now.params.items }
    {
        &self.params
    }

    /// The kind of its answer.
    pub fn answer(&self) -> Kind
        ensures { result ≡ self.now.answer }
    {
        self.answer
    }

    /// What it answers to these arguments.
    pub(crate) fn run(&self, args: &[Value]) -> Result<Value, NoMemory>
        requires { kinds_of args.now ≡ self.now.params.items }
        ensures { IfOk result (λ v. ∥ IsAllowedBy self.now.law self.now.answer args.now v ∥₁) }
    {
        (self.call)(args)
    }
}
