//! Laws of every run of the machine on terms. Each call does nothing; its contract is the law.

ghost use Rattle.std.specs.Prelude.{◌≡◌, ℕ, List};
ghost use Rattle.hh_term.specs.Kernel.{Kernel};
ghost use Rattle.hh_term.specs.Marks.{IdsDiffer};
ghost use Rattle.reaction_run.specs.declared.event.Event.{Event};
ghost use Rattle.reaction_run.specs.Machine.{State, begin};
ghost use Rattle.reaction_run.specs.Run.{final_state};
ghost use Rattle.reaction_run.specs.Lives.{UsesOne};
ghost use Rattle.term_machine.specs.Place.{Place, start_of};
ghost use Rattle.term_machine.specs.ConstructiveMachine.{constructive};
ghost use Rattle.term_machine.specs.Standing.{Stands};

/// In every state that a run reaches, control rests in the program's statement, and the ids in its marks
/// differ, lie from 1 to the last id, and are those of the running instances.
pub fn marks_are_the_running_instances()
    ensures from_begin { (K : Kernel) (last : ℕ) (events : List Event)
        → Stands (final_state constructive (begin constructive (start_of K) last) events) }
    ensures stays { (S : State Place) (events : List Event) → Stands S
        → Stands (final_state constructive S events) }
    ensures differ { (S : State Place) → Stands S → IdsDiffer S.place.control }
{}

/// No instance uses two answers in one reaction.
pub fn uses_one()
    ensures { UsesOne constructive }
{}
