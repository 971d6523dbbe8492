//! One turn: a ticket is drawn, it is waited for, the job is done on the value, and the next ticket is served.
ghost use Rattle.std.specs.Prelude.{◌≡◌, ◌∷◌, [], ◌<◌, Some};
ghost use Rattle.turn_cell.specs.declared.view.Stage.TheVariants.{Outside, Waiting};
ghost use Rattle.turn_cell.specs.Views.{with_ticket, after_turn};
ghost use Rattle.turn_cell.specs.Steps.{IsAtRest, HasEntered, HasWorked, MayLeave};
ghost use Rattle.turn_cell.specs.Calls.{StartIs, TookTurn};

use crate::cell::TurnCell;
use crate::seat::Pass;
use crate::steps::{Draw, Leave, Look};
use crate::storied::{Storied, TurnJob};
use std::sync::Wait;

/// The word with the ticket that is served, the one with the next ticket, and the slot with the value.
pub(crate) const SERVING: usize = 0;

const TICKET: usize = 1;

const VALUE: usize = 0;

impl<T: Storied + Drop> TurnCell<T> {
    fn draw(&self, pass: &mut Pass<T>) -> u64
        requires own { pass.old.table_id ≡ self.now.table.shared.table_id }
        requires outside { pass.old.me.0.stage ≡ Outside }
        requires left { 0 < pass.old.me.0.allowance }
        ensures same { (pass.new.table_id ≡ pass.old.table_id) × (pass.new.id ≡ pass.old.id) }
        ensures me { pass.new.me ≡ (with_ticket pass.old.me.0 result, pass.old.me.1) }
    {
        self.table.shared.fetch_add::<Draw>(pass, TICKET, 1)
    }

    fn wait<R: Wait>(&self, rt: &R, pass: &mut Pass<T>, ticket: u64)
        requires own { pass.old.table_id ≡ self.now.table.shared.table_id }
        requires waits { pass.old.me.0.stage ≡ Waiting ticket }
        ensures same { (pass.new.table_id ≡ pass.old.table_id) × (pass.new.id ≡ pass.old.id) }
        ensures me { HasEntered T.story T.begins pass.old.me ticket pass.new.me }
    {
        for _ in rt.forever() {
            if self.table.shared.load::<Look>(pass, SERVING) == ticket {
                return;
            }
        }
        unreachable!()
    }

    /// Does the job on the value that the pass holds.
    fn work<J: TurnJob<T>>(&self, pass: &mut Pass<T>, job: J) -> J::Out
        requires own { pass.old.table_id ≡ self.now.table.shared.table_id }
        requires holds { (x : T) × (pass.old.me.1 ≡ (0, Some x) ∷ []) × J.asks job (T.begins x) }
        ensures same { (pass.new.table_id ≡ pass.old.table_id) × (pass.new.id ≡ pass.old.id) }
        ensures view { pass.new.me.0 ≡ pass.old.me.0 }
        ensures job { (x : T) → pass.old.me.1 ≡ (0, Some x) ∷ []
            → HasWorked T.story T.begins (λ b xs ys. J.does job b xs ys result) x pass.new.me.1 }
    {
        let Some(mut value) = self.table.shared.exchange(pass, VALUE, None) else {
            unreachable!()
        };
        let out = job.run(&mut value);
        let None = self.table.shared.exchange(pass, VALUE, Some(value)) else {
            unreachable!()
        };
        out
    }

    fn leave(&self, pass: &mut Pass<T>)
        requires own { pass.old.table_id ≡ self.now.table.shared.table_id }
        requires may { MayLeave T.story T.begins pass.old.me }
        ensures same { (pass.new.table_id ≡ pass.old.table_id) × (pass.new.id ≡ pass.old.id) }
        ensures me { (m : MayLeave T.story T.begins pass.old.me)
            → pass.new.me ≡ (after_turn pass.old.me.0 m.before (T.story m.value), []) }
    {
        self.table.shared.fetch_add::<Leave>(pass, SERVING, 1);
    }

    pub(crate) fn take_turn<J: TurnJob<T>, R: Wait>(
        &self,
        rt: &R,
        pass: &mut Pass<T>,
        job: J,
    ) -> J::Out
        requires own { pass.old.table_id ≡ self.now.table.shared.table_id }
        requires rests { IsAtRest pass.old.me }
        requires left { 0 < pass.old.me.0.allowance }
        requires asks { StartIs (J.asks job) pass.old.me.0 }
        ensures same { (pass.new.table_id ≡ pass.old.table_id) × (pass.new.id ≡ pass.old.id) }
        ensures rests { IsAtRest pass.new.me }
        ensures turn { TookTurn (λ b xs ys. J.does job b xs ys result) pass.old.me.0 pass.new.me.0 }
    {
        let ticket = self.draw(pass);
        self.wait(rt, pass, ticket);
        let out = self.work(pass, job);
        self.leave(pass);
        out
    }
}
