//! The end of a shared machine.
ghost use Rattle.std.specs.Prelude.{◌≡◌, ◌+◌, ◌<◌, ◌^◌, [], map, All, IfOk, IfErr, OnErr};
ghost use Rattle.turn_cell.specs.Calls.{view};
ghost use Rattle.notify_inbox.specs.Calls.{posts_in, posters_of, IsPostPassOf};
ghost use Rattle.reaction_history.specs.Calls.{IsSeatOf, HasClosed};

use crate::shared::Shared;
use notify_inbox::passes::PostPass;
use reaction_desk::closing::Closed;
use reaction_desk::desk::Desk;
use reaction_run::reactor::Reactor;
use std::alloc::Global;
use std::sync::Wait;
use turn_cell::calls::Apart;
use turn_cell::seat::Seat;

/// Another seat was not joined. The shared machine and the seat come back.
#[derive(Drop)]
pub struct ApartShared<C, S> {
    pub shared: C,
    pub seat: S,
}

impl<M: Reactor + Drop> Shared<M> {
    /// The machine, its history and the answers that are left, where the seat has the turns of all seats, and
    /// what is known of the posts of these passes. Takes no memory.
    pub fn close_with<R: Wait>(
        self,
        rt: &R,
        seat: Seat<Desk<M>>,
        passes: &mut Vec<PostPass>,
    ) -> Result<Closed<M>, ApartShared<Shared<M>, Seat<Desk<M>>>>
        requires own { IsSeatOf self seat }
        requires passes { All (λ p. IsPostPassOf self.inbox p) passes.old.items }
        ensures closed { IfOk result (λ c. HasClosed M.state M.machine (view seat) c.machine c.log c.left
            (map posts_in passes.old.items) (posters_of self.inbox)) }
        ensures shared { IfErr result (λ a. a.shared ≡ self) }
        ensures seat { IfErr result (λ a. a.seat ≡ seat) }
        ensures fewer { OnErr result ((view seat).allowance + (view seat).spent < 2 ^ 63) }
        ensures same { OnErr result (passes.new ≡ passes.old) }
    {
        let Shared {
            cell,
            inbox,
            interface,
        } = self;
        match cell.close(seat) {
            Ok(desk) => Ok(desk.close(rt, &inbox, passes)),
            Err(Apart { cell, seat }) => Err(ApartShared {
                shared: Shared {
                    cell,
                    inbox,
                    interface,
                },
                seat,
            }),
        }
    }

    /// The machine, its history and the answers that are left, where the seat has the turns of all seats. Takes
    /// no memory.
    pub fn close<R: Wait>(
        self,
        rt: &R,
        alloc: Global,
        seat: Seat<Desk<M>>,
    ) -> Result<Closed<M>, ApartShared<Shared<M>, Seat<Desk<M>>>>
        requires own { IsSeatOf self seat }
        ensures closed { IfOk result (λ c. HasClosed M.state M.machine (view seat) c.machine c.log c.left
            [] (posters_of self.inbox)) }
        ensures shared { IfErr result (λ a. a.shared ≡ self) }
        ensures seat { IfErr result (λ a. a.seat ≡ seat) }
        ensures fewer { OnErr result ((view seat).allowance + (view seat).spent < 2 ^ 63) }
    {
        self.close_with(rt, seat, &mut Vec::new(alloc))
    }
}
