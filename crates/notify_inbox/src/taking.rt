//! Taking answers, and the end of an inbox.
ghost use Rattle.std.specs.Prelude.{◌≡◌, ◌+◌, ◌≤◌, length, map, All, IfOk, IfSome, IfNone, OnErr, vec_len};
ghost use Rattle.std.specs.Prelude.{vec_capacity};
ghost use Rattle.notify_inbox.specs.Views.{taken, gathering};
ghost use Rattle.notify_inbox.specs.Calls.{take_view, posts_in, empties_of, IsTakePassOf, IsPostPassOf};
ghost use Rattle.notify_inbox.specs.Calls.{RanDry, TookUpTo, TookAll, Drained};
ghost use Rattle.notify_inbox.specs.declared.limits.TheConstants.{INBOX_PLACES};

use crate::limits::INBOX_PLACES;
use crate::passes::{Inbox, PostPass, TakePass};
use crate::steps::{Gather, Take};
use exec_instance::answer::Answer;
use hh_base::value::NoMemory;
use std::sync::Wait;

impl TakePass {
    /// How often it found the queue empty: it rises by one at each None of `take_one`, up to 2^64 - 1.
    pub fn empties(&self) -> u64
        ensures { result ≡ empties_of self.now }
    {
        self.empties
    }
}

impl Inbox {
    /// Takes the answer that was posted first of those that are left. None only where the queue was empty
    /// at a moment of this call. Takes no memory.
    pub fn take_one<R: Wait>(&self, rt: &R, pass: &mut TakePass) -> Option<Answer>
        requires { IsTakePassOf self.now pass.old }
        ensures own { IsTakePassOf self.now pass.new }
        ensures taken { IfSome result (λ answer.
            take_view pass.new ≡ taken (take_view pass.old) answer) }
        ensures not_counted { IfSome result (λ _. empties_of pass.new ≡ empties_of pass.old) }
        ensures same { IfNone result (take_view pass.new ≡ take_view pass.old) }
        ensures dry { IfNone result (RanDry pass.old pass.new) }
    {
        match self.queue.pop_as::<Take, R>(rt, &mut pass.pass) {
            Some(answer) => Some(answer),
            None => {
                pass.empties = pass.empties.saturating_add(1);
                None
            }
        }
    }

    /// Takes until so many were taken or the queue was found empty, and says whether it was.
    fn take_up_to<R: Wait>(
        &self,
        rt: &R,
        pass: &mut TakePass,
        into: &mut Vec<Answer>,
        most: usize,
    ) -> bool
        requires own { IsTakePassOf self.now pass.old }
        requires room { vec_len into.old + most ≤ vec_capacity into.old }
        ensures own { IsTakePassOf self.now pass.new }
        ensures took { TookUpTo most result pass.old pass.new into.old.items into.new.items }
    {
        for _ in 0..most {
            match self.take_one(rt, pass) {
                Some(answer) => {
                    if into.push(answer).is_err() {
                        unreachable!()
                    }
                }
                None => return true,
            }
        }
        false
    }

    /// Takes until the list has 4,096 answers or the queue was found empty, appending in order, and
    /// answers how many it took. It makes room for 4,096 first, so where memory ran out nothing was taken.
    pub fn take_all<R: Wait>(
        &self,
        rt: &R,
        pass: &mut TakePass,
        into: &mut Vec<Answer>,
    ) -> Result<usize, NoMemory>
        requires own { IsTakePassOf self.now pass.old }
        requires few { length into.old.items ≤ INBOX_PLACES }
        ensures own { IsTakePassOf self.now pass.new }
        ensures took { IfOk result (λ n.
            TookAll pass.old pass.new into.old.items into.new.items n) }
        ensures pass { OnErr result (pass.new ≡ pass.old) }
        ensures same { OnErr result (into.new.items ≡ into.old.items) }
    {
        let had = into.len();
        let most = INBOX_PLACES - had;
        into.reserve(most)?;
        self.take_up_to(rt, pass, into, most);
        Ok(into.len() - had)
    }

    /// Takes in post passes of this inbox. The take pass has their posts then, each pass's in a list of
    /// its own, in the order of the passes.
    pub fn gather(&self, pass: &mut TakePass, posters: &mut Vec<PostPass>)
        requires own { IsTakePassOf self.now pass.old }
        requires posters { All (λ p. IsPostPassOf self.now p) posters.old.items }
        ensures own { IsTakePassOf self.now pass.new }
        ensures gathered { take_view pass.new
            ≡ gathering (take_view pass.old) (map posts_in posters.old.items) }
        ensures empties { empties_of pass.new ≡ empties_of pass.old }
    {
        while let Some(poster) = posters.pop() {
            let PostPass { pass: post } = poster;
            self.queue.absorb::<Gather>(&mut pass.pass, post);
        }
    }

    /// Takes what the queue holds at the end, at most 4,096 answers, into a list with room for them.
    pub fn drain<R: Wait>(&self, rt: &R, pass: &mut TakePass, into: &mut Vec<Answer>)
        requires own { IsTakePassOf self.now pass.old }
        requires room { vec_len into.old + INBOX_PLACES ≤ vec_capacity into.old }
        ensures own { IsTakePassOf self.now pass.new }
        ensures drained { Drained pass.old pass.new into.old.items into.new.items }
    {
        self.queue.learn_as::<Take>(&mut pass.pass);
        if !self.take_up_to(rt, pass, into, INBOX_PLACES) {
            self.queue.learn_as::<Take>(&mut pass.pass);
        }
    }
}
