//! A deque as a lane reaches it from outside, seen as which deque it is and what was taken by it.
ghost use Rattle.std.specs.Prelude.{◌≡◌, ◌<◌, [], ◌++◌, ◌∷◌, All, IfSome, IfNone};
ghost use Rattle.crossbeam_deque.specs.Handles.{view, IsPassOf, stealer_deque, stealer_flavor};
ghost use Rattle.cqp_pool.specs.Often.{AsOften};
ghost use Rattle.cqp_pool.specs.Tallies.{tally, new_tally, after_take, WasEmpty};
ghost use Rattle.cqp_pool.specs.Parts.{new_reach, stolen, deques_of, passes_of};

use crate::numbered::Numbered;
use crate::tally::{Accounts, Takes, Tally};
use crossbeam_deque::{Pass, Steal, Stealer, Worker};
use std::alloc::Global;
use std::marker::Model;
use std::sync::Wait;
use std::thread;

/// A deque under the rule.
pub(crate) type Deque<T> = Worker<T, Global, Tally, Accounts>;

/// A handle that steals from it.
pub(crate) type Thief<T> = Stealer<T, Global, Tally, Accounts>;

/// A way into a deque from outside. A lane has one for each deque of its pool, its own too.
#[derive(Drop)]
pub(crate) struct Reach<T: Numbered> {
    thief: Thief<T>,
    pass: Pass<T, Tally>,
}

impl<T: Numbered> Model for Reach<T> {
    ghost use Rattle.std.specs.Prelude.{◌≡◌, []};
    ghost use Rattle.crossbeam_deque.specs.Handles as handles;
    ghost use Rattle.cqp_pool.specs.Parts.{Reached};

    ghost Value = { Reached };

    ghost view = { λ r. record {
      deque = handles.stealer_deque r.thief;
      taken = (handles.view r.pass).taken;
    } };

    ghost invariant = { λ r.
        handles.IsPassOf (handles.stealer_deque r.thief) r.pass
        × (handles.stealer_flavor r.thief ≡ 0)
        × ((handles.view r.pass).parts ≡ 1)
        × ((handles.view r.pass).pushed ≡ []) };
}

impl<T: Numbered> Reach<T> {
    pub(crate) fn new(thief: Thief<T>, pass: Pass<T, Tally>) -> Reach<T>
        requires pass { IsPassOf (stealer_deque thief) pass × (view pass ≡ new_tally 1) }
        requires first_in_first_out { stealer_flavor thief ≡ 0 }
        ensures { result ≡ new_reach (stealer_deque thief) }
    {
        Reach { thief, pass }
    }

    pub(crate) fn into_pass(self) -> Pass<T, Tally>
        ensures { IsPassOf self.deque result × (view result ≡ tally 1 [] self.taken) }
    {
        let Reach {
            thief: _thief,
            pass,
        } = self;
        pass
    }

    /// Takes the item at the front. `None` only if the deque was empty at one moment.
    pub(crate) fn steal<R: Wait>(&mut self, rt: &R) -> Option<T>
        ensures deque { self.new.deque ≡ self.old.deque }
        ensures taken { IfSome result (λ x. self.new.taken ≡ self.old.taken ++ T.number x ∷ []) }
        ensures none { IfNone result (
            (self.new ≡ self.old) × WasEmpty (tally 1 [] self.old.taken)) }
    {
        steal_by(rt, &self.thief, &mut self.pass)
    }
}

// Steals, and tries again where another thread was quicker.
fn steal_by<T: Numbered, R: Wait>(rt: &R, thief: &Thief<T>, pass: &mut Pass<T, Tally>) -> Option<T>
    requires pass { IsPassOf (stealer_deque thief.now) pass.old }
    requires first_in_first_out { stealer_flavor thief.now ≡ 0 }
    requires part { 0 < (view pass.old).parts }
    ensures pass { IsPassOf (stealer_deque thief.now) pass.new }
    ensures taken { IfSome result (λ x. view pass.new ≡ after_take (T.number x) (view pass.old)) }
    ensures none { IfNone result ((view pass.new ≡ view pass.old) × WasEmpty (view pass.old)) }
{
    for _ in rt.forever() {
        match thief.steal_as::<Takes>(pass) {
            Steal::Success(item) => return Some(item),
            Steal::Empty => return None,
            Steal::Retry => thread::yield_now(),
        }
    }
    unreachable!()
}

/// Takes the item at the front of one of the deques. `None` only if each was empty at one moment.
pub(crate) fn steal_any<T: Numbered, R: Wait>(rt: &R, row: &mut Vec<Reach<T>>) -> Option<T>
    ensures deques { deques_of row.new.items ≡ deques_of row.old.items }
    ensures taken { IfSome result (λ x.
        AsOften (stolen row.new.items) (T.number x ∷ stolen row.old.items)) }
    ensures none { IfNone result
        ((row.new.items ≡ row.old.items) × All WasEmpty (passes_of row.old.items)) }
{
    steal_in(rt, row.as_mut_slice())
}

fn steal_in<T: Numbered, R: Wait>(rt: &R, row: &mut [Reach<T>]) -> Option<T>
    ensures deques { deques_of row.new ≡ deques_of row.old }
    ensures taken { IfSome result (λ x. AsOften (stolen row.new) (T.number x ∷ stolen row.old)) }
    ensures none { IfNone result ((row.new ≡ row.old) × All WasEmpty (passes_of row.old)) }
{
    for k in 0..row.len() {
        let reach = &mut row[k];
        if let Some(item) = reach.steal(rt) {
            return Some(item);
        }
    }
    None
}
