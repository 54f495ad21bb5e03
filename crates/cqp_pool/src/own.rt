//! A lane's own deque, seen as which deque it is and what its owner knows.
ghost use Rattle.std.specs.Prelude.{◌≡◌, ◌<◌, IfOk, IfSome, IfNone, OnOk, IfErr};
ghost use Rattle.cqp_pool.specs.Tallies.{new_tally, after_push, after_take, WasEmpty, IsDrained};
ghost use Rattle.cqp_pool.specs.Parts.{lend, new_reach, takes_in, IsSettled};

use crate::numbered::Numbered;
use crate::reach::{Deque, Reach};
use crate::tally::{Adds, Counts, Cut, Drains, Settles, Takes};
use std::alloc::{AllocError, Global};
use std::marker::Model;

// The slots that a deque begins with.
const SLOTS: usize = 64;

// A deque with this many items refuses more.
const MOST_ITEMS: usize = 4096;

/// A lane's own deque.
#[derive(Drop)]
pub(crate) struct Own<T: Numbered> {
    worker: Deque<T>,
}

impl<T: Numbered> Model for Own<T> {
    ghost use Rattle.std.specs.Prelude.{◌≡◌};
    ghost use Rattle.crossbeam_deque.specs.Handles as handles;
    ghost use Rattle.cqp_pool.specs.Parts.{Owned};

    ghost Value = { Owned };

    ghost view = { λ o. record {
      deque = handles.worker_deque o.worker;
      view = handles.worker_view o.worker;
    } };

    // First in, first out: a steal that finds nothing found an empty deque.
    ghost invariant = { λ o. handles.worker_flavor o.worker ≡ 0 };
}

impl<T: Numbered> Own<T> {
    pub(crate) fn new(alloc: Global) -> Result<Own<T>, AllocError>
        ensures { IfOk result (λ own. own.view ≡ new_tally 1024) }
    {
        let worker = Deque::fifo_as(alloc, SLOTS)?;
        Ok(Own { worker })
    }

    /// A way for a lane to steal here.
    pub(crate) fn reach(&mut self) -> Result<Reach<T>, AllocError>
        requires { 1 < self.old.view.parts }
        ensures reach { IfOk result (λ r. r ≡ new_reach self.old.deque) }
        ensures lent { OnOk result (self.new ≡ lend self.old) }
    {
        let thief = self.worker.stealer()?;
        let pass = self.worker.another::<Cut>();
        Ok(Reach::new(thief, pass))
    }

    /// Takes a way in. Nobody steals by it any more.
    pub(crate) fn absorb(&mut self, reach: Reach<T>)
        requires deque { reach.deque ≡ self.old.deque }
        requires part { 0 < self.old.view.parts }
        ensures { self.new ≡ takes_in self.old reach }
    {
        self.worker.absorb::<Cut>(reach.into_pass());
    }

    // Whether the deque has `MOST_ITEMS`.
    fn is_full(&mut self) -> bool
        ensures { self.new ≡ self.old }
    {
        self.worker.len_as::<Counts>() >= MOST_ITEMS
    }

    /// Adds an item at the back, or gives it back where the deque has `MOST_ITEMS` or can't grow.
    pub(crate) fn push(&mut self, item: T) -> Result<(), T>
        requires { 0 < self.old.view.parts }
        ensures deque { self.new.deque ≡ self.old.deque }
        ensures ok { OnOk result (self.new.view ≡ after_push (T.number item) self.old.view) }
        ensures err { IfErr result (λ x. (x ≡ item) × (self.new.view ≡ self.old.view)) }
    {
        if self.is_full() {
            return Err(item);
        }
        self.worker.push_as::<Adds>(item)
    }

    /// Takes the item at the front. `None` only if the deque was empty at one moment.
    pub(crate) fn pop(&mut self) -> Option<T>
        requires { 0 < self.old.view.parts }
        ensures deque { self.new.deque ≡ self.old.deque }
        ensures taken { IfSome result (λ x. self.new.view ≡ after_take (T.number x) self.old.view) }
        ensures none { IfNone result ((self.new ≡ self.old) × WasEmpty self.old.view) }
    {
        self.worker.pop_as::<Takes>()
    }

    /// Learns that no number was taken more often than pushed. Every way in was taken in.
    pub(crate) fn settle(&mut self)
        requires { self.old.view.parts ≡ 1024 }
        ensures same { self.new ≡ self.old }
        ensures settled { IsSettled self.new }
    {
        self.worker.len_as::<Settles>();
    }

    /// Takes the item at the front, where nobody else uses the deque. `None` exactly where it is
    /// empty.
    pub(crate) fn drain(&mut self) -> Option<T>
        requires { IsSettled self.old }
        ensures settled { IsSettled self.new }
        ensures deque { self.new.deque ≡ self.old.deque }
        ensures taken { IfSome result (λ x. self.new.view ≡ after_take (T.number x) self.old.view) }
        ensures none { IfNone result ((self.new ≡ self.old) × IsDrained self.old.view) }
    {
        self.worker.pop_as::<Drains>()
    }
}
