//! The shared queue as a lane uses it, seen as which queue it is and what the lane's pass knows.
ghost use Rattle.std.specs.Prelude.{◌≡◌, ◌<◌, ◌-◌, ◌+◌, ◌++◌, IfOk, OnOk, IfErr, IfSome, IfNone};
ghost use Rattle.crossbeam_deque.specs.Injected.{injector_view, IsInjectorPassOf};
ghost use Rattle.cqp_pool.specs.Tallies.{tally, new_tally, after_push, after_take};
ghost use Rattle.cqp_pool.specs.Tallies.{WasEmpty, Covers, IsDrained};

use crate::numbered::Numbered;
use crate::tally::{Accounts, Adds, Cut, Drains, Takes, Tally};
use crossbeam_deque::{Injector, InjectorPass, Steal};
use std::alloc::{AllocError, Global};
use std::marker::Model;
use std::sync::{Arc, Wait};
use std::thread;

type Queue<T> = Injector<T, Global, Tally, Accounts>;

type Entry<T> = InjectorPass<T, Tally>;

/// A way into the shared queue.
#[derive(Drop)]
pub(crate) struct Door<T: Numbered> {
    queue: Arc<Queue<T>, Global>,
    entry: Entry<T>,
}

impl<T: Numbered> Model for Door<T> {
    ghost use Rattle.crossbeam_deque.specs.Injected.{injector_view, IsInjectorPassOf};
    ghost use Rattle.cqp_pool.specs.Parts.{Entered};

    ghost Value = { Entered };

    ghost view = { λ d. record {
      queue = (d.queue.value.queue.web, d.queue.value.queue.heap);
      view = injector_view d.entry;
    } };

    ghost invariant = { λ d. IsInjectorPassOf d.queue.value d.entry };
}

impl<T: Numbered> Door<T> {
    pub(crate) fn new(alloc: Global) -> Result<Door<T>, AllocError>
        ensures { IfOk result (λ door. door.view ≡ new_tally 1024) }
    {
        let (queue, entry) = Queue::new_as(alloc)?;
        let queue = Arc::new(alloc, queue)?;
        Ok(Door { queue, entry })
    }

    /// Another way in, with one part of this one's.
    pub(crate) fn another(&mut self) -> Result<Door<T>, AllocError>
        requires { 1 < self.old.view.parts }
        ensures queue { self.new.queue ≡ self.old.queue }
        ensures another { IfOk result (λ d. (d.queue ≡ self.old.queue) × (d.view ≡ new_tally 1)) }
        ensures view { OnOk result (self.new.view
            ≡ tally (self.old.view.parts - 1) self.old.view.pushed self.old.view.taken) }
    {
        let queue = Arc::try_clone(&self.queue)?;
        let entry = self.queue.another::<Cut>(&mut self.entry);
        Ok(Door { queue, entry })
    }

    /// Takes a way in. Nobody uses it any more.
    pub(crate) fn absorb(&mut self, other: Door<T>)
        requires queue { other.queue ≡ self.old.queue }
        requires part { 0 < self.old.view.parts }
        ensures queue { self.new.queue ≡ self.old.queue }
        ensures view { self.new.view ≡ tally
            (self.old.view.parts + other.view.parts)
            (self.old.view.pushed ++ other.view.pushed)
            (self.old.view.taken ++ other.view.taken) }
    {
        let Door {
            queue: _queue,
            entry,
        } = other;
        self.queue.absorb::<Cut>(&mut self.entry, entry);
    }

    /// Adds an item at the back, or gives it back where the queue can't take it.
    pub(crate) fn push<R: Wait>(&mut self, rt: &R, item: T) -> Result<(), T>
        requires { 0 < self.old.view.parts }
        ensures queue { self.new.queue ≡ self.old.queue }
        ensures ok { OnOk result (self.new.view ≡ after_push (T.number item) self.old.view) }
        ensures err { IfErr result (λ x. (x ≡ item) × (self.new.view ≡ self.old.view)) }
    {
        self.queue.push_as::<Adds, R>(rt, &mut self.entry, item)
    }

    /// Takes the item at the front. `None` only if the queue was empty at one moment.
    pub(crate) fn pop<R: Wait>(&mut self, rt: &R) -> Option<T>
        requires { 0 < self.old.view.parts }
        ensures queue { self.new.queue ≡ self.old.queue }
        ensures taken { IfSome result (λ x. self.new.view ≡ after_take (T.number x) self.old.view) }
        ensures none { IfNone result ((self.new ≡ self.old) × WasEmpty self.old.view) }
    {
        take_by(rt, &self.queue, &mut self.entry)
    }

    /// Takes the item at the front, where nobody else uses the queue. `None` exactly where it is
    /// empty.
    pub(crate) fn drain<R: Wait>(&mut self, rt: &R) -> Option<T>
        requires { self.old.view.parts ≡ 1024 }
        ensures queue { self.new.queue ≡ self.old.queue }
        ensures taken { IfSome result (λ x.
            (self.new.view ≡ after_take (T.number x) self.old.view) × Covers self.new.view) }
        ensures none { IfNone result ((self.new ≡ self.old) × IsDrained self.old.view) }
    {
        drain_by(rt, &self.queue, &mut self.entry)
    }
}

// Takes the item at the front, and tries again where another thread was quicker.
fn take_by<T: Numbered, R: Wait>(rt: &R, queue: &Queue<T>, entry: &mut Entry<T>) -> Option<T>
    requires pass { IsInjectorPassOf queue.now entry.old }
    requires part { 0 < (injector_view entry.old).parts }
    ensures pass { IsInjectorPassOf queue.now entry.new }
    ensures taken { IfSome result (λ x.
        injector_view entry.new ≡ after_take (T.number x) (injector_view entry.old)) }
    ensures none { IfNone result (
        (injector_view entry.new ≡ injector_view entry.old)
        × WasEmpty (injector_view entry.old)) }
{
    for _ in rt.forever() {
        match queue.steal_as::<Takes, R>(rt, entry) {
            Steal::Success(item) => return Some(item),
            Steal::Empty => return None,
            Steal::Retry => thread::yield_now(),
        }
    }
    unreachable!()
}

// The same by a pass that has every part.
fn drain_by<T: Numbered, R: Wait>(rt: &R, queue: &Queue<T>, entry: &mut Entry<T>) -> Option<T>
    requires pass { IsInjectorPassOf queue.now entry.old }
    requires parts { (injector_view entry.old).parts ≡ 1024 }
    ensures pass { IsInjectorPassOf queue.now entry.new }
    ensures taken { IfSome result (λ x.
        (injector_view entry.new ≡ after_take (T.number x) (injector_view entry.old))
        × Covers (injector_view entry.new)) }
    ensures none { IfNone result (
        (injector_view entry.new ≡ injector_view entry.old)
        × IsDrained (injector_view entry.old)) }
{
    for _ in rt.forever() {
        match queue.steal_as::<Drains, R>(rt, entry) {
            Steal::Success(item) => return Some(item),
            Steal::Empty => return None,
            Steal::Retry => thread::yield_now(),
        }
    }
    unreachable!()
}
