//! What the lanes of a pool left behind, once no lane pushes or pops any more. Contracts see the
//! numbers that were pushed and those that were taken.
ghost use Rattle.std.specs.Prelude.{◌≡◌, ◌↔◌, ◌∷◌, ◌++◌, All, IfSome, IsNone, IfNone};
ghost use Rattle.cqp_pool.specs.Often.{AsOften};
ghost use Rattle.cqp_pool.specs.Parts.{AddsUp, IsSettled, Gives};
ghost use Rattle.cqp_pool.specs.Parts.{pushed_in, taken_in, pushed_kept, taken_kept};

use crate::door::Door;
use crate::kept::Kept;
use crate::numbered::Numbered;
use crate::own::Own;
use std::marker::Model;
use std::sync::Wait;

/// What the lanes of a pool left behind. It has every part of each deque and of the shared queue.
#[derive(Drop)]
pub struct Gathered<T: Numbered> {
    owns: Vec<Own<T>>,
    door: Door<T>,
    kepts: Vec<Kept<T>>,
}

impl<T: Numbered> Model for Gathered<T> {
    ghost use Rattle.std.specs.Prelude.{◌≡◌, ◌++◌, All};
    ghost use Rattle.cqp_pool.specs.Pools.{GatheredState};
    ghost use Rattle.cqp_pool.specs.Parts.{AddsUp, IsSettled};
    ghost use Rattle.cqp_pool.specs.Parts.{pushed_in, taken_in, pushed_kept, taken_kept};

    ghost Value = { GatheredState };

    ghost view = { λ s. record {
      pushed = (s.door.view.pushed ++ pushed_in s.owns.items) ++ pushed_kept s.kepts.items;
      taken = (s.door.view.taken ++ taken_in s.owns.items) ++ taken_kept s.kepts.items;
    } };

    ghost invariant = { λ s.
        (s.door.view.parts ≡ 1024)
        × All IsSettled s.owns.items
        × All (AddsUp T.number) s.kepts.items };
}

impl<T: Numbered> Gathered<T> {
    pub(crate) fn new(owns: Vec<Own<T>>, door: Door<T>, kepts: Vec<Kept<T>>) -> Gathered<T>
        requires door { door.view.parts ≡ 1024 }
        requires owns { All IsSettled owns.items }
        requires kepts { All (AddsUp T.number) kepts.items }
        ensures pushed { result.pushed
            ≡ (door.view.pushed ++ pushed_in owns.items) ++ pushed_kept kepts.items }
        ensures taken { result.taken
            ≡ (door.view.taken ++ taken_in owns.items) ++ taken_kept kepts.items }
    {
        Gathered { owns, door, kepts }
    }

    /// Takes an item that is still there. `None` exactly where all that was pushed was taken. It
    /// takes no memory.
    pub fn left<R: Wait>(&mut self, rt: &R) -> Option<T>
        ensures taken { IfSome result (λ x. AsOften self.new.taken (T.number x ∷ self.old.taken)) }
        ensures none { IsNone result ↔ AsOften self.old.pushed self.old.taken }
        ensures unchanged { IfNone result (self.new ≡ self.old) }
        ensures same { self.new.pushed ≡ self.old.pushed }
    {
        if let Some(item) = self.door.drain(rt) {
            return Some(item);
        }
        if let Some(item) = drain_kepts(&mut self.kepts) {
            return Some(item);
        }
        let item = drain_owns(&mut self.owns)?;
        Some(item)
    }
}

// Takes an item of one of these. `None` exactly where all are empty.
fn drain_kepts<T: Numbered>(kepts: &mut Vec<Kept<T>>) -> Option<T>
    requires { All (AddsUp T.number) kepts.old.items }
    ensures logs { All (AddsUp T.number) kepts.new.items }
    ensures gives { IfSome result (λ x. Gives (T.number x)
        (pushed_kept kepts.old.items) (taken_kept kepts.old.items)
        (pushed_kept kepts.new.items) (taken_kept kepts.new.items)) }
    ensures none { IfNone result ((kepts.new.items ≡ kepts.old.items)
        × AsOften (pushed_kept kepts.old.items) (taken_kept kepts.old.items)) }
{
    drain_kepts_in(kepts.as_mut_slice())
}

fn drain_kepts_in<T: Numbered>(kepts: &mut [Kept<T>]) -> Option<T>
    requires { All (AddsUp T.number) kepts.old }
    ensures logs { All (AddsUp T.number) kepts.new }
    ensures gives { IfSome result (λ x. Gives (T.number x)
        (pushed_kept kepts.old) (taken_kept kepts.old)
        (pushed_kept kepts.new) (taken_kept kepts.new)) }
    ensures none { IfNone result
        ((kepts.new ≡ kepts.old) × AsOften (pushed_kept kepts.old) (taken_kept kepts.old)) }
{
    for k in 0..kepts.len() {
        let kept = &mut kepts[k];
        if let Some(item) = kept.pop() {
            return Some(item);
        }
    }
    None
}

// Takes an item of one of these deques. `None` exactly where all are empty.
fn drain_owns<T: Numbered>(owns: &mut Vec<Own<T>>) -> Option<T>
    requires { All IsSettled owns.old.items }
    ensures settled { All IsSettled owns.new.items }
    ensures gives { IfSome result (λ x. Gives (T.number x)
        (pushed_in owns.old.items) (taken_in owns.old.items)
        (pushed_in owns.new.items) (taken_in owns.new.items)) }
    ensures none { IfNone result ((owns.new.items ≡ owns.old.items)
        × AsOften (pushed_in owns.old.items) (taken_in owns.old.items)) }
{
    drain_owns_in(owns.as_mut_slice())
}

fn drain_owns_in<T: Numbered>(owns: &mut [Own<T>]) -> Option<T>
    requires { All IsSettled owns.old }
    ensures settled { All IsSettled owns.new }
    ensures gives { IfSome result (λ x. Gives (T.number x)
        (pushed_in owns.old) (taken_in owns.old)
        (pushed_in owns.new) (taken_in owns.new)) }
    ensures none { IfNone result
        ((owns.new ≡ owns.old) × AsOften (pushed_in owns.old) (taken_in owns.old)) }
{
    for k in 0..owns.len() {
        let own = &mut owns[k];
        if let Some(item) = own.drain() {
            return Some(item);
        }
    }
    None
}
