//! A lane, one worker's place in a pool. Contracts see it as a `LaneState`.
ghost use Rattle.std.specs.Prelude.{◌≡◌, [], ◌∷◌, OnOk, IfErr, IfSome, IfNone, All};
ghost use Rattle.cqp_pool.specs.Often.{AsOften};
ghost use Rattle.cqp_pool.specs.Tallies.{new_tally, WasEmpty};
ghost use Rattle.cqp_pool.specs.Pools.{SamePlace, IsNew, MayKeep, MayGive};
ghost use Rattle.cqp_pool.specs.Parts.{IsLane, deques_of, stolen};
ghost use Rattle.cqp_pool.specs.Apart.{AreParts};

use crate::door::Door;
use crate::kept::Kept;
use crate::numbered::Numbered;
use crate::own::Own;
use crate::reach::{Reach, steal_any};
use std::alloc::Global;
use std::marker::Model;
use std::sync::Wait;

/// There is no memory to keep the item, which comes back.
#[derive(Drop)]
pub struct PushRefused<T> {
    pub item: T,
}

/// One worker's place in a pool: its own deque, the shared queue, the other lanes' deques, and
/// what it keeps by itself.
#[derive(Drop)]
pub struct Lane<T: Numbered> {
    number: usize,
    own: Own<T>,
    row: Vec<Reach<T>>,
    door: Door<T>,
    kept: Kept<T>,
}

impl<T: Numbered> Model for Lane<T> {
    ghost use Rattle.std.specs.Prelude.{◌∷◌};
    ghost use Rattle.cqp_pool.specs.Pools.{LaneState};
    ghost use Rattle.cqp_pool.specs.Parts.{IsLane, deques_of, passes_of, pushed_of, taken_of};

    ghost Value = { LaneState T };

    ghost view = { λ l. record {
      pool = record { deques = deques_of l.row.items; queue = l.door.queue };
      number = l.number;
      pushed = pushed_of l.own.view l.door.view l.kept;
      taken = taken_of l.own.view l.door.view l.kept l.row.items;
      kept = l.kept.items;
      passes = l.own.view ∷ l.door.view ∷ passes_of l.row.items;
    } };

    ghost invariant = { λ l. IsLane l.number l.own l.row.items l.door };
}

impl<T: Numbered> Lane<T> {
    /// Adds the item at the back of the lane's own deque, or keeps it where the deque refuses it.
    pub fn push(&mut self, item: T) -> Result<(), PushRefused<T>>
        ensures ok { OnOk result (AsOften self.new.pushed (T.number item ∷ self.old.pushed)) }
        ensures kept { OnOk result (MayKeep item self.old.kept self.new.kept) }
        ensures err { IfErr result (λ r. (r.item ≡ item) × (self.new ≡ self.old)) }
        ensures same { SamePlace self.old self.new × (self.new.taken ≡ self.old.taken) }
    {
        let Err(item) = self.own.push(item) else {
            return Ok(());
        };
        self.keep(item)
    }

    /// Adds the item at the back of the shared queue, or keeps it where the queue refuses it.
    pub fn share<R: Wait>(&mut self, rt: &R, item: T) -> Result<(), PushRefused<T>>
        ensures ok { OnOk result (AsOften self.new.pushed (T.number item ∷ self.old.pushed)) }
        ensures kept { OnOk result (MayKeep item self.old.kept self.new.kept) }
        ensures err { IfErr result (λ r. (r.item ≡ item) × (self.new ≡ self.old)) }
        ensures same { SamePlace self.old self.new × (self.new.taken ≡ self.old.taken) }
    {
        let Err(item) = self.door.push(rt, item) else {
            return Ok(());
        };
        self.keep(item)
    }

    /// Takes an item that is kept, of the lane's own deque, of the shared queue or of another
    /// lane's deque. `None` only where each of these was empty at a moment of the call.
    pub fn pop<R: Wait>(&mut self, rt: &R) -> Option<T>
        ensures taken { IfSome result (λ x. AsOften self.new.taken (T.number x ∷ self.old.taken)) }
        ensures kept { IfSome result (λ x. MayGive x self.old.kept self.new.kept) }
        ensures none { IfNone result
            ((self.new ≡ self.old) × (self.old.kept ≡ []) × All WasEmpty self.old.passes) }
        ensures same { SamePlace self.old self.new × (self.new.pushed ≡ self.old.pushed) }
    {
        if let Some(item) = self.kept.pop() {
            return Some(item);
        }
        if let Some(item) = self.own.pop() {
            return Some(item);
        }
        if let Some(item) = self.door.pop(rt) {
            return Some(item);
        }
        let item = steal_any(rt, &mut self.row)?;
        Some(item)
    }

    fn keep(&mut self, item: T) -> Result<(), PushRefused<T>>
        ensures ok { OnOk result (AsOften self.new.pushed (T.number item ∷ self.old.pushed)) }
        ensures kept { OnOk result (MayKeep item self.old.kept self.new.kept) }
        ensures err { IfErr result (λ r. (r.item ≡ item) × (self.new ≡ self.old)) }
        ensures same { SamePlace self.old self.new × (self.new.taken ≡ self.old.taken) }
    {
        if let Err(item) = self.kept.push(item) {
            return Err(PushRefused { item });
        }
        Ok(())
    }

    /// A lane that keeps nothing yet.
    pub(crate) fn new(
        alloc: Global,
        number: usize,
        own: Own<T>,
        row: Vec<Reach<T>>,
        door: Door<T>,
    ) -> Lane<T>
        requires place { IsLane number own row.items door }
        requires own { own.view ≡ new_tally own.view.parts }
        requires door { door.view ≡ new_tally door.view.parts }
        requires row { stolen row.items ≡ [] }
        ensures pool { result.pool ≡ record { deques = deques_of row.items; queue = door.queue } }
        ensures number { result.number ≡ number }
        ensures new { IsNew result }
    {
        Lane {
            number,
            own,
            row,
            door,
            kept: Kept::new(alloc),
        }
    }

    pub(crate) fn number(&self) -> usize
        ensures { result ≡ self.now.number }
    {
        self.number
    }

    /// Takes the lane apart.
    pub(crate) fn into_parts(self) -> LaneParts<T>
        ensures { AreParts T.number self result.own result.row.items result.door result.kept }
    {
        let Lane {
            number: _number,
            own,
            row,
            door,
            kept,
        } = self;
        kept.settle();
        LaneParts {
            own,
            row,
            door,
            kept,
        }
    }
}

/// What a lane consists of.
#[derive(Drop)]
pub(crate) struct LaneParts<T: Numbered> {
    pub(crate) own: Own<T>,
    pub(crate) row: Vec<Reach<T>>,
    pub(crate) door: Door<T>,
    pub(crate) kept: Kept<T>,
}
