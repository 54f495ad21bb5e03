//! The items that a lane keeps by itself, where a deque or the shared queue refused them.
ghost use Rattle.std.specs.Prelude.{◌≡◌, ◌+◌, ◌<◌, ◌≤◌, [], ◌∷◌, ◌++◌, vec_len, vec_capacity};
ghost use Rattle.std.specs.Prelude.{OnOk, IfErr, IfSome, IfNone};
ghost use Rattle.cqp_pool.specs.Parts.{AddsUp};

use crate::numbered::Numbered;
use std::alloc::{AllocError, Global};
use std::marker::Model;

/// The items that a lane keeps, and the numbers that went in and out. The two lists of numbers
/// only grow.
#[derive(Drop)]
pub(crate) struct Kept<T: Numbered> {
    items: Vec<T>,
    pushed: Vec<u32>,
    // It has room for the numbers of all items.
    taken: Vec<u32>,
}

impl<T: Numbered> Model for Kept<T> {
    ghost use Rattle.std.specs.Prelude.{◌+◌, ◌≤◌, map, vec_len, vec_capacity};
    ghost use Rattle.cqp_pool.specs.Often.{AddUp};
    ghost use Rattle.cqp_pool.specs.Parts.{Log};

    ghost Value = { Log T };

    ghost view = { λ k. record {
      items = k.items.items;
      pushed = k.pushed.items;
      taken = k.taken.items;
    } };

    ghost invariant = { λ k.
        AddUp k.pushed.items k.taken.items (map T.number k.items.items)
        × (vec_len k.taken + vec_len k.items ≤ vec_capacity k.taken) };
}

impl<T: Numbered> Kept<T> {
    pub(crate) fn new(alloc: Global) -> Kept<T>
        ensures { (result.items ≡ []) × (result.pushed ≡ []) × (result.taken ≡ []) }
    {
        Kept {
            items: Vec::new(alloc),
            pushed: Vec::new(alloc),
            taken: Vec::new(alloc),
        }
    }

    /// Gives the item back where there is no memory for it or for its number.
    pub(crate) fn push(&mut self, item: T) -> Result<(), T>
        ensures items { OnOk result (self.new.items ≡ self.old.items ++ item ∷ []) }
        ensures pushed { OnOk result (self.new.pushed ≡ self.old.pushed ++ T.number item ∷ []) }
        ensures taken { OnOk result (self.new.taken ≡ self.old.taken) }
        ensures err { IfErr result (λ x. (x ≡ item) × (self.new ≡ self.old)) }
    {
        if make_room(&mut self.items, &mut self.pushed, &mut self.taken).is_err() {
            return Err(item);
        }
        self.pushed.push_reserved(item.number());
        self.items.push_reserved(item);
        Ok(())
    }

    pub(crate) fn pop(&mut self) -> Option<T>
        ensures items { IfSome result (λ x. self.old.items ≡ self.new.items ++ x ∷ []) }
        ensures pushed { self.new.pushed ≡ self.old.pushed }
        ensures taken { IfSome result (λ x. self.new.taken ≡ self.old.taken ++ T.number x ∷ []) }
        ensures none { IfNone result ((self.new ≡ self.old) × (self.old.items ≡ [])) }
    {
        let item = self.items.pop()?;
        self.taken.push_reserved(item.number());
        Some(item)
    }

    /// Shows that what went in is what went out and what is there, as often.
    pub(crate) fn settle(&self)
        ensures { AddsUp T.number self.now }
    {
        let _count = self.items.len();
    }
}

// Room for one item more, for its number, and for the numbers of all items once they are taken.
fn make_room<T>(
    items: &mut Vec<T>,
    pushed: &mut Vec<u32>,
    taken: &mut Vec<u32>,
) -> Result<(), AllocError>
    ensures items { items.new.items ≡ items.old.items }
    ensures pushed { pushed.new.items ≡ pushed.old.items }
    ensures taken { taken.new.items ≡ taken.old.items }
    ensures no_less { vec_capacity taken.old ≤ vec_capacity taken.new }
    ensures room { OnOk result (
        (vec_len items.new < vec_capacity items.new)
        × (vec_len pushed.new < vec_capacity pushed.new)
        × (vec_len taken.new + vec_len items.new + 1 ≤ vec_capacity taken.new)) }
{
    items.reserve(1)?;
    pushed.reserve(1)?;
    taken.reserve(items.len() + 1)
}
