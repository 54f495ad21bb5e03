//! Which part is the least that takes part in a reduction, and with whom.

ghost use Rattle.std.specs.Prelude.{◌≡◌, ◌<◌, [], Some, None, OnOk, OnErr, IfOk, IfSome};
ghost use Rattle.cqp_order.specs.Groups.{InGroup, group_of};
ghost use Rattle.cqp_order.specs.Least.{IsLeast};
ghost use Rattle.cqp_order.specs.Stands.{stand_at, IsChange, IsLeastTurn};

use crate::marks::Marks;
use crate::stand::{NoMemory, Stand, Turn};
use crate::stands::Stands;
use std::alloc::Global;
use std::marker::Model;

/// The parts that are left with their stands, and the room: all parts have numbers below it.
/// It is seen as the pairs of parts and stands, in the order of the parts, beside the room.
#[derive(Drop)]
pub struct Order {
    stands: Stands,
    marks: Marks,
}

impl Model for Order {
    ghost use Rattle.std.specs.Prelude.{◌≡◌, ℕ, List};
    ghost use Rattle.cqp_order.specs.declared.stand.Stand.{Stand as Seen};
    ghost use Rattle.cqp_order.specs.Groups.{IsKept};
    ghost use Rattle.cqp_order.specs.Marks.{is_marked};
    ghost use Rattle.cqp_order.specs.Stands.{stand_at, IsWithin};

    ghost Value = { List (ℕ × Seen) × ℕ };

    ghost view = { λ o. o.stands };

    ghost invariant = { λ o. IsKept (stand_at o.stands.0) (is_marked o.marks)
        × IsWithin o.stands.0 o.stands.1 × (o.marks.1 ≡ o.stands.1) };
}

impl Order {
    /// Nobody is there, and there is room for part numbers below `room`. Its time grows with the room.
    pub fn new(alloc: Global, room: u32) -> Result<Order, NoMemory>
        requires { 0 < room }
        ensures { IfOk result (λ o. o ≡ ([], room)) }
    {
        let marks = Marks::new(alloc, room)?;
        let stands = Stands::new(alloc, room)?;
        Ok(Order { stands, marks })
    }

    /// The bound: numbers of parts are below it.
    pub fn room(&self) -> usize
        ensures { result ≡ self.now.1 }
    {
        self.marks.room()
    }

    /// How the part stands; `None` where it is not there.
    pub fn stand(&self, part: u32) -> Option<Stand>
        ensures { result ≡ stand_at self.now.0 part }
    {
        self.stands.get(part)
    }

    /// A part that was not there stands so from now on. Its time grows with the logarithm of the
    /// room. `Err` is want of memory.
    pub fn put(&mut self, part: u32, stand: Stand) -> Result<(), NoMemory>
        requires absent { stand_at self.old.0 part ≡ None }
        requires fits { part < self.old.1 }
        ensures done { OnOk result (IsChange self.old.0 self.new.0 part (Some stand)) }
        ensures room { self.new.1 ≡ self.old.1 }
        ensures err { OnErr result (self.new ≡ self.old) }
    {
        let before = lead(&self.stands, part, stand);
        self.stands.put(part, stand)?;
        let after = lead(&self.stands, part, stand);
        self.marks.renew(before, after);
        Ok(())
    }

    /// The part leaves, and the answer says how it stood. It takes no memory, and the time of `put`.
    pub fn take(&mut self, part: u32) -> Option<Stand>
        ensures value { result ≡ stand_at self.old.0 part }
        ensures gone { IsChange self.old.0 self.new.0 part None }
        ensures room { self.new.1 ≡ self.old.1 }
    {
        let stand = self.stands.get(part)?;
        let before = lead(&self.stands, part, stand);
        self.stands.take(part);
        let after = lead(&self.stands, part, stand);
        self.marks.renew(before, after);
        Some(stand)
    }

    /// The part stands so from now on, or is not there. It takes the time of `put`, or little where it
    /// stood so before. `Err` is want of memory; then the part is not there.
    pub fn renew(&mut self, part: u32, stand: Option<Stand>) -> Result<(), NoMemory>
        requires { IfSome stand (λ s. part < self.old.1) }
        ensures done { OnOk result (IsChange self.old.0 self.new.0 part stand) }
        ensures room { self.new.1 ≡ self.old.1 }
        ensures err { OnErr result (IsChange self.old.0 self.new.0 part None) }
    {
        if self.stand(part) == stand {
            return Ok(());
        }
        self.take(part);
        match stand {
            Some(stand) => self.put(part, stand),
            None => Ok(()),
        }
    }

    /// The least part that takes part in a reduction, and the least with whom it may. `None` where
    /// no part does. It takes the time of `put`.
    pub fn least(&self) -> Option<Turn>
        ensures { IsLeastTurn (stand_at self.now.0) result }
    {
        let part = self.marks.least()?;
        let partner = self.stands.partner(part);
        Some(Turn { part, partner })
    }
}

/// The least active part of the group of a part that stands so, or stood so.
fn lead(stands: &Stands, part: u32, stand: Stand) -> Option<u32>
    ensures { IsLeast (InGroup (stand_at stands.now.0) (group_of part stand)) result }
{
    match stand {
        Stand::Alone => match stands.get(part) {
            Some(Stand::Alone) => Some(part),
            _ => None,
        },
        Stand::Sends { chan } => stands.lead(chan),
        Stand::Receives { chan } => stands.lead(chan),
    }
}
