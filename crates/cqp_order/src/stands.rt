//! The parts with their stands, and who is active on a channel.

ghost use Rattle.std.specs.Prelude.{◌≡◌, ◌<◌, [], Some, None, IfOk, OnOk, OnErr};
ghost use Rattle.cqp_order.specs.Groups.{InGroup, chan_group};
ghost use Rattle.cqp_order.specs.Least.{IsLeast};
ghost use Rattle.cqp_order.specs.Stands.{stand_at, IsChange, Meets};

use crate::queue::stand_in;
use crate::sides::{Sides, lesser_of_both};
use crate::stand::{NoMemory, Stand};
use std::alloc::Global;
use std::marker::Model;

/// The parts with their stands, by number, and the room: seen as pairs, in the order of the parts,
/// beside the room.
#[derive(Drop)]
pub struct Stands {
    parts: Vec<Option<Stand>>,
    sides: Sides,
}

impl Model for Stands {
    ghost use Rattle.std.specs.Prelude.{ℕ, List, length};
    ghost use Rattle.cqp_order.specs.declared.stand.Stand.{Stand as Seen};
    ghost use Rattle.cqp_order.specs.Numbered.{numbered};
    ghost use Rattle.cqp_order.specs.Stands.{stand_at};
    ghost use Rattle.cqp_order.specs.Sides.{IsSplit};

    ghost Value = { List (ℕ × Seen) × ℕ };

    ghost view = { λ s. (numbered 0 s.parts.items, length s.parts.items) };

    ghost invariant = { λ s. IsSplit (stand_at (numbered 0 s.parts.items)) s.sides.senders
        s.sides.receivers };
}

impl Stands {
    /// Nobody is there.
    pub fn new(alloc: Global, room: u32) -> Result<Stands, NoMemory>
        ensures { IfOk result (λ s. s ≡ ([], room)) }
    {
        let parts = Vec::from_elem(alloc, None, room as usize)?;
        let sides = Sides::new(alloc);
        Ok(Stands { parts, sides })
    }

    /// How the part stands.
    pub fn get(&self, part: u32) -> Option<Stand>
        ensures { result ≡ stand_at self.now.0 part }
    {
        stand_in(self.parts.as_slice(), part)
    }

    /// A part that was not there stands so from now on.
    pub fn put(&mut self, part: u32, stand: Stand) -> Result<(), NoMemory>
        requires absent { stand_at self.old.0 part ≡ None }
        requires fits { part < self.old.1 }
        ensures done { OnOk result (IsChange self.old.0 self.new.0 part (Some stand)) }
        ensures room { self.new.1 ≡ self.old.1 }
        ensures err { OnErr result (self.new ≡ self.old) }
    {
        self.sides.enter(part, stand)?;
        self.parts[part as usize] = Some(stand);
        Ok(())
    }

    /// The part leaves.
    pub fn take(&mut self, part: u32) -> Option<Stand>
        ensures value { result ≡ stand_at self.old.0 part }
        ensures gone { IsChange self.old.0 self.new.0 part None }
        ensures room { self.new.1 ≡ self.old.1 }
    {
        let stand = self.get(part)?;
        self.parts[part as usize] = None;
        self.sides.leave(stand, self.parts.as_slice());
        Some(stand)
    }

    /// The least active part on the channel.
    pub fn lead(&self, chan: u32) -> Option<u32>
        ensures { IsLeast (InGroup (stand_at self.now.0) (chan_group chan)) result }
    {
        lesser_of_both(
            self.sides.senders.least(chan),
            self.sides.receivers.least(chan),
        )
    }

    /// The least part that meets this one.
    pub fn partner(&self, part: u32) -> Option<u32>
        ensures { IsLeast (Meets (stand_at self.now.0) part) result }
    {
        match self.get(part)? {
            Stand::Alone => None,
            Stand::Sends { chan } => self.sides.receivers.least(chan),
            Stand::Receives { chan } => self.sides.senders.least(chan),
        }
    }
}
