//! Both sides of all channels: the parts that wait there, by the stands that say so.

ghost use Rattle.std.specs.Prelude.{◌≡◌, ◌==◌, ◌&&◌, ◌||◌, ℕ, [], Some, OnOk, OnErr};
ghost use Rattle.cqp_order.specs.declared.stand.Stand.TheVariants as stands;
ghost use Rattle.cqp_order.specs.Places.{waits};
ghost use Rattle.cqp_order.specs.Sides.{Goes, is_sending, is_receiving, lesser_of_both};
ghost use Rattle.cqp_order.specs.Sides.{StillWaits};

use crate::side::Side;
use crate::stand::{NoMemory, Stand};
use std::alloc::Global;

/// The parts that wait, by the side of the channel.
#[derive(Drop)]
pub struct Sides {
    pub senders: Side,
    pub receivers: Side,
}

impl Sides {
    /// Nobody waits.
    pub fn new(alloc: Global) -> Sides
        ensures senders { result.senders ≡ [] }
        ensures receivers { result.receivers ≡ [] }
    {
        Sides {
            senders: Side::new(alloc),
            receivers: Side::new(alloc),
        }
    }

    /// The part waits from now on where its stand says.
    pub fn enter(&mut self, part: u32, stand: Stand) -> Result<(), NoMemory>
        ensures senders { OnOk result
            (StillWaits is_sending self.old.senders self.new.senders part stand) }
        ensures receivers { OnOk result
            (StillWaits is_receiving self.old.receivers self.new.receivers part stand) }
        ensures same_senders { OnErr result
            ((c k : ℕ) → waits self.new.senders c k ≡ waits self.old.senders c k) }
        ensures same_receivers { OnErr result
            ((c k : ℕ) → waits self.new.receivers c k ≡ waits self.old.receivers c k) }
    {
        match stand {
            Stand::Alone => Ok(()),
            Stand::Sends { chan } => self.senders.put(chan, part),
            Stand::Receives { chan } => self.receivers.put(chan, part),
        }
    }

    /// A part that stood so does so no more, and the least that wait are parts that do.
    pub fn leave(&mut self, stand: Stand, parts: &[Option<Stand>])
        ensures senders { Goes stands.Sends self.old.senders self.new.senders stand parts.now }
        ensures receivers { Goes stands.Receives self.old.receivers self.new.receivers stand
            parts.now }
    {
        match stand {
            Stand::Alone => {}
            Stand::Sends { chan } => self.senders.settle(chan, parts, stand),
            Stand::Receives { chan } => self.receivers.settle(chan, parts, stand),
        }
    }
}

/// The lesser of two numbers where both are there.
pub fn lesser_of_both(a: Option<u32>, b: Option<u32>) -> Option<u32>
    ensures { result ≡ lesser_of_both a b }
{
    let a = a?;
    let b = b?;
    if a <= b {
        return Some(a);
    }
    Some(b)
}
