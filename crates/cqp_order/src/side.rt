//! One side of all channels: for each channel the parts that wait there, and maybe parts that
//! waited there, but never as the least. Contracts see the numbers by channel.

ghost use Rattle.std.specs.Prelude.{◌≡◌, ◌<◌, ◌==◌, ◌&&◌, ◌||◌, ℕ, IsTrue, OnOk, OnErr, []};
ghost use Rattle.std.specs.Prelude.{length};
ghost use Rattle.cqp_order.specs.Least.{IsLeast};
ghost use Rattle.cqp_order.specs.Places.{IsSettled, waits};

use crate::queue::Queue;
use crate::stand::{NoMemory, Stand};
use std::alloc::Global;
use std::marker::Model;

/// Numbers of parts by the channel on which they wait. It takes memory for each channel below the
/// greatest that was named.
#[derive(Drop)]
pub struct Side {
    queues: Vec<Queue>,
    alloc: Global,
}

impl Model for Side {
    ghost use Rattle.std.specs.Prelude.{ℕ, List};
    ghost use Rattle.std.specs.declared.cmp.Reverse.{Reverse as Number};

    ghost Value = { List (List (Number ℕ)) };

    ghost view = { λ s. s.queues.items };
}

impl Side {
    /// Nobody waits.
    pub fn new(alloc: Global) -> Side
        ensures { result ≡ [] }
    {
        Side {
            queues: Vec::new(alloc),
            alloc,
        }
    }

    /// The part waits on the channel from now on.
    pub fn put(&mut self, chan: u32, part: u32) -> Result<(), NoMemory>
        ensures done { OnOk result ((c k : ℕ) → waits self.new c k
            ≡ ((part == k && chan == c) || waits self.old c k)) }
        ensures err { OnErr result ((c k : ℕ) → waits self.new c k ≡ waits self.old c k) }
    {
        self.open(chan)?;
        self.queues[chan as usize].put(part)
    }

    // The channel has a queue.
    fn open(&mut self, chan: u32) -> Result<(), NoMemory>
        ensures there { OnOk result (chan < length self.new) }
        ensures same { (c k : ℕ) → waits self.new c k ≡ waits self.old c k }
    {
        while self.queues.len() <= chan as usize {
            self.queues.push(Queue::new(self.alloc))?;
        }
        Ok(())
    }

    /// The least part that waits on the channel.
    pub fn least(&self, chan: u32) -> Option<u32>
        ensures { IsLeast (λ k. IsTrue (waits self.now chan k)) result }
    {
        self.queues.get(chan as usize)?.least()
    }

    /// A part doesn't wait on the channel any more, and the least there is one that stands so.
    pub fn settle(&mut self, chan: u32, parts: &[Option<Stand>], stand: Stand)
        ensures { IsSettled self.old self.new chan parts.now stand }
    {
        if let Some(queue) = self.queues.get_mut(chan as usize) {
            queue.settle(parts, stand);
        }
    }
}
