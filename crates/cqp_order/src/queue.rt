//! Numbers of which the least is asked for: a heap. A number may stand there more than once.
//! Contracts see them in no particular order.

ghost use Rattle.std.specs.Prelude.{◌≡◌, ◌<◌, ◌==◌, ◌||◌, [], ℕ, IsTrue, Some, length};
ghost use Rattle.std.specs.Prelude.{OnOk, OnErr};
ghost use Rattle.cqp_order.specs.Least.{IsLeast};
ghost use Rattle.cqp_order.specs.Places.{has, stands_in};

use crate::stand::{NoMemory, Stand};
use std::alloc::{AllocError, Global};
use std::cmp::Reverse;
use std::collections::BinaryHeap;
use std::marker::Model;

/// Numbers of parts, the least first.
#[derive(Drop)]
pub struct Queue {
    heap: BinaryHeap<Reverse<u32>>,
}

impl Model for Queue {
    ghost use Rattle.std.specs.Prelude.{ℕ, List};
    ghost use Rattle.std.specs.declared.cmp.Reverse.{Reverse as Number};
    ghost use Rattle.std.specs.BinaryHeap.{heap_items, IsHeap};
    ghost use Rattle.cqp_order.specs.Places.{least_first};

    ghost Value = { List (Number ℕ) };

    ghost view = { λ q. heap_items q.heap };

    ghost invariant = { λ q. IsHeap least_first (heap_items q.heap) };
}

impl Queue {
    /// No number.
    pub fn new(alloc: Global) -> Queue
        ensures { result ≡ [] }
    {
        Queue {
            heap: BinaryHeap::new(alloc),
        }
    }

    /// One number more.
    pub fn put(&mut self, number: u32) -> Result<(), NoMemory>
        ensures done { OnOk result ((k : ℕ) → has self.new k ≡ (number == k || has self.old k)) }
        ensures err { OnErr result (self.new ≡ self.old) }
    {
        match self.heap.push(Reverse(number)) {
            Ok(()) => Ok(()),
            Err(_) => Err(AllocError),
        }
    }

    /// The least number.
    pub fn least(&self) -> Option<u32>
        ensures { IsLeast (λ k. IsTrue (has self.now k)) result }
    {
        match self.heap.peek() {
            Some(number) => Some(number.0),
            None => None,
        }
    }

    // Takes the least number out, once.
    fn pop(&mut self, least: u32)
        requires { IsLeast (λ k. IsTrue (has self.old k)) (Some least) }
        ensures rest { (k : ℕ) → has self.old k ≡ (least == k || has self.new k) }
        ensures fewer { length self.new < length self.old }
    {
        self.heap.pop();
    }

    /// Takes out least numbers of parts that don't stand so, until the least does.
    pub fn settle(&mut self, parts: &[Option<Stand>], stand: Stand)
        ensures kept { (k : ℕ) → stands_in parts.now k ≡ Some stand → IsTrue (has self.old k)
            → IsTrue (has self.new k) }
        ensures least { (m : ℕ) → IsLeast (λ k. IsTrue (has self.new k)) (Some m)
            → stands_in parts.now m ≡ Some stand }
    {
        while let Some(part) = self.least() {
            if stand_in(parts, part) == Some(stand) {
                return;
            }
            self.pop(part);
        }
    }
}

/// How a part stands.
pub fn stand_in(parts: &[Option<Stand>], part: u32) -> Option<Stand>
    ensures { result ≡ stands_in parts.now part }
{
    *parts.get(part as usize)?
}
