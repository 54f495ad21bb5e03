//! The parts of a run, by number. The places are made once, so that parts come and go without
//! memory. Contracts see a list with a place for each number below its length, the room.

ghost use Rattle.std.specs.Prelude.{◌≡◌, ◌+◌, ◌^◌, ◌<◌, ◌≤◌, ℕ, IfOk, None, OnErr, Some};
ghost use Rattle.std.specs.Prelude.{false, length, slice_set, true};
ghost use Rattle.std.specs.Option.{option_map};
ghost use Rattle.cqp_machine.specs.After.{placed, placed_from};
ghost use Rattle.cqp_parts.specs.declared.part.Part.{Part as Seen};
ghost use Rattle.cqp_parts.specs.Parts.{more_than_one};
ghost use Rattle.cqp_standing.specs.Stands.{Stands};
ghost use Rattle.cqp_stepper.specs.Slots.{part_in, HasGoneOn};

use crate::tables::Tables;
use cqp_onward::Parts;
use cqp_parts::Part;
use cqp_syntax::NoMemory;
use cqp_trace::Deed;
use std::alloc::Global;
use std::marker::Model;
use std::mem;

/// A place for each number, with the part that has it, if there is one.
#[derive(Drop)]
pub(crate) struct Slots {
    places: Vec<Option<Part>>,
}

impl Model for Slots {
    ghost use Rattle.std.specs.Prelude.{List, Option};
    ghost use Rattle.cqp_parts.specs.declared.part.Part.{Part as Seen};

    ghost Value = { List (Option Seen) };

    ghost view = { λ s. s.places.items };
}

impl Slots {
    /// Places for numbers below `room`, with no part.
    pub(crate) fn new(alloc: Global, room: usize) -> Result<Slots, NoMemory>
        ensures room { IfOk result (λ s. length s ≡ room) }
        ensures none { IfOk result (λ s. (n : ℕ) → part_in s n ≡ None) }
    {
        let mut places = Vec::with_capacity(alloc, room)?;
        for _ in 0..room {
            places.push(None)?;
        }
        Ok(Slots { places })
    }

    /// The part that has the number.
    pub(crate) fn get(&self, n: u32) -> Option<&Part>
        ensures { option_map (λ part. part.now) result ≡ part_in self.now n }
    {
        self.places.get(n as usize)?.as_ref()
    }

    /// Takes the part out.
    pub(crate) fn take(&mut self, n: u32) -> Option<Part>
        requires { n < length self.old }
        ensures value { result ≡ part_in self.old n }
        ensures left { self.new ≡ slice_set self.old n None }
    {
        mem::replace(&mut self.places[n as usize], None)
    }

    /// Puts a part at a number, or none.
    pub(crate) fn put(&mut self, n: u32, part: Option<Part>)
        requires { n < length self.old }
        ensures { self.new ≡ slice_set self.old n part }
    {
        self.places[n as usize] = part;
    }

    /// Where one part alone comes behind a deed of part n, the part goes on there, in its place,
    /// and the answer is `true`. Else nothing changes, and it is `false`.
    pub(crate) fn go_on_alone(
        &mut self,
        tables: &Tables,
        alloc: Global,
        n: u32,
        deed: &Deed,
    ) -> Result<bool, NoMemory>
        requires place { n < length self.old }
        requires stands { (part : Seen) → part_in self.old n ≡ Some part
            → Stands tables.now part }
        ensures went { IfOk result (λ went. went ≡ true
            → HasGoneOn tables.now self.old self.new n deed.now) }
        ensures stays { IfOk result (λ went. went ≡ false → self.new ≡ self.old) }
        ensures err { OnErr result (self.new ≡ self.old) }
    {
        match &mut self.places[n as usize] {
            Some(part) => tables.go_on_alone(alloc, part, deed),
            None => Ok(false),
        }
    }

    /// In the place of part n: the first has its number, the others those from `next` on, of which
    /// there are so many.
    pub(crate) fn place(&mut self, n: u32, next: u32, parts: Parts) -> u32
        requires there { n < length self.old }
        requires room { next + more_than_one parts ≤ length self.old }
        requires few { length self.old < 2 ^ 32 }
        ensures made { result ≡ more_than_one parts }
        ensures parts { (m : ℕ) → part_in self.new m ≡ placed n next parts (part_in self.old) m }
        ensures room { length self.new ≡ length self.old }
    {
        let (first, mut others) = parts.into_pair();
        let made = others.as_slice().len() as u32;
        self.put(n, first);
        while let Some(part) = others.pop() {
            self.put(next + others.as_slice().len() as u32, Some(part));
        }
        made
    }

    /// In places that have none: the parts with numbers from 0 on. The answer is how many they are.
    pub(crate) fn open(&mut self, parts: Parts) -> u32
        requires none { (n : ℕ) → part_in self.old n ≡ None }
        requires some { 0 < length self.old }
        requires room { length parts ≤ length self.old }
        requires few { length self.old < 2 ^ 32 }
        ensures count { result ≡ length parts }
        ensures parts { (n : ℕ) → part_in self.new n ≡ placed_from 0 parts (λ i. None) n }
        ensures room { length self.new ≡ length self.old }
    {
        let others = self.place(0, 1, parts);
        match self.get(0) {
            Some(_) => others + 1,
            None => others,
        }
    }
}
