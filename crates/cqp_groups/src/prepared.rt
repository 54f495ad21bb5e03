//! Calls for a caller that prepares all memory first: the places of qubits, and then changes of the
//! groups that take none.

ghost use Rattle.std.specs.Prelude.{◌≡◌, ◌++◌, [], ◌∷◌, ◌<◌, ℕ, List, Option, length, IfOk, Some};
ghost use Rattle.std.specs.Prelude.{None, false, nat_lt};
ghost use Rattle.cqp_trace.specs.declared.deed.Deed.TheVariants as deed;
ghost use Rattle.cqp_vector.specs.Measurement.{is_outcome, projected};
ghost use Rattle.cqp_vector.specs.Places.{ArePlaces};
ghost use Rattle.cqp_machine.specs.After.{groups_by};
ghost use Rattle.cqp_machine.specs.Factors.{Held, state_of};
ghost use Rattle.cqp_groups.specs.Groups.{ArePlacesOf, CanGateAt, CanMeasure, as_cells, groups_in};
ghost use Rattle.cqp_groups.specs.States.{IsChange, IsGate};

use crate::groups::Groups;
use crate::places::Places;
use cqp_syntax::{Names, Op};
use cqp_vector::NoMemory;
use std::alloc::Global;

impl Groups {
    /// The places of qubits in a group's list; where there is no group, no place. An `Err` comes
    /// for want of memory alone.
    pub fn places(&self, alloc: Global, group: u32, qubits: &[u32]) -> Result<Places, NoMemory>
        requires { group < length self.now }
        ensures { IfOk result (λ v. ArePlacesOf self.now group qubits.now v.items) }
    {
        match &self.slots[group as usize] {
            Some(held) => held.places(alloc, qubits),
            None => Ok(Places::new(alloc)),
        }
    }

    /// A gate on the qubits of a group that have these places. It takes no memory.
    pub fn gate_at(&mut self, group: u32, op: Op, places: &[u32])
        requires { CanGateAt self.old group op places.now }
        ensures value { (qs : List ℕ) → ArePlacesOf self.old group qs places.now
            → groups_in self.new ≡ groups_by (as_cells self.old) (deed.Gate op qs) group }
        ensures state { (qs : List ℕ) → ArePlacesOf self.old group qs places.now
            → IsGate self.old self.new group op qs }
        ensures made { length self.new ≡ length self.old }
    {
        if let Some(mut held) = self.take(group) {
            held.gate_at(op, places);
            self.put(group, held);
        }
    }

    /// A measurement of qubits of a group, which have these places. Where the group has several,
    /// they are then due, in the memory of `qubits`; no other is taken.
    pub fn measured_at(&mut self, group: u32, qubits: Names, places: &[u32], outcome: u32)
        requires can { CanMeasure self.old group qubits outcome }
        requires places { ArePlacesOf self.old group qubits places.now }
        ensures value { groups_in self.new
            ≡ groups_by (as_cells self.old) (deed.Measure qubits outcome) group }
        ensures state { IsChange self.old self.new (projected qubits outcome) }
        ensures made { length self.new ≡ length self.old }
    {
        if let Some(mut held) = self.take(group) {
            held.measured_at(qubits, places, outcome);
            self.put(group, held);
        }
    }

    /// Whether the projection of a group on an outcome of the qubits at these places isn't zero. It
    /// takes no memory, and the time grows with the group's numerators.
    pub fn has_outcome(&self, group: u32, places: &[u32], outcome: u32) -> bool
        requires number { group < length self.now }
        requires places { (g : Held) → groups_in self.now group ≡ Some g
            → ArePlaces (length g.qubits) places.now }
        ensures { (g : Held) → groups_in self.now group ≡ Some g
            → result ≡ is_outcome places.now (state_of g) outcome }
    {
        match &self.slots[group as usize] {
            Some(held) => held.has_outcome(places, outcome),
            None => false,
        }
    }

    /// Whether a group is there of which qubits are due. It takes no memory.
    pub fn has_due(&self, group: u32) -> bool
        ensures there { (g : Held) → groups_in self.now group ≡ Some g
            → result ≡ nat_lt 0 (length g.due) }
        ensures none { groups_in self.now group ≡ None → result ≡ false }
    {
        match self.slots.get(group as usize) {
            Some(Some(held)) => !held.due().is_empty(),
            _ => false,
        }
    }

    /// Takes the newest qubit's place away again, with the group that stands there. It takes no
    /// memory.
    pub fn drop_last(&mut self)
        ensures { (slots : List (Option Held)) (group : Option Held)
            → self.old ≡ slots ++ group ∷ [] → self.new ≡ slots }
    {
        self.slots.pop();
    }
}
