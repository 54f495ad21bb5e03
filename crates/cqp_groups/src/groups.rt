//! The groups of a run in one place. Contracts see `Groups` as a list with a place for each qubit
//! that was made, and the group at the place of its number.

ghost use Rattle.std.specs.Prelude.{◌≡◌, ◌++◌, [], ◌∷◌, ◌<◌, length, OnOk, OnErr, Some, None};
ghost use Rattle.std.specs.Prelude.{slice_set};
ghost use Rattle.cqp_vector.specs.Group.{CanJoin};
ghost use Rattle.cqp_trace.specs.declared.deed.Deed.TheVariants as deed;
ghost use Rattle.cqp_machine.specs.After.{groups_by, groups_joined, lesser};
ghost use Rattle.cqp_machine.specs.Factors.{factor_of, joined, least_qubit, new_group};
ghost use Rattle.cqp_machine.specs.Factors.{split_pieces, with_due};
ghost use Rattle.cqp_pieces.specs.Splitting.{SplitsRightly};
ghost use Rattle.cqp_groups.specs.Groups.{AreMade, CanMeasure, CanPair, CanSplit, CanGate};
ghost use Rattle.cqp_groups.specs.Groups.{as_cells, entered, groups_in, groups_split};
ghost use Rattle.cqp_groups.specs.States.{IsChange, IsGate};
ghost use Rattle.cqp_vector.specs.State as state;
ghost use Rattle.cqp_vector.specs.Measurement.{projected};

use crate::group::Group;
use crate::places::least_qubit as least_of;
use cqp_syntax::{Names, Op};
use cqp_vector::{Factor, FactorList, NoMemory};
use std::alloc::{AllocError, Global};
use std::marker::Model;
use std::mem;

/// A place for each qubit that was made, with the group whose number it is, if there is one.
#[derive(Debug, Drop)]
pub struct Groups {
    pub(crate) slots: Vec<Option<Group>>,
}

impl Model for Groups {
    ghost use Rattle.std.specs.Prelude.{List, Option};
    ghost use Rattle.cqp_machine.specs.Factors.{Held};

    ghost Value = { List (Option Held) };

    ghost view = { λ s. s.slots.items };
}

impl Groups {
    /// No qubit. It takes no memory.
    pub fn new(alloc: Global) -> Groups
        ensures { result ≡ [] }
    {
        Groups {
            slots: Vec::new(alloc),
        }
    }

    /// How many qubits were made.
    pub fn made(&self) -> usize
        ensures { result ≡ length self.now }
    {
        self.slots.len()
    }

    /// A new qubit, in a group of its own. An `Err` comes for want of memory alone, here and below,
    /// and leaves the groups as they were.
    pub fn grown(&mut self, alloc: Global, qubit: u32) -> Result<(), NoMemory>
        requires { qubit ≡ length self.old }
        ensures ok { OnOk result (groups_in self.new
            ≡ groups_by (as_cells self.old) (deed.Qbit qubit) 0) }
        ensures list { OnOk result (self.new ≡ self.old ++ Some (new_group qubit) ∷ []) }
        ensures state { OnOk result (IsChange self.old self.new state.grown) }
        ensures made { OnOk result (length self.new ≡ length (self.old ++ None ∷ [])) }
        ensures err { OnErr result (self.new ≡ self.old) }
    {
        let group = Group::make(alloc, qubit)?;
        self.slots.push(Some(group))?;
        Ok(())
    }

    // Takes the group at a number out.
    pub(crate) fn take(&mut self, group: u32) -> Option<Group>
        requires { group < length self.old }
        ensures value { result ≡ groups_in self.old group }
        ensures left { self.new ≡ slice_set self.old group None }
    {
        mem::replace(&mut self.slots[group as usize], None)
    }

    // Puts a group at a number.
    pub(crate) fn put(&mut self, number: u32, group: Group)
        requires { number < length self.old }
        ensures { self.new ≡ slice_set self.old number (Some group) }
    {
        self.slots[number as usize] = Some(group);
    }

    /// A gate on qubits of a group. It takes memory for their places, and none for numerators.
    pub fn gate(
        &mut self,
        alloc: Global,
        group: u32,
        op: Op,
        qubits: &[u32],
    ) -> Result<(), NoMemory>
        requires { CanGate self.old group op qubits.now }
        ensures ok { OnOk result (groups_in self.new
            ≡ groups_by (as_cells self.old) (deed.Gate op qubits.now) group) }
        ensures state { OnOk result (IsGate self.old self.new group op qubits.now) }
        ensures made { length self.new ≡ length self.old }
        ensures err { OnErr result (self.new ≡ self.old) }
    {
        let places = self.places(alloc, group, qubits)?;
        self.gate_at(group, op, places.as_slice());
        Ok(())
    }

    /// A measurement of qubits of a group, which are then due where the group has several. It takes
    /// memory for the qubits and their places, and none for numerators.
    pub fn measured(
        &mut self,
        alloc: Global,
        group: u32,
        qubits: &[u32],
        outcome: u32,
    ) -> Result<(), NoMemory>
        requires { CanMeasure self.old group qubits.now outcome }
        ensures ok { OnOk result (groups_in self.new
            ≡ groups_by (as_cells self.old) (deed.Measure qubits.now outcome) group) }
        ensures state { OnOk result
            (IsChange self.old self.new (projected qubits.now outcome)) }
        ensures made { length self.new ≡ length self.old }
        ensures err { OnErr result (self.new ≡ self.old) }
    {
        let places = self.places(alloc, group, qubits)?;
        let due = Names::from_slice(alloc, qubits)?;
        self.measured_at(group, due, places.as_slice(), outcome);
        Ok(())
    }

    /// Both groups as one, which has the name of its least qubit.
    pub fn join(&mut self, alloc: Global, left: u32, right: u32) -> Result<(), NoMemory>
        requires { CanPair self.old left right }
        ensures ok { OnOk result (groups_in self.new
            ≡ groups_joined (as_cells self.old) left right) }
        ensures state { OnOk result (IsChange self.old self.new (λ s. s)) }
        ensures made { length self.new ≡ length self.old }
        ensures err { OnErr result (self.new ≡ self.old) }
    {
        let second = self.take(right);
        let first = self.take(left);
        match (first, second) {
            (Some(first), Some(second)) => self.put_both(alloc, left, right, first, second),
            _ => Ok(()),
        }
    }

    // Puts the product of two groups that were taken out, or both.
    fn put_both(
        &mut self,
        alloc: Global,
        left: u32,
        right: u32,
        first: Group,
        second: Group,
    ) -> Result<(), NoMemory>
        requires left { left < length self.old }
        requires right { right < length self.old }
        requires can { CanJoin (factor_of first) (factor_of second) }
        ensures ok { OnOk result (self.new
            ≡ slice_set self.old (lesser left right) (Some (joined first second))) }
        ensures err { OnErr result (self.new
            ≡ slice_set (slice_set self.old left (Some first)) right (Some second)) }
    {
        match Group::join(alloc, first, second) {
            Ok(group) => {
                self.put(left.min(right), group);
                Ok(())
            }
            Err(refused) => {
                self.put(left, refused.left);
                self.put(right, refused.right);
                Err(AllocError)
            }
        }
    }

    /// The due qubits of a group become groups of their own, and the rest is named by its least
    /// qubit.
    pub fn split(&mut self, alloc: Global, group: u32) -> Result<(), NoMemory>
        requires { CanSplit self.old group }
        ensures ok { OnOk result (groups_in self.new ≡ groups_split (as_cells self.old) group) }
        ensures state { OnOk result (IsChange self.old self.new (λ s. s)) }
        ensures made { length self.new ≡ length self.old }
        ensures err { OnErr result (self.new ≡ self.old) }
    {
        match self.take(group) {
            Some(held) => self.put_split(alloc, group, held),
            None => Ok(()),
        }
    }

    // Puts the pieces of a group that was taken out, or the group.
    fn put_split(&mut self, alloc: Global, number: u32, group: Group) -> Result<(), NoMemory>
        requires place { number < length self.old }
        requires rightly { SplitsRightly group.due group }
        requires made { AreMade (length self.old) (split_pieces group.due group) }
        ensures ok { OnOk result (groups_in self.new
            ≡ entered (split_pieces group.due group) (groups_in self.old)) }
        ensures made { length self.new ≡ length self.old }
        ensures err { OnErr result (self.new ≡ slice_set self.old number (Some group)) }
    {
        match group.split(alloc) {
            Ok(list) => {
                self.enter(alloc, list);
                Ok(())
            }
            Err(group) => {
                self.put(number, group);
                Err(AllocError)
            }
        }
    }

    // Puts factors in, each at the number of its least qubit.
    fn enter(&mut self, alloc: Global, list: FactorList)
        requires { AreMade (length self.old) list }
        ensures value { groups_in self.new ≡ entered list (groups_in self.old) }
        ensures made { length self.new ≡ length self.old }
    {
        let mut list = list.into_vec();
        while let Some(factor) = list.pop() {
            self.put_least(alloc, factor);
        }
    }

    // Puts one factor in, with nothing due.
    fn put_least(&mut self, alloc: Global, factor: Factor)
        requires { least_qubit factor.qubits < length self.old }
        ensures { self.new
            ≡ slice_set self.old (least_qubit factor.qubits) (Some (with_due [] factor)) }
    {
        let number = least_of(factor.qubits());
        self.put(number, Group::of(factor, Names::new(alloc)));
    }
}
