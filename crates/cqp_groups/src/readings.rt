//! What the groups of a run say: odds, the group of a qubit, the level, the norm, and the factors.

ghost use Rattle.std.specs.Prelude.{◌≡◌, ◌<◌, ◌≤◌, length, IfOk, IfSome, None, true};
ghost use Rattle.cqp_machine.specs.Sums as sums;
ghost use Rattle.cqp_machine.specs.Sums.{h_in, level_in, levels, norm_in, norms};
ghost use Rattle.cqp_groups.specs.Groups.{AreOdds, IsHeld, IsNowhere, NormsFit, as_cells};
ghost use Rattle.cqp_groups.specs.Groups.{factors_in, groups_in, holds};
ghost use Rattle.cqp_groups.specs.States.{TellFactors, TellState};

use crate::groups::Groups;
use cqp_ring::Root;
use cqp_vector::{FactorList, NoMemory, Odds};
use std::alloc::Global;

const ONE: Root = Root { p: 1, q: 0 };

impl Groups {
    /// The outcomes of some qubits of a group that aren't zero, rising, each with the norm of its
    /// projection. An `Err` comes for want of memory alone.
    pub fn odds(&self, alloc: Global, group: u32, qubits: &[u32]) -> Result<Odds, NoMemory>
        requires held { IsHeld self.now group qubits.now }
        requires some { 0 < length qubits.now }
        ensures odds { IfOk result (λ odds. AreOdds self.now group qubits.now odds) }
        ensures state { IfOk result (λ odds. TellState self.now qubits.now odds) }
    {
        self.odds_at(alloc, group, qubits)
    }

    // The same, as the group says them.
    fn odds_at(&self, alloc: Global, group: u32, qubits: &[u32]) -> Result<Odds, NoMemory>
        requires held { IsHeld self.now group qubits.now }
        requires some { 0 < length qubits.now }
        ensures { IfOk result (λ odds. AreOdds self.now group qubits.now odds) }
    {
        match &self.slots[group as usize] {
            Some(held) => held.odds(alloc, qubits),
            None => Ok(Odds::from_vec(Vec::new(alloc))),
        }
    }

    /// The number of the group that has a qubit. The time grows with the qubits that were made.
    pub fn group_of(&self, qubit: u32) -> Option<u32>
        requires { length self.now ≤ 12 }
        ensures some { IfSome result (λ n. holds qubit (groups_in self.now n) ≡ true) }
        ensures none { result ≡ None → IsNowhere self.now qubit }
    {
        for n in 0..self.made() {
            if self.has_at(n, qubit) {
                return Some(n as u32);
            }
        }
        None
    }

    // Whether the group at a number has a qubit.
    fn has_at(&self, number: usize, qubit: u32) -> bool
        requires { number < length self.now }
        ensures { result ≡ holds qubit (groups_in self.now number) }
    {
        match &self.slots[number] {
            Some(group) => group.qubits().contains(&qubit),
            None => false,
        }
    }

    /// The sum of the groups' levels.
    pub fn level(&self) -> u32
        requires { levels (length self.now) (as_cells self.now) ≤ 180 }
        ensures { result ≡ levels (length self.now) (as_cells self.now) }
    {
        let mut level = 0;
        for n in 0..self.made() {
            level += self.level_at(n);
        }
        level
    }

    // The level of the group at a number.
    fn level_at(&self, number: usize) -> u32
        requires { number < length self.now }
        ensures { result ≡ level_in (groups_in self.now number) }
    {
        match &self.slots[number] {
            Some(group) => group.level(),
            None => 0,
        }
    }

    /// The sum of the groups' exponents.
    pub fn exponents(&self) -> u32
        requires { sums.exponents (length self.now) (as_cells self.now) ≤ 96 }
        ensures { result ≡ sums.exponents (length self.now) (as_cells self.now) }
    {
        let mut h = 0;
        for n in 0..self.made() {
            h += self.h_at(n);
        }
        h
    }

    // The exponent of the group at a number.
    fn h_at(&self, number: usize) -> u32
        requires { number < length self.now }
        ensures { result ≡ h_in (groups_in self.now number) }
    {
        match &self.slots[number] {
            Some(group) => group.h(),
            None => 0,
        }
    }

    /// The product of the groups' norms.
    pub fn norm(&self) -> Root
        requires { NormsFit self.now }
        ensures { result ≡ norms (length self.now) (as_cells self.now) }
    {
        let mut norm = ONE;
        for n in 0..self.made() {
            norm = norm.root_mul(self.norm_at(n));
        }
        norm
    }

    // The norm of the group at a number.
    fn norm_at(&self, number: usize) -> Root
        requires { number < length self.now }
        ensures { result ≡ norm_in (groups_in self.now number) }
    {
        match &self.slots[number] {
            Some(group) => group.norm(),
            None => ONE,
        }
    }

    /// The groups' factors, in the order of their numbers. An `Err` comes for want of memory alone;
    /// then they are gone.
    pub fn into_factors(self, alloc: Global) -> Result<FactorList, NoMemory>
        ensures list { IfOk result (λ list. list ≡ factors_in self) }
        ensures state { IfOk result (λ list. TellFactors self list) }
    {
        self.all_factors(alloc)
    }

    // The same, one after another.
    fn all_factors(self, alloc: Global) -> Result<FactorList, NoMemory>
        ensures { IfOk result (λ list. list ≡ factors_in self) }
    {
        let mut list = Vec::new(alloc);
        for slot in self.slots {
            if let Some(group) = slot {
                list.push(group.into_factor())?;
            }
        }
        Ok(FactorList::from_vec(list))
    }
}
