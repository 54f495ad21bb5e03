//! Groups of qubits are split and joined, so that one has the qubits of a deed.

ghost use Rattle.std.specs.Prelude.{◌≡◌, ◌≢◌, ◌<◌, length, true, IfOk, OnOk, None, Some};
ghost use Rattle.std.specs.List.{AllByRecursion};
ghost use Rattle.cqp_groups.specs.Groups.{groups_in, holds};
ghost use Rattle.cqp_machine.specs.After as after;
ghost use Rattle.cqp_stepper.specs.Gathering.{HasGathered, HasOneMore, HasOnlyNewGroups};
ghost use Rattle.cqp_stepper.specs.Gathering.{IsGroup, IsJoined};
ghost use Rattle.cqp_stepper.specs.Kept.{IsRunOf, Keeps};

use crate::cells::Cells;
use crate::laws::group_laws;
use crate::tables::Tables;
use cqp_syntax::NoMemory;
use std::alloc::Global;

impl Cells {
    /// The number of a group that has all of the qubits, and of which none is due. Groups are split
    /// and joined for it, which changes no configuration, here and below.
    pub(crate) fn gather(
        &mut self,
        tables: &Tables,
        alloc: Global,
        qubits: &[u32],
    ) -> Result<u32, NoMemory>
        requires run { IsRunOf tables.now self.old }
        requires some { 0 < length qubits.now }
        requires made { AllByRecursion (λ q. q < length self.old.groups) qubits.now }
        ensures kept { Keeps tables.now self.old self.new }
        ensures gathered { IfOk result (λ group. HasGathered self.new group qubits.now) }
        ensures same { HasOnlyNewGroups self.old self.new }
    {
        self.free(tables, alloc)?;
        let mut group = self.group_with(tables, qubits[0]);
        for q in qubits {
            group = self.with_one(tables, alloc, group, *q)?;
        }
        Ok(group)
    }

    // The group with one qubit more.
    fn with_one(
        &mut self,
        tables: &Tables,
        alloc: Global,
        group: u32,
        q: u32,
    ) -> Result<u32, NoMemory>
        requires run { IsRunOf tables.now self.old }
        requires none { self.old.due ≡ None }
        requires there { IsGroup self.old group }
        requires made { q < length self.old.groups }
        ensures kept { Keeps tables.now self.old self.new }
        ensures more { IfOk result (λ more. HasOneMore self.old self.new group more q) }
        ensures same { HasOnlyNewGroups self.old self.new }
    {
        let other = self.group_with(tables, q);
        if other == group {
            return Ok(group);
        }
        let more = self.join(tables, alloc, group, other)?;
        Ok(more)
    }

    // Splits qubits that are due off their group.
    fn free(&mut self, tables: &Tables, alloc: Global) -> Result<(), NoMemory>
        requires { IsRunOf tables.now self.old }
        ensures kept { Keeps tables.now self.old self.new }
        ensures none { OnOk result (self.new.due ≡ None) }
        ensures same { HasOnlyNewGroups self.old self.new }
    {
        match self.due {
            Some(group) => self.split(tables, alloc, group),
            None => Ok(()),
        }
    }

    // The same, where only that group may have such qubits.
    fn split(&mut self, tables: &Tables, alloc: Global, group: u32) -> Result<(), NoMemory>
        requires run { IsRunOf tables.now self.old }
        requires is { self.old.due ≡ Some group }
        ensures kept { Keeps tables.now self.old self.new }
        ensures none { OnOk result (self.new.due ≡ None) }
        ensures same { HasOnlyNewGroups self.old self.new }
    {
        group_laws();
        if !self.groups.has_due(group) {
            self.due = None;
            return Ok(());
        }
        self.groups.split(alloc, group)?;
        self.due = None;
        Ok(())
    }

    // Joins two groups of which no qubit is due, and gives the number of both.
    fn join(
        &mut self,
        tables: &Tables,
        alloc: Global,
        left: u32,
        right: u32,
    ) -> Result<u32, NoMemory>
        requires run { IsRunOf tables.now self.old }
        requires none { self.old.due ≡ None }
        requires apart { left ≢ right }
        requires left { IsGroup self.old left }
        requires right { IsGroup self.old right }
        ensures kept { Keeps tables.now self.old self.new }
        ensures joined { IfOk result (λ group. IsJoined self.old self.new left right group) }
        ensures same { HasOnlyNewGroups self.old self.new }
    {
        group_laws();
        tables.checked();
        self.groups.join(alloc, left, right)?;
        Ok(lesser(left, right))
    }

    // The number of the group that has a qubit.
    fn group_with(&self, tables: &Tables, q: u32) -> u32
        requires run { IsRunOf tables.now self.now }
        requires made { q < length self.now.groups }
        ensures { holds q (groups_in self.now.groups result) ≡ true }
    {
        group_laws();
        tables.checked();
        match self.groups.group_of(q) {
            Some(group) => group,
            None => 0,
        }
    }
}

// The lesser of two numbers.
fn lesser(m: u32, n: u32) -> u32
    ensures { result ≡ after.lesser m n }
{
    if m < n { m } else { n }
}
