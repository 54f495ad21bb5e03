//! Deeds of one part.

ghost use Rattle.std.specs.Prelude.{◌≡◌, ◌+◌, ◌<◌, ◌≤◌, ◌^◌, length, IfOk, OnErr, OnOk, None, Some};
ghost use Rattle.std.specs.Prelude.{slice_set, false, true};
ghost use Rattle.cqp_cells.specs.Examples.{by};
ghost use Rattle.cqp_machine.specs.Fronts as fronts;
ghost use Rattle.cqp_parts.specs.declared.part.Part.{Part as Seen};
ghost use Rattle.cqp_parts.specs.Parts.{more_than_one, parts_after};
ghost use Rattle.cqp_standing.specs.Stands.{Stands};
ghost use Rattle.cqp_stepper.specs.Kept.{IsAllSeen, IsRunOf};
ghost use Rattle.cqp_stepper.specs.Slots.{part_in};
ghost use Rattle.cqp_stepper.specs.Steps.{CanMakeParts, GoesOnTo, HasGroupsOf, HasMadeParts};
ghost use Rattle.cqp_stepper.specs.Steps.{HasRoomFor, IsGathered, IsMade, IsUnlikely, MayMake};
ghost use Rattle.cqp_stepper.specs.Steps.{counted, is_plain};
ghost use Rattle.cqp_stepper.specs.Gathering.{HasGathered};
ghost use Rattle.cqp_trace.specs.declared.deed.Deed.TheVariants as deeds;

use crate::cells::{Cells, Unseen};
use crate::laws::make_laws;
use crate::tables::Tables;
use cqp_onward::Parts;
use cqp_syntax::{Names, NoMemory, Op};
use cqp_trace::Deed;
use std::alloc::{AllocError, Global};

/// A gate on qubits of a group.
#[derive(Clone, Copy)]
pub(crate) struct GateOn<'a> {
    pub(crate) op: Op,
    pub(crate) qubits: &'a [u32],
    pub(crate) group: u32,
}

/// A measurement of qubits of a group, with its outcome.
#[derive(Clone, Copy)]
pub(crate) struct MeasureOf<'a> {
    pub(crate) qubits: &'a [u32],
    pub(crate) outcome: u32,
    pub(crate) group: u32,
}

impl Cells {
    // Takes a part out, and gives the parts in its place.
    fn go_on(
        &mut self,
        tables: &Tables,
        alloc: Global,
        n: u32,
        deed: &Deed,
    ) -> Result<Parts, NoMemory>
        requires place { n < length self.old.slots }
        requires stands { (part : Seen) → part_in self.old.slots n ≡ Some part
            → Stands tables.now part }
        ensures ok { IfOk result (λ parts. (part : Seen) → part_in self.old.slots n ≡ Some part
            → parts ≡ parts_after tables.now part deed.now) }
        ensures left { OnOk result
            (self.new ≡ record self.old { slots = slice_set self.old.slots n None }) }
        ensures err { OnErr result (self.new ≡ self.old) }
    {
        let Some(part) = self.slots.take(n) else {
            return Err(AllocError);
        };
        match tables.go_on(alloc, part, deed) {
            Ok(parts) => Ok(parts),
            Err(refused) => {
                self.slots.put(n, Some(refused.part));
                Err(AllocError)
            }
        }
    }

    // Puts parts in the place of part n, which was taken out to make a deed.
    fn finish(&mut self, n: u32, deed: &Deed, parts: Parts)
        requires place { n < length self.old.slots }
        requires room { self.old.counts.parts + more_than_one parts ≤ length self.old.slots }
        requires few { length self.old.slots < 2 ^ 32 }
        requires chans { self.old.counts.chans + 1 < 2 ^ 32 }
        requires turns { self.old.counts.turns + 1 < 2 ^ 64 }
        ensures made { IsMade self.old self.new n deed.now parts }
        ensures groups { HasGroupsOf self.old self.new }
    {
        self.count(n, deed);
        self.counts.parts += self.slots.place(n, self.counts.parts, parts);
    }

    // Counts what a deed of part n makes. How the part stands then, and those that are new, is
    // unseen.
    fn count(&mut self, n: u32, deed: &Deed)
        requires chans { self.old.counts.chans + 1 < 2 ^ 32 }
        requires turns { self.old.counts.turns + 1 < 2 ^ 64 }
        ensures { self.new ≡ counted n deed.now self.old }
    {
        self.unseen = Unseen {
            first: Some(n),
            second: None,
            from: self.counts.parts,
        };
        self.counts.chans += chans_by(deed);
        self.counts.turns += turns_by(deed);
    }

    // Makes the parts behind a deed, and leaves the groups. A refused one leaves all as it was, here
    // and below.
    fn make_parts(
        &mut self,
        tables: &Tables,
        alloc: Global,
        n: u32,
        deed: &Deed,
    ) -> Result<(), NoMemory>
        requires { CanMakeParts tables.now self.old n deed.now }
        ensures made { OnOk result (HasMadeParts tables.now self.old self.new n deed.now) }
        ensures groups { OnOk result (HasGroupsOf self.old self.new) }
        ensures err { OnErr result (self.new ≡ self.old) }
    {
        if self.move_alone(tables, alloc, n, deed)? {
            return Ok(());
        }
        self.move_apart(tables, alloc, n, deed)
    }

    // The part is taken out, and the parts go on that stand in its place.
    fn move_apart(
        &mut self,
        tables: &Tables,
        alloc: Global,
        n: u32,
        deed: &Deed,
    ) -> Result<(), NoMemory>
        requires { CanMakeParts tables.now self.old n deed.now }
        ensures made { OnOk result (HasMadeParts tables.now self.old self.new n deed.now) }
        ensures groups { OnOk result (HasGroupsOf self.old self.new) }
        ensures err { OnErr result (self.new ≡ self.old) }
    {
        let parts = self.go_on(tables, alloc, n, deed)?;
        self.finish(n, deed, parts);
        Ok(())
    }

    // The part itself goes on, in its place, where it alone comes behind the deed, and the answer
    // is `true`. Else nothing changes, and it is `false`.
    fn move_alone(
        &mut self,
        tables: &Tables,
        alloc: Global,
        n: u32,
        deed: &Deed,
    ) -> Result<bool, NoMemory>
        requires { CanMakeParts tables.now self.old n deed.now }
        ensures made { IfOk result (λ went. went ≡ true
            → HasMadeParts tables.now self.old self.new n deed.now) }
        ensures groups { OnOk result (HasGroupsOf self.old self.new) }
        ensures stays { IfOk result (λ went. went ≡ false → self.new ≡ self.old) }
        ensures err { OnErr result (self.new ≡ self.old) }
    {
        if !self.slots.go_on_alone(tables, alloc, n, deed)? {
            return Ok(false);
        }
        self.count(n, deed);
        Ok(true)
    }

    /// Makes a deed of a part that is of no group. A refused one leaves all as it was, here and
    /// below.
    pub(crate) fn make_plain(
        &mut self,
        tables: &Tables,
        alloc: Global,
        n: u32,
        deed: &Deed,
    ) -> Result<(), NoMemory>
        requires run { IsRunOf tables.now self.old }
        requires seen { IsAllSeen self.old }
        requires may { MayMake tables.now self.old n deed.now }
        requires plain { is_plain deed.now ≡ true }
        ensures ok { OnOk result (GoesOnTo tables.now self.old self.new (by n deed.now)) }
        ensures err { OnErr result (self.new ≡ self.old) }
    {
        make_laws();
        tables.checked();
        self.make_parts(tables, alloc, n, deed)?;
        Ok(())
    }

    /// Makes a qubit.
    pub(crate) fn make_qubit(
        &mut self,
        tables: &Tables,
        alloc: Global,
        n: u32,
        deed: &Deed,
        q: u32,
    ) -> Result<(), NoMemory>
        requires run { IsRunOf tables.now self.old }
        requires seen { IsAllSeen self.old }
        requires may { MayMake tables.now self.old n deed.now }
        requires is { deed.now ≡ deeds.Qbit q }
        ensures ok { OnOk result (GoesOnTo tables.now self.old self.new (by n deed.now)) }
        ensures err { OnErr result (self.new ≡ self.old) }
    {
        make_laws();
        tables.checked();
        self.groups.grown(alloc, q)?;
        match self.make_parts(tables, alloc, n, deed) {
            Ok(()) => Ok(()),
            Err(e) => {
                self.groups.drop_last();
                Err(e)
            }
        }
    }

    /// Applies a gate to qubits of a group.
    pub(crate) fn make_gate(
        &mut self,
        tables: &Tables,
        alloc: Global,
        n: u32,
        deed: &Deed,
        gate: GateOn,
    ) -> Result<(), NoMemory>
        requires run { IsRunOf tables.now self.old }
        requires seen { IsAllSeen self.old }
        requires may { MayMake tables.now self.old n deed.now }
        requires is { deed.now ≡ deeds.Gate gate.op gate.qubits.now }
        requires gathered { IsGathered self.old gate.group gate.qubits.now }
        requires room { HasRoomFor self.old gate.op }
        ensures ok { OnOk result (GoesOnTo tables.now self.old self.new (by n deed.now)) }
        ensures err { OnErr result (self.new ≡ self.old) }
    {
        make_laws();
        tables.checked();
        let places = self.groups.places(alloc, gate.group, gate.qubits)?;
        self.make_parts(tables, alloc, n, deed)?;
        self.groups.gate_at(gate.group, gate.op, places.as_slice());
        Ok(())
    }

    /// Measures qubits of a group, where the outcome's projection isn't 0, and answers whether it
    /// is so. Else nothing changes.
    pub(crate) fn make_measurement(
        &mut self,
        tables: &Tables,
        alloc: Global,
        n: u32,
        deed: &Deed,
        measured: MeasureOf,
    ) -> Result<bool, NoMemory>
        requires run { IsRunOf tables.now self.old }
        requires may { MayMake tables.now self.old n deed.now }
        requires is { deed.now ≡ deeds.Measure measured.qubits.now measured.outcome }
        requires gathered { HasGathered self.old measured.group measured.qubits.now }
        requires seen { IsAllSeen self.old }
        ensures made { IfOk result (λ made. made ≡ true
            → GoesOnTo tables.now self.old self.new (by n deed.now)) }
        ensures not { IfOk result (λ made. made ≡ false → IsUnlikely self.old measured.entry.group
            measured.entry.qubits.now measured.entry.outcome × (self.new ≡ self.old)) }
        ensures err { OnErr result (self.new ≡ self.old) }
    {
        make_laws();
        tables.checked();
        let MeasureOf {
            qubits,
            outcome,
            group,
        } = measured;
        let places = self.groups.places(alloc, group, qubits)?;
        if !self.groups.has_outcome(group, places.as_slice(), outcome) {
            return Ok(false);
        }
        let due = Names::from_slice(alloc, qubits)?;
        self.make_parts(tables, alloc, n, deed)?;
        self.groups
            .measured_at(group, due, places.as_slice(), outcome);
        self.due = Some(group);
        Ok(true)
    }
}

// How many channels a deed makes.
fn chans_by(deed: &Deed) -> u32
    ensures { result ≡ fronts.chans_by deed.now }
{
    match deed {
        Deed::New { .. } => 1,
        _ => 0,
    }
}

// How many measurements it is.
fn turns_by(deed: &Deed) -> u64
    ensures { result ≡ fronts.turns_by deed.now }
{
    match deed {
        Deed::Measure { .. } => 1,
        _ => 0,
    }
}
