//! Entries that are tried.

ghost use Rattle.std.specs.Prelude.{◌≡◌, ◌↔◌, ◌<◌, false, length, IfOk, IsTrue, OnErr};
ghost use Rattle.cqp_cells.specs.Examples.{by};
ghost use Rattle.cqp_meeting.specs.Meetings.{is_communication};
ghost use Rattle.cqp_trace.specs.declared.deed.Deed.TheVariants as deeds;
ghost use Rattle.cqp_vector.specs.Group.{factors_left_out};
ghost use Rattle.cqp_stepper.specs.Kept.{IsAllSeen, IsRunOf, Keeps};
ghost use Rattle.cqp_stepper.specs.Last.{IsReduction, IsTriedBy};
ghost use Rattle.cqp_stepper.specs.Own.{HasReachedLimit, HasSomeQubits};
ghost use Rattle.cqp_stepper.specs.Steps.{MayMake};

use crate::cells::Cells;
use crate::laws::{own_laws, try_laws};
use crate::own::{GateOn, MeasureOf};
use crate::tables::Tables;
use cqp_engine::Fit;
use cqp_syntax::{NoMemory, Op};
use cqp_trace::{Deed, Entry};
use std::alloc::Global;

// Levels below which an H has room.
const LIMIT: u32 = 179;

impl Cells {
    /// Tries an entry. Without memory the cells are still of the same entries, here and below.
    pub(crate) fn try_entry(
        &mut self,
        tables: &Tables,
        alloc: Global,
        entry: &Entry,
    ) -> Result<Fit, NoMemory>
        requires { IsRunOf tables.now self.old }
        ensures fit { IfOk result (λ fit. IsTriedBy tables.now self.old entry.now fit self.new) }
        ensures err { OnErr result (Keeps tables.now self.old self.new) }
    {
        self.settle(tables)?;
        match &entry.deed {
            Deed::Com { to, chan } => self.try_meeting(tables, alloc, entry.part, *to, *chan),
            deed => self.try_own(tables, alloc, entry.part, deed),
        }
    }

    /// Tries an entry that is a reduction.
    pub(crate) fn make_entry(
        &mut self,
        tables: &Tables,
        alloc: Global,
        entry: &Entry,
    ) -> Result<Fit, NoMemory>
        requires { IsReduction tables.now self.old entry.now }
        ensures fit { IfOk result (λ fit. IsTriedBy tables.now self.old entry.now fit self.new) }
        ensures err { OnErr result (Keeps tables.now self.old self.new) }
    {
        self.settle(tables)?;
        match &entry.deed {
            Deed::Com { to, chan } => self.try_meeting(tables, alloc, entry.part, *to, *chan),
            deed => self.make_own(tables, alloc, entry.part, deed),
        }
    }

    // Tries a communication.
    fn try_meeting(
        &mut self,
        tables: &Tables,
        alloc: Global,
        from: u32,
        to: u32,
        chan: u32,
    ) -> Result<Fit, NoMemory>
        requires run { IsRunOf tables.now self.old }
        requires seen { IsAllSeen self.old }
        ensures fit { IfOk result (λ fit. IsTriedBy tables.now self.old
            (by from (deeds.Com to chan)) fit self.new) }
        ensures err { OnErr result (Keeps tables.now self.old self.new) }
    {
        try_laws();
        tables.checked();
        if self.communicate(tables, alloc, from, to, chan)? {
            return Ok(Fit::Made);
        }
        Ok(Fit::NoStep)
    }

    // Tries a deed of one part.
    fn try_own(
        &mut self,
        tables: &Tables,
        alloc: Global,
        n: u32,
        deed: &Deed,
    ) -> Result<Fit, NoMemory>
        requires run { IsRunOf tables.now self.old }
        requires seen { IsAllSeen self.old }
        requires own { is_communication deed.now ≡ false }
        ensures fit { IfOk result (λ fit. IsTriedBy tables.now self.old (by n deed.now) fit
            self.new) }
        ensures err { OnErr result (Keeps tables.now self.old self.new) }
    {
        try_laws();
        own_laws();
        tables.checked();
        let Some(turn) = self.own_turn(tables, alloc, n)? else {
            return Ok(Fit::NoStep);
        };
        if self.is_deed_of(turn, deed) {
            return self.try_deed(tables, alloc, n, deed);
        }
        Ok(Fit::NoStep)
    }

    // Tries a deed of one part that is a reduction.
    fn make_own(
        &mut self,
        tables: &Tables,
        alloc: Global,
        n: u32,
        deed: &Deed,
    ) -> Result<Fit, NoMemory>
        requires reduction { IsReduction tables.now self.old (by n deed.now) }
        requires seen { IsAllSeen self.old }
        requires own { is_communication deed.now ≡ false }
        ensures fit { IfOk result (λ fit. IsTriedBy tables.now self.old (by n deed.now) fit
            self.new) }
        ensures err { OnErr result (Keeps tables.now self.old self.new) }
    {
        try_laws();
        own_laws();
        tables.checked();
        self.try_deed(tables, alloc, n, deed)
    }

    // Tries a deed by which its part's process moves.
    fn try_deed(
        &mut self,
        tables: &Tables,
        alloc: Global,
        n: u32,
        deed: &Deed,
    ) -> Result<Fit, NoMemory>
        requires run { IsRunOf tables.now self.old }
        requires seen { IsAllSeen self.old }
        requires own { is_communication deed.now ≡ false }
        requires may { MayMake tables.now self.old n deed.now }
        requires some { HasSomeQubits deed.now }
        ensures fit { IfOk result (λ fit. IsTriedBy tables.now self.old (by n deed.now) fit
            self.new) }
        ensures err { OnErr result (Keeps tables.now self.old self.new) }
    {
        match deed {
            Deed::Gate { op, qubits } => {
                self.try_gate(tables, alloc, n, deed, *op, qubits.as_slice())
            }
            Deed::Measure { qubits, outcome } => {
                self.try_measure(tables, alloc, n, deed, qubits.as_slice(), *outcome)
            }
            Deed::Qbit { q } => {
                self.make_qubit(tables, alloc, n, deed, *q)?;
                Ok(Fit::Made)
            }
            _ => {
                self.make_plain(tables, alloc, n, deed)?;
                Ok(Fit::Made)
            }
        }
    }

    // Tries a gate.
    fn try_gate(
        &mut self,
        tables: &Tables,
        alloc: Global,
        n: u32,
        deed: &Deed,
        op: Op,
        qubits: &[u32],
    ) -> Result<Fit, NoMemory>
        requires run { IsRunOf tables.now self.old }
        requires seen { IsAllSeen self.old }
        requires may { MayMake tables.now self.old n deed.now }
        requires is { deed.now ≡ deeds.Gate op qubits.now }
        ensures fit { IfOk result (λ fit. IsTriedBy tables.now self.old (by n deed.now) fit
            self.new) }
        ensures err { OnErr result (Keeps tables.now self.old self.new) }
    {
        try_laws();
        tables.checked();
        if is_h(op) && self.has_reached_limit(tables) {
            return Ok(Fit::AtLimit);
        }
        let group = self.gather(tables, alloc, qubits)?;
        let gate = GateOn { op, qubits, group };
        self.make_gate(tables, alloc, n, deed, gate)?;
        Ok(Fit::Made)
    }

    // Tries a measurement.
    fn try_measure(
        &mut self,
        tables: &Tables,
        alloc: Global,
        n: u32,
        deed: &Deed,
        qubits: &[u32],
        outcome: u32,
    ) -> Result<Fit, NoMemory>
        requires run { IsRunOf tables.now self.old }
        requires seen { IsAllSeen self.old }
        requires may { MayMake tables.now self.old n deed.now }
        requires is { deed.now ≡ deeds.Measure qubits.now outcome }
        requires some { 0 < length qubits.now }
        ensures fit { IfOk result (λ fit. IsTriedBy tables.now self.old (by n deed.now) fit
            self.new) }
        ensures err { OnErr result (Keeps tables.now self.old self.new) }
    {
        try_laws();
        tables.checked();
        let group = self.gather(tables, alloc, qubits)?;
        let measured = MeasureOf {
            qubits,
            outcome,
            group,
        };
        if self.make_measurement(tables, alloc, n, deed, measured)? {
            return Ok(Fit::Made);
        }
        Ok(Fit::NoStep)
    }

    /// Whether the groups' levels together leave no room for an H.
    pub(crate) fn has_reached_limit(&self, tables: &Tables) -> bool
        requires { IsRunOf tables.now self.now }
        ensures { IsTrue result ↔ HasReachedLimit self.now }
    {
        try_laws();
        self.groups.level() >= LIMIT
    }
}

// Whether the gate is H, which leaves out a factor.
fn is_h(op: Op) -> bool
    ensures { IsTrue result ↔ factors_left_out op ≡ 1 }
{
    op == Op::H
}
