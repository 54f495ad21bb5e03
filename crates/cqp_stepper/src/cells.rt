//! What a run in one place keeps, but for its entries: the parts, how they stand, and the groups.

ghost use Rattle.std.specs.Prelude.{◌≡◌, ◌+◌, ◌<◌, [], None, true, IfOk, IfSome, OnOk};
ghost use Rattle.cqp_stepper.specs.Kept.{HasOnlyNewStand, IsAllSeen, IsKept, IsNoted, IsRunOf};
ghost use Rattle.cqp_stepper.specs.Kept.{Keeps, is_unseen, stand_of};

use crate::laws::{here_laws, opening_laws};
use crate::slots::Slots;
use crate::tables::Tables;
use cqp_groups::Groups;
use cqp_order::{Order, Stand};
use cqp_syntax::NoMemory;
use std::alloc::Global;

/// How many parts and channels were made, and how many measurements.
#[derive(Clone, Copy, Debug)]
pub(crate) struct Counts {
    pub(crate) parts: u32,
    pub(crate) chans: u32,
    pub(crate) turns: u64,
}

/// Numbers of parts that may stand otherwise than was noted last: two, and those from one on.
#[derive(Clone, Copy, Debug)]
pub(crate) struct Unseen {
    pub(crate) first: Option<u32>,
    pub(crate) second: Option<u32>,
    pub(crate) from: u32,
}

/// The parts by number, how they stand as far as that was noted, the groups, of which one may have
/// qubits that are due, and the counts.
#[derive(Drop)]
pub(crate) struct Cells {
    pub(crate) slots: Slots,
    pub(crate) order: Order,
    pub(crate) unseen: Unseen,
    pub(crate) groups: Groups,
    pub(crate) due: Option<u32>,
    pub(crate) counts: Counts,
}

impl Cells {
    /// The cells of a run of which nothing was made yet.
    pub(crate) fn opening(tables: &Tables, alloc: Global) -> Result<Cells, NoMemory>
        ensures { IfOk result (λ cells. IsKept tables.now [] cells) }
    {
        opening_laws();
        tables.checked();
        let room = tables.nodes();
        let mut slots = Slots::new(alloc, room)?;
        let parts = slots.open(tables.opening(alloc)?);
        Ok(Cells {
            slots,
            order: Order::new(alloc, room as u32)?,
            unseen: Unseen {
                first: None,
                second: None,
                from: 0,
            },
            groups: Groups::new(alloc),
            due: None,
            counts: Counts {
                parts,
                chans: 0,
                turns: 0,
            },
        })
    }

    // Notes how a part stands that is among the unseen, or that it isn't there.
    fn note(&mut self, tables: &Tables, n: u32) -> Result<(), NoMemory>
        requires run { IsRunOf tables.now self.old }
        requires unseen { is_unseen self.old.unseen n ≡ true }
        ensures kept { Keeps tables.now self.old self.new }
        ensures noted { OnOk result (IsNoted tables.now self.new n) }
        ensures rest { HasOnlyNewStand self.old self.new }
    {
        let stand = self.stand_of(tables, n);
        self.order.renew(n, stand)
    }

    // How a part stands, if it is there.
    fn stand_of(&self, tables: &Tables, n: u32) -> Option<Stand>
        requires { IsRunOf tables.now self.now }
        ensures is { result ≡ stand_of tables.now self.now n }
        ensures fits { IfSome result (λ stand. n < self.now.order.1) }
    {
        here_laws();
        tables.checked();
        match self.slots.get(n) {
            Some(part) => Some(tables.stand(part)),
            None => None,
        }
    }

    /// Notes how each part stands.
    pub(crate) fn settle(&mut self, tables: &Tables) -> Result<(), NoMemory>
        requires { IsRunOf tables.now self.old }
        ensures kept { Keeps tables.now self.old self.new }
        ensures seen { OnOk result (IsAllSeen self.new) }
    {
        self.note_first(tables)?;
        self.note_second(tables)?;
        while self.unseen.from < self.counts.parts {
            self.note_next(tables)?;
        }
        Ok(())
    }

    // Notes the first of the unseen.
    fn note_first(&mut self, tables: &Tables) -> Result<(), NoMemory>
        requires { IsRunOf tables.now self.old }
        ensures kept { Keeps tables.now self.old self.new }
        ensures done { OnOk result (self.new.unseen ≡ record self.old.unseen { first = None }) }
        ensures counts { self.new.counts ≡ self.old.counts }
    {
        if let Some(n) = self.unseen.first {
            self.note(tables, n)?;
            self.unseen.first = None;
        }
        Ok(())
    }

    // Notes the second of them.
    fn note_second(&mut self, tables: &Tables) -> Result<(), NoMemory>
        requires { IsRunOf tables.now self.old }
        ensures kept { Keeps tables.now self.old self.new }
        ensures done { OnOk result (self.new.unseen ≡ record self.old.unseen { second = None }) }
        ensures counts { self.new.counts ≡ self.old.counts }
    {
        if let Some(n) = self.unseen.second {
            self.note(tables, n)?;
            self.unseen.second = None;
        }
        Ok(())
    }

    // Notes the least of those from a number on.
    fn note_next(&mut self, tables: &Tables) -> Result<(), NoMemory>
        requires run { IsRunOf tables.now self.old }
        requires some { self.old.unseen.from < self.old.counts.parts }
        ensures kept { Keeps tables.now self.old self.new }
        ensures done { OnOk result
            (self.new.unseen ≡ record self.old.unseen { from = self.old.unseen.from + 1 }) }
        ensures counts { self.new.counts ≡ self.old.counts }
    {
        self.note(tables, self.unseen.from)?;
        self.unseen.from += 1;
        Ok(())
    }
}
