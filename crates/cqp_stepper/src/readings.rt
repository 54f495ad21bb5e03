//! What the cells of a run tell of what comes next.

ghost use Rattle.std.specs.Prelude.{◌≡◌, ◌<◌, ◌^◌, length, IfOk};
ghost use Rattle.std.specs.Option.{option_map};
ghost use Rattle.cqp_engine.specs.declared.engine.Upcoming.TheVariants as upcoming;
ghost use Rattle.cqp_cells.specs.Examples.{by};
ghost use Rattle.cqp_machine.specs.Sums.{sum_below};
ghost use Rattle.cqp_order.specs.Stands.{stand_at};
ghost use Rattle.cqp_stepper.specs.Kept.{IsAllSeen, IsRunOf};
ghost use Rattle.cqp_stepper.specs.Readings.{IsLeastEntry, IsLeastPartBy, IsNextOf, entry_of};
ghost use Rattle.cqp_stepper.specs.Readings.{upcoming_by};
ghost use Rattle.cqp_stepper.specs.Slots.{part_in};
ghost use Rattle.cqp_stepper.specs.Steps.{made_in};
ghost use Rattle.cqp_telling.specs.Told.{one_if_part};
ghost use Rattle.cqp_trace.specs.declared.deed.Deed.TheVariants as deeds;

use crate::cells::Cells;
use crate::tables::Tables;
use cqp_engine::Upcoming;
use cqp_order::{Stand, Turn as LeastTurn};
use cqp_syntax::NoMemory;
use cqp_trace::{Deed, Entry};
use cqp_turns::Turn;
use std::alloc::Global;

impl Cells {
    // What a part does next by its turn, unless that is to wait.
    fn upcoming_by(&self, part: u32, turn: Turn) -> Option<Upcoming>
        requires { length self.now.groups < 2 ^ 32 }
        ensures { result ≡ upcoming_by (made_in self.now) part turn }
    {
        if let Turn::Measure { qubits } = turn {
            return Some(Upcoming::Measurement { qubits });
        }
        let deed = self.own_deed(turn, 0)?;
        Some(Upcoming::Entry {
            entry: Entry { part, deed },
        })
    }

    /// What a part does next, where how each part stands was noted and this is the least that takes
    /// part in a reduction.
    pub(crate) fn next_of(
        &self,
        tables: &Tables,
        alloc: Global,
        part: u32,
    ) -> Result<Option<Upcoming>, NoMemory>
        requires run { IsRunOf tables.now self.now }
        requires seen { IsAllSeen self.now }
        requires few { length self.now.groups < 2 ^ 32 }
        ensures { IfOk result (λ next. IsNextOf tables.now self.now part next) }
    {
        match self.own_turn(tables, alloc, part)? {
            Some(turn) => Ok(self.upcoming_by(part, turn)),
            None => Ok(upcoming_with(self.least_entry())),
        }
    }

    /// The least part that takes part in a reduction.
    pub(crate) fn least_part(&self) -> Option<u32>
        ensures { IsLeastPartBy (stand_at self.now.order.0) result }
    {
        let turn = self.order.least()?;
        Some(turn.part)
    }

    // The communication of the least part that takes part in a reduction, if it waits.
    fn least_entry(&self) -> Option<Entry>
        ensures { IsLeastEntry (stand_at self.now.order.0) result }
    {
        let turn = self.order.least()?;
        self.entry_of(turn)
    }

    // The communication of a turn.
    fn entry_of(&self, turn: LeastTurn) -> Option<Entry>
        ensures { result ≡ entry_of (stand_at self.now.order.0) turn }
    {
        let partner = turn.partner?;
        match self.order.stand(turn.part)? {
            Stand::Alone => None,
            Stand::Sends { chan } => Some(communication(turn.part, partner, chan)),
            Stand::Receives { chan } => Some(communication(partner, turn.part, chan)),
        }
    }

    /// How many parts are there. The time grows with the parts that were made.
    pub(crate) fn left(&self) -> u32
        ensures { result
            ≡ sum_below self.now.counts.parts (λ i. one_if_part (part_in self.now.slots i)) }
    {
        let mut left = 0;
        for n in 0..self.counts.parts {
            left += self.is_there(n);
        }
        left
    }

    // 1 where a part has the number.
    fn is_there(&self, n: u32) -> u32
        ensures { result ≡ one_if_part (part_in self.now.slots n) }
    {
        match self.slots.get(n) {
            Some(_) => 1,
            None => 0,
        }
    }
}

// The communication of a sender and a receiver.
fn communication(part: u32, to: u32, chan: u32) -> Entry
    ensures { result ≡ by part (deeds.Com to chan) }
{
    Entry {
        part,
        deed: Deed::Com { to, chan },
    }
}

// The entry as what comes next.
fn upcoming_with(entry: Option<Entry>) -> Option<Upcoming>
    ensures { result ≡ option_map (λ e. upcoming.Entry e) entry }
{
    let entry = entry?;
    Some(Upcoming::Entry { entry })
}
