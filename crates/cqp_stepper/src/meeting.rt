//! Communications.

ghost use Rattle.std.specs.Prelude.{◌≡◌, ◌+◌, ◌<◌, ◌≤◌, ◌^◌, length, None, Some, IfOk, OnErr, OnOk};
ghost use Rattle.std.specs.Prelude.{◌↔◌, IsTrue, false, slice_set, true};
ghost use Rattle.cqp_onward.specs.Leads.{LeadsOn};
ghost use Rattle.cqp_parts.specs.declared.part.Part.{Part as Seen};
ghost use Rattle.cqp_standing.specs.Stands.{Stands};
ghost use Rattle.cqp_stepper.specs.Slots.{part_in};
ghost use Rattle.cqp_parts.specs.Parts.{more_than_one, parts_after_input};
ghost use Rattle.cqp_stepper.specs.Kept.{IsAllSeen, IsRunOf};
ghost use Rattle.cqp_stepper.specs.Steps.{CanFinish, GoesOnTo, HasGroupsOf, HasMet, IsMet};
ghost use Rattle.cqp_stepper.specs.Steps.{MayMeet, Sends, StandsMeet};
ghost use Rattle.cqp_cells.specs.Examples.{by};
ghost use Rattle.cqp_trace.specs.declared.deed.Deed.TheVariants as deeds;

use crate::cells::{Cells, Unseen};
use crate::laws::meeting_laws;
use crate::tables::Tables;
use cqp_onward::{Ahead, Parts};
use cqp_order::Stand;
use cqp_parts::Vals;
use cqp_syntax::NoMemory;
use cqp_turns::Turn;
use std::alloc::{AllocError, Global};

impl Cells {
    // Puts parts in the places of a sender and of a receiver, which were taken out.
    fn finish_both(&mut self, from: u32, to: u32, sent: Parts, received: Parts)
        requires first { from < length self.old.slots }
        requires second { to < length self.old.slots }
        requires room { self.old.counts.parts + more_than_one sent + more_than_one received
            ≤ length self.old.slots }
        requires few { length self.old.slots < 2 ^ 32 }
        ensures met { IsMet self.old self.new from to sent received }
        ensures groups { HasGroupsOf self.old self.new }
    {
        let next = self.counts.parts;
        self.unseen = Unseen {
            first: Some(from),
            second: Some(to),
            from: next,
        };
        self.counts.parts += self.slots.place(from, next, sent);
        self.counts.parts += self.slots.place(to, self.counts.parts, received);
    }

    // The values that a part is ready to send, and where it goes on then. It stays as it is.
    fn sent(
        &self,
        tables: &Tables,
        alloc: Global,
        from: u32,
        to: u32,
        chan: u32,
    ) -> Result<(Vals, Ahead), NoMemory>
        requires run { IsRunOf tables.now self.now }
        requires may { MayMeet tables.now self.now from to chan }
        ensures values { IfOk result (λ r. Sends tables.now self.now from chan r.0) }
        ensures leads { IfOk result (λ r. (part : Seen) → part_in self.now.slots from ≡ Some part
            → LeadsOn tables.now part r.1) }
    {
        meeting_laws();
        tables.checked();
        let Some(sender) = self.slots.get(from) else {
            return Err(AllocError);
        };
        let ahead = tables.look_ahead(alloc, sender)?;
        match tables.turn(alloc, sender)? {
            Turn::Send { vals, .. } => Ok((vals, ahead)),
            _ => Err(AllocError),
        }
    }

    // Takes a receiver out, and gives the parts in its place.
    fn receive(
        &mut self,
        tables: &Tables,
        alloc: Global,
        n: u32,
        vals: &Vals,
    ) -> Result<Parts, NoMemory>
        requires place { n < length self.old.slots }
        requires stands { (part : Seen) → part_in self.old.slots n ≡ Some part
            → Stands tables.now part }
        ensures ok { IfOk result (λ parts. (part : Seen) → part_in self.old.slots n ≡ Some part
            → parts ≡ parts_after_input tables.now part vals.now) }
        ensures left { OnOk result
            (self.new ≡ record self.old { slots = slice_set self.old.slots n None }) }
        ensures err { OnErr result (self.new ≡ self.old) }
    {
        let Some(part) = self.slots.take(n) else {
            return Err(AllocError);
        };
        match tables.receive(alloc, part, vals) {
            Ok(parts) => Ok(parts),
            Err(refused) => {
                self.slots.put(n, Some(refused.part));
                Err(AllocError)
            }
        }
    }

    /// Makes the communication of a part that sends and one that receives. A refused one leaves all
    /// as it was.
    fn make_meeting(
        &mut self,
        tables: &Tables,
        alloc: Global,
        from: u32,
        to: u32,
        chan: u32,
    ) -> Result<(), NoMemory>
        requires run { IsRunOf tables.now self.old }
        requires seen { IsAllSeen self.old }
        requires may { MayMeet tables.now self.old from to chan }
        ensures ok { OnOk result
            (GoesOnTo tables.now self.old self.new (by from (deeds.Com to chan))) }
        ensures err { OnErr result (self.new ≡ self.old) }
    {
        meeting_laws();
        tables.checked();
        let (vals, ahead) = self.sent(tables, alloc, from, to, chan)?;
        let received = self.receive(tables, alloc, to, &vals)?;
        self.finish_meeting(tables, from, to, ahead, received);
        Ok(())
    }

    // The sender goes on where it looked ahead, beside the parts of the receiver.
    fn finish_meeting(&mut self, tables: &Tables, from: u32, to: u32, ahead: Ahead, received: Parts)
        requires { CanFinish tables.now self.old from to ahead received }
        ensures met { HasMet tables.now self.old self.new from to received }
        ensures groups { HasGroupsOf self.old self.new }
    {
        if let Some(sender) = self.slots.take(from) {
            let sent = tables.go_ahead(ahead, sender);
            self.finish_both(from, to, sent, received);
        }
    }

    /// Makes the communication where the one part is ready to send on the channel, and the other to
    /// receive there, and answers whether it is so. Else nothing changes.
    pub(crate) fn communicate(
        &mut self,
        tables: &Tables,
        alloc: Global,
        from: u32,
        to: u32,
        chan: u32,
    ) -> Result<bool, NoMemory>
        requires run { IsRunOf tables.now self.old }
        requires seen { IsAllSeen self.old }
        ensures made { IfOk result (λ made. made ≡ true
            → GoesOnTo tables.now self.old self.new (by from (deeds.Com to chan))) }
        ensures not { IfOk result (λ made. made ≡ false
            → (StandsMeet self.old from to chan → ⊥) × (self.new ≡ self.old)) }
        ensures err { OnErr result (self.new ≡ self.old) }
    {
        meeting_laws();
        tables.checked();
        if !self.is_meeting(from, to, chan) {
            return Ok(false);
        }
        self.make_meeting(tables, alloc, from, to, chan)?;
        Ok(true)
    }

    // Whether the one part is ready to send on the channel, and the other to receive there.
    fn is_meeting(&self, from: u32, to: u32, chan: u32) -> bool
        ensures { IsTrue result ↔ StandsMeet self.now from to chan }
    {
        self.order.stand(from) == Some(Stand::Sends { chan })
            && self.order.stand(to) == Some(Stand::Receives { chan })
    }
}
