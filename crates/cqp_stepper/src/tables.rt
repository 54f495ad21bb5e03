//! A checked process with the tables that a run of it asks. Contracts see the process.

ghost use Rattle.std.specs.Prelude.{◌≡◌, ◌↔◌, ◌<◌, ◌^◌, ℕ, IfErr, IfOk, IsSome, IsTrue, Some};
ghost use Rattle.std.specs.Prelude.{[], ◌∷◌, false, length, true, OnErr};
ghost use Rattle.cqp_syntax.specs.Listing.{IsProc};
ghost use Rattle.cqp_trace.specs.declared.deed.Deed.TheVariants as deed;
ghost use Rattle.cqp_cells.specs.Lawful.{IsBeforeH};
ghost use Rattle.cqp_meeting.specs.Tables.{stand_in};
ghost use Rattle.cqp_onward.specs.Leads.{LeadsOn};
ghost use Rattle.cqp_parts.specs.Parts.{opening_parts, parts_after, parts_after_input};
ghost use Rattle.cqp_parts.specs.Parts.{process_of_part};
ghost use Rattle.cqp_standing.specs.Stands.{Stands};
ghost use Rattle.cqp_turns.specs.Turns.{turn_in};
ghost use Rattle.cqp_types.specs.Checked.{IsChecked};

use cqp_fitting::communication_laws;
use cqp_onward::{Ahead, Parts, Refused, go_on, go_on_alone, look_ahead, opening, receive};
use cqp_order::Stand;
use cqp_parts::{Part, Vals};
use cqp_redexes::Redexes;
use cqp_syntax::NoMemory;
use cqp_trace::Deed;
use cqp_turns::{Turn, applies_h, stand_of, turn_of};
use cqp_types::Typed;
use cqp_uses::Uses;
use std::alloc::Global;
use std::marker::Model;

/// A checked process, and where its names are used and its redexes stand.
#[derive(Drop)]
pub(crate) struct Tables<'p> {
    typed: &'p Typed,
    uses: Uses,
    redexes: Redexes,
}

impl<'p> Model for Tables<'p> {
    ghost use Rattle.cqp_syntax.specs.Listing.{Listing};
    ghost use Rattle.cqp_uses.specs.Users.{IsUses};
    ghost use Rattle.cqp_redexes.specs.Evaluation.{AreRedexes};

    ghost Value = { Listing };

    ghost view = { λ t. t.typed.now };

    ghost invariant = { λ t. IsUses t.typed.now t.uses × AreRedexes t.typed.now t.redexes };
}

impl<'p> Tables<'p> {
    /// The tables of a process, in time that grows with its nodes.
    pub(crate) fn of(alloc: Global, typed: &'p Typed) -> Result<Tables<'p>, NoMemory>
        ensures { IfOk result (λ tables. tables ≡ typed.now) }
    {
        let uses = Uses::of(alloc, typed.proc())?;
        let redexes = Redexes::of(alloc, typed.proc())?;
        Ok(Tables {
            typed,
            uses,
            redexes,
        })
    }

    /// The process was checked.
    pub(crate) fn checked(&self)
        ensures checked { IsChecked self.now }
        ensures process { IsProc self.now }
        ensures few { length self.now.nodes < 2 ^ 32 }
    {
        self.typed.proc().len();
    }

    /// How many nodes the process has.
    pub(crate) fn nodes(&self) -> usize
        ensures { result ≡ length self.now.nodes }
    {
        self.typed.proc().len() as usize
    }

    /// The parts of the opening.
    pub(crate) fn opening(&self, alloc: Global) -> Result<Parts, NoMemory>
        ensures { IfOk result (λ parts. parts ≡ opening_parts self.now) }
    {
        opening(self.typed.proc(), &self.uses, alloc)
    }

    /// What a part does next.
    pub(crate) fn turn(&self, alloc: Global, part: &Part) -> Result<Turn, NoMemory>
        requires stands { Stands self.now part.now }
        requires takes { IsSome (turn_in (process_of_part self.now part.now)) }
        ensures { IfOk result (λ turn. turn_in (process_of_part self.now part.now) ≡ Some turn) }
    {
        turn_of(self.typed.proc(), &self.redexes, alloc, part)
    }

    /// How a part stands.
    pub(crate) fn stand(&self, part: &Part) -> Stand
        requires stands { Stands self.now part.now }
        requires takes { IsSome (turn_in (process_of_part self.now part.now)) }
        ensures { result ≡ stand_in (process_of_part self.now part.now) }
    {
        communication_laws();
        stand_of(self.typed.proc(), &self.redexes, part)
    }

    /// Whether a part's next redex applies H.
    pub(crate) fn applies_h(&self, part: &Part) -> bool
        requires { Stands self.now part.now }
        ensures { IsTrue result ↔ IsBeforeH (Some (process_of_part self.now part.now)) }
    {
        applies_h(self.typed.proc(), &self.redexes, part)
    }

    /// Where a part goes on that has sent, which leaves the part as it is.
    pub(crate) fn look_ahead(&self, alloc: Global, part: &Part) -> Result<Ahead, NoMemory>
        requires { Stands self.now part.now }
        ensures { IfOk result (λ ahead. LeadsOn self.now part.now ahead) }
    {
        look_ahead(self.typed.proc(), &self.uses, alloc, part)
    }

    /// A part that has sent goes on there.
    pub(crate) fn go_ahead(&self, ahead: Ahead, part: Part) -> Parts
        requires stands { Stands self.now part }
        requires leads { LeadsOn self.now part ahead }
        ensures { (to chan : ℕ) → result ≡ parts_after self.now part (deed.Com to chan) }
    {
        ahead.go(self.typed.proc(), &self.uses, part)
    }

    /// The parts in the place of one after a deed of its own.
    pub(crate) fn go_on(&self, alloc: Global, part: Part, deed: &Deed) -> Result<Parts, Refused>
        requires { Stands self.now part }
        ensures ok { IfOk result (λ parts. parts ≡ parts_after self.now part deed.now) }
        ensures err { IfErr result (λ e. e.part ≡ part) }
    {
        go_on(self.typed.proc(), &self.uses, alloc, part, deed)
    }

    /// Where one part alone comes behind a deed of its own, the part goes on there, in its place,
    /// and the answer is `true`. Else nothing changes, and it is `false`.
    pub(crate) fn go_on_alone(
        &self,
        alloc: Global,
        part: &mut Part,
        deed: &Deed,
    ) -> Result<bool, NoMemory>
        requires { Stands self.now part.old }
        ensures went { IfOk result (λ went. went ≡ true
            → parts_after self.now part.old deed.now ≡ part.new ∷ []) }
        ensures stays { IfOk result (λ went. went ≡ false → part.new ≡ part.old) }
        ensures err { OnErr result (part.new ≡ part.old) }
    {
        go_on_alone(self.typed.proc(), &self.uses, alloc, part, deed)
    }

    /// The parts in the place of a receiver.
    pub(crate) fn receive(&self, alloc: Global, part: Part, vals: &Vals) -> Result<Parts, Refused>
        requires { Stands self.now part }
        ensures ok { IfOk result (λ parts. parts ≡ parts_after_input self.now part vals.now) }
        ensures err { IfErr result (λ e. e.part ≡ part) }
    {
        receive(self.typed.proc(), &self.uses, alloc, part, vals)
    }
}
