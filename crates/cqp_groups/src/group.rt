//! A group of qubits. Contracts see a `Group` as the machine's group: qubits, numerators, the
//! exponent, and the qubits that are due to leave it.

ghost use Rattle.std.specs.Prelude.{◌≡◌, ◌<◌, ◌≤◌, ℕ, List, length, true};
ghost use Rattle.std.specs.Prelude.{IfOk, IfErr, OnOk, OnErr};
ghost use Rattle.cqp_ring.specs.Root.{norm_sum};
ghost use Rattle.cqp_syntax.specs.Gates.{places_of};
ghost use Rattle.cqp_syntax.specs.declared.op.Op.TheVariants.{H};
ghost use Rattle.cqp_vector.specs.Measurement.{is_outcome};
ghost use Rattle.cqp_vector.specs.Odds.{odds_of};
ghost use Rattle.cqp_vector.specs.Places.{ArePlaces};
ghost use Rattle.cqp_vector.specs.Group.{CanJoin, IsGroup};
ghost use Rattle.cqp_pieces.specs.Splitting.{SplitsRightly};
ghost use Rattle.cqp_machine.specs.Factors as words;
ghost use Rattle.cqp_machine.specs.Factors.{factor_of, level_of, new_group, state_of};
ghost use Rattle.cqp_machine.specs.Factors.{with_due};

use crate::outcome::{has_outcome, outcome_in};
use crate::places::{Places, due_of, places_in};
use cqp_ring::Root;
use cqp_syntax::{Names, Op};
use cqp_vector::{Factor, FactorList, NoMemory, Odds};
use std::alloc::Global;
use std::marker::Model;

/// A factor, with the measured qubits that are due to leave it.
#[derive(Debug, Drop)]
pub struct Group {
    factor: Factor,
    due: Names,
}

impl Model for Group {
    ghost use Rattle.cqp_machine.specs.Factors.{Held, with_due};

    ghost Value = { Held };

    ghost view = { λ g. with_due g.due g.factor };
}

/// Two groups that weren't joined.
#[derive(Debug, Drop)]
pub struct PairRefused {
    pub left: Group,
    pub right: Group,
}

impl Group {
    /// Qubit `q` in state 0. An `Err` comes for want of memory alone, here and below.
    pub fn make(alloc: Global, q: u32) -> Result<Group, NoMemory>
        ensures { IfOk result (λ g. g ≡ new_group q) }
    {
        Ok(Group {
            factor: Factor::make(alloc, q)?,
            due: Names::new(alloc),
        })
    }

    /// A factor with the qubits that are due.
    pub fn of(factor: Factor, due: Names) -> Group
        ensures { result ≡ with_due due factor }
    {
        Group { factor, due }
    }

    /// The qubits, in their order.
    pub fn qubits(&self) -> &[u32]
        ensures value { result.now ≡ self.now.qubits }
        ensures kept { IsGroup (factor_of self.now) }
    {
        self.factor.qubits()
    }

    /// The qubits that are due.
    pub fn due(&self) -> &[u32]
        ensures { result.now ≡ self.now.due }
    {
        self.due.as_slice()
    }

    /// The exponent.
    pub fn h(&self) -> u32
        ensures { result ≡ self.now.h }
    {
        self.factor.h()
    }

    /// The level.
    pub fn level(&self) -> u32
        ensures value { result ≡ level_of self.now }
        ensures most { result ≤ 180 }
    {
        self.factor.level()
    }

    /// The sum of the norms of the numerators.
    pub fn norm(&self) -> Root
        ensures { result ≡ norm_sum self.now.nums }
    {
        self.factor.norm()
    }

    /// The factor alone.
    pub fn into_factor(self) -> Factor
        ensures { result ≡ factor_of self }
    {
        let Group { factor, due: _ } = self;
        factor
    }

    /// The places of some qubits in the list.
    pub fn places(&self, alloc: Global, qubits: &[u32]) -> Result<Places, NoMemory>
        ensures { IfOk result (λ v. v.items ≡ words.places_in self.now.qubits qubits.now) }
    {
        places_in(alloc, self.factor.qubits(), qubits)
    }

    /// A gate on qubits of the group.
    pub fn gate(&mut self, alloc: Global, op: Op, qubits: &[u32]) -> Result<(), NoMemory>
        requires places { ArePlaces (length self.old.qubits)
            (words.places_in self.old.qubits qubits.now) }
        requires count { length qubits.now ≡ places_of op }
        requires room { op ≡ H → self.old.h < 90 }
        ensures ok { OnOk result (self.new ≡ words.gated op qubits.now self.old) }
        ensures err { OnErr result (self.new ≡ self.old) }
    {
        let places = self.places(alloc, qubits)?;
        self.gate_at(op, places.as_slice());
        Ok(())
    }

    /// A gate on the qubits at these places. It takes no memory.
    pub fn gate_at(&mut self, op: Op, places: &[u32])
        requires places { ArePlaces (length self.old.qubits) places.now }
        requires count { length places.now ≡ places_of op }
        requires room { op ≡ H → self.old.h < 90 }
        ensures { (qs : List ℕ) → places.now ≡ words.places_in self.old.qubits qs
            → self.new ≡ words.gated op qs self.old }
    {
        self.factor.gate(op, places);
    }

    /// Whether the projection on an outcome of the qubits at these places isn't zero. It takes no
    /// memory.
    pub fn has_outcome(&self, places: &[u32], outcome: u32) -> bool
        requires { ArePlaces (length self.now.qubits) places.now }
        ensures { result ≡ is_outcome places.now (state_of self.now) outcome }
    {
        has_outcome(&self.factor, places, outcome)
    }

    /// The outcomes of some qubits that aren't zero, with the norms of their projections.
    pub fn odds(&self, alloc: Global, qubits: &[u32]) -> Result<Odds, NoMemory>
        requires places { ArePlaces (length self.now.qubits)
            (words.places_in self.now.qubits qubits.now) }
        requires some { 0 < length qubits.now }
        ensures { IfOk result (λ odds. odds
            ≡ odds_of (words.places_in self.now.qubits qubits.now) (state_of self.now)) }
    {
        let places = self.places(alloc, qubits)?;
        self.factor.odds(alloc, places.as_slice())
    }

    /// The projection on an outcome of some qubits, which are then due where the group has several.
    pub fn measured(&mut self, alloc: Global, qubits: &[u32], outcome: u32) -> Result<(), NoMemory>
        requires places { ArePlaces (length self.old.qubits)
            (words.places_in self.old.qubits qubits.now) }
        requires outcome { is_outcome (words.places_in self.old.qubits qubits.now)
            (state_of self.old) outcome ≡ true }
        ensures ok { OnOk result (self.new ≡ words.measured qubits.now outcome self.old) }
        ensures err { OnErr result (self.new ≡ self.old) }
    {
        let places = self.places(alloc, qubits)?;
        let due = Names::from_slice(alloc, qubits)?;
        self.measured_at(due, places.as_slice(), outcome);
        Ok(())
    }

    /// The same at the qubits' places. The qubits that are due keep the memory of `qubits`, and no
    /// other is taken.
    pub fn measured_at(&mut self, qubits: Names, places: &[u32], outcome: u32)
        requires at { places.now ≡ words.places_in self.old.qubits qubits }
        requires places { ArePlaces (length self.old.qubits) places.now }
        requires outcome { is_outcome places.now (state_of self.old) outcome ≡ true }
        ensures { self.new ≡ words.measured qubits outcome self.old }
    {
        self.due = due_of(self.factor.qubits(), qubits);
        self.factor.project(places, outcome);
    }

    /// Both groups as one, with the qubits of `left` first.
    pub fn join(alloc: Global, left: Group, right: Group) -> Result<Group, PairRefused>
        requires { CanJoin (factor_of left) (factor_of right) }
        ensures ok { IfOk result (λ g. g ≡ words.joined left right) }
        ensures left { IfErr result (λ r. r.left ≡ left) }
        ensures right { IfErr result (λ r. r.right ≡ right) }
    {
        let (first, second) = (left.due, right.due);
        match Factor::join(alloc, left.factor, right.factor) {
            Ok(factor) => Ok(Group::of(factor, Names::new(alloc))),
            Err(refused) => Err(PairRefused {
                left: Group::of(refused.left, first),
                right: Group::of(refused.right, second),
            }),
        }
    }

    /// The due qubits as factors of one qubit each, and then the rest where there is one.
    pub fn split(self, alloc: Global) -> Result<FactorList, Group>
        requires { SplitsRightly self.due self }
        ensures ok { IfOk result (λ list. list ≡ words.split_pieces self.due self) }
        ensures err { IfErr result (λ g. g ≡ self) }
    {
        match places_in(alloc, self.factor.qubits(), self.due.as_slice()) {
            Ok(places) => self.split_at(alloc, places),
            Err(_) => Err(self),
        }
    }

    // The same at the due qubits' places.
    fn split_at(self, alloc: Global, places: Places) -> Result<FactorList, Group>
        requires rightly { SplitsRightly self.due self }
        requires places { places.items ≡ words.places_in self.qubits self.due }
        ensures ok { IfOk result (λ list. list ≡ words.split_pieces self.due self) }
        ensures err { IfErr result (λ g. g ≡ self) }
    {
        let outcome = outcome_in(&self.factor, places.as_slice());
        let Group { factor, due } = self;
        match factor.split(alloc, places.as_slice(), outcome) {
            Ok(list) => Ok(list),
            Err(refused) => Err(Group::of(refused.factor, due)),
        }
    }
}
