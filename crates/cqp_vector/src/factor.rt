//! Factors. Contracts see a `Factor` as its group: qubits, numerators and the exponent.

ghost use Rattle.std.specs.Prelude.{◌≡◌, ◌^◌, ◌<◌, ◌≤◌, length, true};
ghost use Rattle.std.specs.Prelude.{IfErr, IfOk};
ghost use Rattle.cqp_ring.specs.Root.{norm_sum};
ghost use Rattle.cqp_syntax.specs.Gates.{places_of};
ghost use Rattle.cqp_syntax.specs.declared.op.Op.TheVariants.{H};
ghost use Rattle.cqp_vector.specs.State.{amp_at};
ghost use Rattle.cqp_vector.specs.Measurement.{is_outcome};
ghost use Rattle.cqp_vector.specs.Odds.{odds_of};
ghost use Rattle.cqp_vector.specs.Pieces.{IsProjectedOn, pieces_of};
ghost use Rattle.cqp_vector.specs.Places.{ArePlaces};

mod measured_qubits;

use crate::factor_list::FactorList;
use crate::odds::Odds;
use crate::refused::{JoinRefused, SplitRefused};
use crate::totals::norm_of_all;
use crate::{gates, least, outcomes, pieces, products, tally};
use cqp_ring::{Amp, Root};
use cqp_syntax::{Names, Op};
use measured_qubits::singles;
use std::alloc::{AllocError, Global};
use std::marker::Model;

/// The state of 1 to 12 qubits of its own: numerators over root 2 to the `h`, always with the least
/// exponent. The first qubit is the most significant bit of a place.
#[derive(Debug, Drop)]
pub struct Factor {
    qubits: Names,
    nums: Vec<Amp>,
    h: u32,
}

impl Model for Factor {
    ghost use Rattle.cqp_vector.specs.Group.{Group, IsGroup};

    ghost Value = { Group };

    ghost view = { λ f. record { qubits = f.qubits; nums = f.nums.items; h = f.h } };

    ghost invariant = { λ f. IsGroup
        (record { qubits = f.qubits; nums = f.nums.items; h = f.h }) };
}

impl Factor {
    ghost use Rattle.cqp_vector.specs.Group.{gated, level_of, made, made_least};
    ghost use Rattle.cqp_vector.specs.Group.{CanJoin, IsGroup, joined, projection, state_of};

    /// Qubit `q` in state 0.
    pub fn make(alloc: Global, q: u32) -> Result<Factor, AllocError>
        ensures { IfOk result (λ f. f ≡ made q) }
    {
        Ok(Factor {
            qubits: pieces::alone(alloc, q)?,
            nums: pieces::at_bit(alloc, false, pieces::ONE)?,
            h: 0,
        })
    }

    /// The qubits, in their order.
    pub fn qubits(&self) -> &[u32]
        ensures value { result.now ≡ self.now.qubits }
        ensures kept { IsGroup self.now }
    {
        self.qubits.as_slice()
    }

    /// The numerator at a place.
    pub fn num(&self, place: usize) -> Amp
        requires { place < length self.now.nums }
        ensures { result ≡ amp_at self.now.nums place }
    {
        self.nums[place]
    }

    /// The exponent.
    pub fn h(&self) -> u32
        ensures { result ≡ self.now.h }
    {
        self.h
    }

    /// The sum of the norms of the numerators.
    pub fn norm(&self) -> Root
        ensures { result ≡ norm_sum self.now.nums }
    {
        norm_of_all(&self.nums)
    }

    /// Twice the exponent, less one where every numerator has an even sum of its parts.
    pub fn level(&self) -> u32
        ensures value { result ≡ level_of self.now }
        ensures most { result ≤ 180 }
    {
        if least::all_even(&self.nums) {
            2 * self.h - 1
        } else {
            2 * self.h
        }
    }

    /// A gate on the qubits at these places, after which the factor is made least.
    pub fn gate(&mut self, op: Op, places: &[u32])
        requires places { ArePlaces (length self.old.qubits) places.now }
        requires count { length places.now ≡ places_of op }
        requires room { op ≡ H → self.old.h < 90 }
        ensures { self.new ≡ made_least (gated op places.now self.old) }
    {
        let qubits = self.qubits.as_slice().len() as u32;
        self.h = gates::change(&mut self.nums, qubits, op, places, self.h);
    }

    /// Puts 0 at every place that has another outcome, after which the factor is made least.
    pub fn project(&mut self, places: &[u32], outcome: u32)
        requires places { ArePlaces (length self.old.qubits) places.now }
        requires outcome { is_outcome places.now (state_of self.old) outcome ≡ true }
        ensures { self.new ≡ made_least (projection places.now outcome self.old) }
    {
        let qubits = self.qubits.as_slice().len() as u32;
        self.h = outcomes::project(&mut self.nums, qubits, places, outcome, self.h);
    }

    /// The outcomes whose projection isn't zero, rising, each with the norm of its projection.
    pub fn odds(&self, alloc: Global, places: &[u32]) -> Result<Odds, AllocError>
        requires places { ArePlaces (length self.now.qubits) places.now }
        requires some { 0 < length places.now }
        ensures { IfOk result (λ odds. odds ≡ odds_of places.now (state_of self.now)) }
    {
        let qubits = self.qubits.as_slice().len() as u32;
        tally::odds(alloc, &self.nums, qubits, places)
    }

    /// Both factors as one, made least, with the qubits of `left` first.
    pub fn join(alloc: Global, left: Factor, right: Factor) -> Result<Factor, JoinRefused>
        requires { CanJoin left right }
        ensures ok { IfOk result (λ f. f ≡ made_least (joined left right)) }
        ensures left { IfErr result (λ r. r.left ≡ left) }
        ensures right { IfErr result (λ r. r.right ≡ right) }
    {
        match Factor::product(alloc, &left, &right) {
            Ok(factor) => Ok(factor),
            Err(_) => Err(JoinRefused { left, right }),
        }
    }

    // The product of two factors, made least.
    fn product(alloc: Global, left: &Factor, right: &Factor) -> Result<Factor, AllocError>
        requires { CanJoin left.now right.now }
        ensures { IfOk result (λ f. f ≡ made_least (joined left.now right.now)) }
    {
        let mut nums = products::product(alloc, &left.nums, &right.nums)?;
        let qubits = products::both(alloc, left.qubits.as_slice(), right.qubits.as_slice())?;
        let h = least::make_least(&mut nums, left.h + right.h);
        Ok(Factor { qubits, nums, h })
    }

    /// The measured qubits as factors of one qubit each, in the order of `places`, and then the
    /// rest where there is one. The rest keeps the scalar and `h`; without one the first does.
    pub fn split(
        self,
        alloc: Global,
        places: &[u32],
        outcome: u32,
    ) -> Result<FactorList, SplitRefused>
        requires places { ArePlaces (length self.qubits) places.now }
        requires some { 0 < length places.now }
        requires projected { IsProjectedOn places.now outcome self }
        ensures ok { IfOk result (λ list. list ≡ pieces_of places.now outcome self) }
        ensures err { IfErr result (λ r. r.factor ≡ self) }
    {
        match self.pieces(alloc, places, outcome) {
            Ok(list) => Ok(FactorList::from_vec(list)),
            Err(_) => Err(SplitRefused { factor: self }),
        }
    }

    // The pieces, measured qubits first.
    fn pieces(&self, alloc: Global, places: &[u32], outcome: u32) -> Result<Vec<Factor>, AllocError>
        requires places { ArePlaces (length self.now.qubits) places.now }
        requires some { 0 < length places.now }
        requires projected { IsProjectedOn places.now outcome self.now }
        ensures { IfOk result (λ v. v.items ≡ pieces_of places.now outcome self.now) }
    {
        let qubits = self.qubits.as_slice();
        let nums = pieces::agreeing(alloc, &self.nums, qubits.len() as u32, places, outcome)?;
        if places.len() == qubits.len() {
            return singles(alloc, qubits, places, outcome, nums[0], self.h);
        }
        let mut list = singles(alloc, qubits, places, outcome, pieces::ONE, 0)?;
        let qubits = pieces::others(alloc, qubits, places)?;
        let h = self.h;
        list.push(Factor { qubits, nums, h })?;
        Ok(list)
    }
}
