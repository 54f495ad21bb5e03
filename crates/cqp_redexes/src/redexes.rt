//! The redexes of each prefix in evaluation order, and how many redexes each expression has.

ghost use Rattle.std.specs.Prelude.{◌≡◌, ◌+◌, ◌<◌, ◌≤◌, length, slice_get, slice_index, IfOk};
ghost use Rattle.std.specs.List.{AllByRecursion};
ghost use Rattle.cqp_syntax.specs.Listing.{Listing, expr_at};
ghost use Rattle.cqp_syntax.specs.Measures.{expr_steps};
ghost use Rattle.cqp_redexes.specs.Evaluation.{RedexTables, AreRedexes, redexes_at};

use crate::trail::{counts_of, push_redexes};
use cqp_syntax::{NoMemory, Proc};
use std::alloc::Global;
use std::marker::Model;

/// The redexes of each prefix in evaluation order, and how many redexes each expression has.
#[derive(Drop)]
pub struct Redexes {
    counts: Vec<u32>,
    starts: Vec<usize>,
    redexes: Vec<u32>,
}

impl Model for Redexes {
    ghost use Rattle.cqp_redexes.specs.Evaluation.{RedexTables};

    ghost Value = { RedexTables };

    ghost view = { λ s. record {
      counts = s.counts.items;
      starts = s.starts.items;
      redexes = s.redexes.items;
    } };
}

impl Redexes {
    /// The redexes of a process, in time that grows as the process does.
    pub fn of(alloc: Global, proc: &Proc) -> Result<Redexes, NoMemory>
        ensures { IfOk result (λ redexes. AreRedexes proc.now redexes) }
    {
        let counts = counts_of(alloc, proc)?;
        let mut starts = Vec::new(alloc);
        let mut redexes = Vec::new(alloc);
        let mut stack = Vec::new(alloc);
        for n in 0..proc.len() {
            starts.push(redexes.as_slice().len())?;
            push_redexes(proc, &mut stack, n, &mut redexes)?;
        }
        starts.push(redexes.as_slice().len())?;
        Ok(Redexes {
            counts,
            starts,
            redexes,
        })
    }

    /// The k-th redex of the prefix at n.
    pub fn redex(&self, n: u32, k: usize) -> Option<u32>
        requires from { n + 1 < length self.now.starts }
        requires all { AllByRecursion (λ at. at ≤ length self.now.redexes) self.now.starts }
        ensures { (l : Listing) → AreRedexes l self.now → n < length l.nodes
            → result ≡ slice_get (redexes_at l n) k }
    {
        let from = self.starts[n as usize];
        let end = self.starts[n as usize + 1];
        if from <= end && k < end - from {
            Some(self.redexes[from + k])
        } else {
            None
        }
    }

    /// How many redexes the expression at a number has.
    pub fn count(&self, n: u32) -> u32
        requires { n < length self.now.counts }
        ensures { (l : Listing) → AreRedexes l self.now → n < length l.nodes
            → result ≡ expr_steps (expr_at l n) }
    {
        self.counts[n as usize]
    }
}
