//! What is left of a run at its end: its entries, and the factors of the state to which they lead.

ghost use Rattle.std.specs.Prelude.{◌≡◌, IfOk};
ghost use Rattle.cqp_stepper.specs.Factors.{AreFactorsAfter};
ghost use Rattle.cqp_syntax.specs.Listing.{root};

use crate::laws::{reading_laws, told_factors};
use crate::stepper::Stepper;
use cqp_lists::List;
use cqp_syntax::NoMemory;
use cqp_trace::Entries;
use cqp_vector::FactorList;
use std::alloc::Global;

impl<'p> Stepper<'p> {
    /// The entries, and the factors of the state, in the order of their groups' numbers. An `Err`
    /// comes for want of memory alone; then they are gone.
    pub fn into_parts(self, alloc: Global) -> Result<(Entries, FactorList), NoMemory>
        ensures entries { IfOk result (λ parts. parts.0 ≡ self.entry.entries) }
        ensures factors { IfOk result (λ parts. AreFactorsAfter (root self.entry.process)
            self.entry.entries parts.1) }
    {
        reading_laws();
        told_factors();
        let Stepper { cells, entries, .. } = self;
        let factors = cells.groups.into_factors(alloc)?;
        Ok((List::from_vec(entries), factors))
    }
}
