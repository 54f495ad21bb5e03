//! The weight of a run has a text.

ghost use Rattle.cqp_stepper.specs.Weighed.{HasWritableWeight};
ghost use Rattle.cqp_syntax.specs.Listing.{root};

use crate::laws::{reading_laws, told_factors};
use crate::stepper::Stepper;
use cqp_cells::weight_laws;

impl<'p> Stepper<'p> {
    /// The probability of the entries is at most 1, under both signs of root 2, so in least form it
    /// has a text. It does nothing.
    pub fn weighed(&self)
        ensures { HasWritableWeight (root self.now.process) self.now.entries }
    {
        reading_laws();
        told_factors();
        weight_laws();
        self.tables.checked();
    }
}
