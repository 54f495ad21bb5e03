//! Laws of what a run tells, for proofs in the crates above. The calls do nothing, and their
//! contracts are the laws.

ghost use Rattle.cqp_telling.specs.Laws.{GroupLimitLaw, LeftLaw, LimitLaw, OddsLaw};
ghost use Rattle.cqp_telling.specs.Laws.{OutcomeLaw, WeightLaw};

use cqp_factored::{group_laws, level_laws};
use cqp_paths::{measurement_laws, size_laws};
use cqp_vector::least_laws;

/// As many parts are left as the cells have, and the exponent is at its limit exactly where the
/// level is. The groups' weight, in whatever form, is the probability of the entries.
pub fn run_laws()
    ensures left { LeftLaw }
    ensures limit { LimitLaw }
    ensures group_limit { GroupLimitLaw }
    ensures weight { WeightLaw }
{
    level_laws();
}

/// What a group as a factor tells of a measurement of its qubits are lawful odds of the measurement
/// in the whole state: the same outcomes, with norms in the same proportion. So a number is an
/// outcome of the group exactly where it is one of the whole state.
pub fn odds_laws()
    ensures odds { OddsLaw }
    ensures outcome { OutcomeLaw }
{
    group_laws();
    measurement_laws();
    size_laws();
    least_laws();
}
