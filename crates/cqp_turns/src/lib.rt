//! What a part does next, as far as the part alone tells it.
#![tactic(auto)]

mod pick;
mod standing;
mod step;
mod turn;
mod values;

pub use standing::{applies_h, stand_of};
pub use step::turn_of;
pub use turn::Turn;
