//! Choosers: which outcome of a measurement is taken, by its turn and by the odds of the outcomes.
#![tactic(auto)]

mod born;
mod kept;
mod laws;
mod script;
mod seed;

pub use born::{born_index, born_pick};
pub use kept::Kept;
pub use laws::{born_laws, pick_laws};
pub use script::script_pick;
pub use seed::{seed_pick, turn_word};
