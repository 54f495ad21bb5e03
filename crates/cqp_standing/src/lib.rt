//! Parts that stand at a prefix, with all their names bound and their redexes told by number.
#![tactic(auto)]

mod laws;

pub use laws::{standing_laws, suit_laws};
