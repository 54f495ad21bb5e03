//! Along each run of the machine all parts stand.
#![tactic(auto)]

mod laws;

pub use laws::stands_laws;
