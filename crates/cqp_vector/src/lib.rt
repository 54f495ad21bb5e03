//! States of qubits as exact numerators: groups of qubits as factors, with gates, joins,
//! measurements and splits; and one vector over all qubits.
#![tactic(auto)]

mod amps;
mod changes;
mod factor;
mod factor_list;
mod gates;
mod laws;
mod least;
mod odds;
mod outcomes;
mod pieces;
mod places;
mod products;
mod refused;
mod tally;
mod totals;
mod vector;

pub use amps::Amps;
pub use cqp_lists::NoMemory;
pub use factor::Factor;
pub use factor_list::FactorList;
pub use laws::{
    group_laws, kept_laws, least_laws, level_laws, outcome_laws, piece_laws, state_laws,
};
pub use odds::{Odd, Odds};
pub use refused::{JoinRefused, SplitRefused};
pub use vector::Vector;
