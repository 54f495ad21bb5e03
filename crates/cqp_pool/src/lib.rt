//! A pool of lanes over a shared queue, which steal from one another's deques.
#![tactic(auto)]

mod door;
mod gather;
mod gathered;
mod kept;
mod lane;
mod lanes;
mod numbered;
mod own;
mod pool;
mod reach;
mod start;
mod tally;

pub use gathered::Gathered;
pub use lane::{Lane, PushRefused};
pub use lanes::Lanes;
pub use numbered::Numbered;
pub use pool::{NoMemory, Pool};
