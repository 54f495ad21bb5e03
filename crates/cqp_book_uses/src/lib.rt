//! Callers of `cqp_book`: counters that several threads add to, over one book under a lock.
#![tactic(auto)]

mod apart;
mod desk;
mod lost;
mod machine;
mod slot;
mod turns;

pub use apart::take_both;
pub use desk::{Desk, add_twice, bump};
pub use lost::lose_first;
pub use machine::{Counters, Move};
pub use slot::{RunName, Slot};
pub use turns::{give_again, keep_and_refuse};

#[cfg(test)]
mod tests;
