//! Where a part goes on: from the opening, after a deed, and after values were received.
#![tactic(auto)]

mod ahead;
mod alone;
mod begin;
mod binding;
mod effect;
mod forgetting;
mod going;
mod keeping;
mod moved;
mod parts;
mod sharing;
mod spread;

pub use ahead::Ahead;
pub use alone::go_on_alone;
pub use going::{go_on, look_ahead, opening, receive};
pub use parts::{Parts, Refused};
