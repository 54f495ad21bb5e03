//! Each run of the machine stands for one path, with the entries that it shows.
#![tactic(auto)]

mod laws;

pub use laws::{group_laws, level_laws, path_laws, split_laws};
