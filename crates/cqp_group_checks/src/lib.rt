//! Tests of the groups of a run in one place. They show what no clause says: that calls succeed
//! where memory is ample, and that definitions mean what was meant.
#![tactic(auto)]

#[cfg(test)]
mod pairs;
#[cfg(test)]
mod prepared;
#[cfg(test)]
mod told;
