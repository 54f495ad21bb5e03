//! Tests of the steps of a part: what it does next, where its names and redexes stand, and where it
//! goes on. They show what no clause says: that calls succeed where memory is ample, and that
//! definitions mean what was meant.
#![tactic(auto)]

#[cfg(test)]
mod nodes;
#[cfg(test)]
mod processes;
#[cfg(test)]
mod steps;
#[cfg(test)]
mod tables;
#[cfg(test)]
mod told;
#[cfg(test)]
mod turns;
#[cfg(test)]
mod walks;
#[cfg(test)]
mod words;
