//! Tests of what checks and runs a process, a module for each crate. They show what no clause says:
//! that calls succeed where memory is ample, and that definitions mean what was meant.
#![tactic(auto)]

#[cfg(test)]
mod ring;
#[cfg(test)]
mod run;
#[cfg(test)]
mod types;
#[cfg(test)]
mod vector;
