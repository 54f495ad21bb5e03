//! Tests of the loops over an engine. They show what no clause says: that calls succeed where memory
//! is ample, and that definitions mean what was meant.
#![tactic(auto)]

#[cfg(test)]
mod engine;
