//! Tests of the commands: whole calls on words and texts. They show what no clause says: that calls
//! succeed where memory is ample, and that what is written was meant.
#![tactic(auto)]

#[cfg(test)]
mod tool;
