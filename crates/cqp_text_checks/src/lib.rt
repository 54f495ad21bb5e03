//! Tests of what is made from a text, a module for each crate. They show what no clause says: that
//! calls succeed where memory is ample, and that the tables of the language mean what was meant.
#![tactic(auto)]

#[cfg(test)]
mod expand;
#[cfg(test)]
mod grammar;
#[cfg(test)]
mod parse;
