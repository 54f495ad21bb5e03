//! Tests of the libraries on which texts and runs stand, a module for each. They show what no
//! clause says: that calls succeed where memory is ample, and that definitions mean what was meant.
#![tactic(auto)]

#[cfg(test)]
mod choose;
#[cfg(test)]
mod lists;
#[cfg(test)]
mod order;
#[cfg(test)]
mod outside;
#[cfg(test)]
mod syntax;
#[cfg(test)]
mod trace;
#[cfg(test)]
mod words;
