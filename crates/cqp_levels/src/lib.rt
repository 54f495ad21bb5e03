//! The sum of the groups' levels is the level of the whole state. Lemmas alone.
#![tactic(auto)]
