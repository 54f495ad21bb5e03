//! The numerators of a whole state as products of its groups' numerators. Lemmas alone.
#![tactic(auto)]
