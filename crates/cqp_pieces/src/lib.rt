//! The machine's split of a group is that of the group as a factor. Lemmas alone.
#![tactic(auto)]
