//! Parts of a run: a part as code holds it, and the laws that it stands for what its process
//! becomes.
#![tactic(auto)]

mod bind;
mod laws;
mod part;

pub use bind::{Bind, Env};
pub use laws::deed_laws;
pub use part::{Part, Vals};
