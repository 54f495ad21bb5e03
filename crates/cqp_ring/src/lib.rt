//! Exact numbers: numerators of amplitudes, norms, and weights of runs.
#![tactic(auto)]

mod amp;
mod halves;
mod laws;
mod products;
mod root;
mod sign;
mod text;
mod weight;

pub use amp::Amp;
pub use laws::{
    list_laws, norm_laws, order_laws, parity_laws, ring_laws, root2_laws, sign_laws, sum_laws,
    weight_laws,
};
pub use root::Root;
pub use sign::Sign;
pub use text::weight_text;
pub use weight::Weight;
