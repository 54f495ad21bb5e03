//! Laws of paths that speak of types, of picks and of the plain order. Each call does nothing, and
//! its contract is the law.
#![tactic(auto)]

mod examples;
mod laws;
mod limits;

pub use laws::{
    active_laws, measurement_laws, order_laws, progress_laws, safe_laws, size_laws, written_laws,
};
