//! Why an object gets no plan.
#![tactic(auto)]

mod error;

pub use error::PrepareError;
