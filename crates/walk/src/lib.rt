// The walk from a goal along reasons: the cells that they lead to, premises first, as the steps of a derivation.
#![tactic(auto)]

pub mod grant;
mod number;
mod order;
pub mod reasons;

pub use grant::write_grant;
pub use reasons::{CellStep, Reasons};
