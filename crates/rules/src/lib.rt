// The rules: what credentials give, round by round, and what is true of every table they settle.
#![tactic(auto)]

pub mod cells;
pub mod memberships;
#[cfg(test)]
mod tests;
pub mod theorems;

pub use memberships::{Membership, Reason, Step};
