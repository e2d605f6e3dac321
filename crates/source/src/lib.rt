// Sources: what a decision reads. The book, the slip that a client presents, and any pile of them.
#![tactic(auto)]

pub mod credentials;
pub mod joins;
pub mod layers;
pub mod slips;
pub mod sources;
#[cfg(test)]
mod tests;

pub use credentials::Credentials;
pub use joins::{Empty, Join};
pub use slips::{Slip, SlipRefusal};
pub use sources::{Origin, Shown, Source};
