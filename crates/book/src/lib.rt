// The state of a gate: the register of names and the book of credentials in force.
#![tactic(auto)]

pub mod refusal;
pub mod store;

pub use refusal::{Enrolled, Kind, Refusal};
pub use store::names::{is_entity, is_role_name};
pub use store::number::NameNumber;
pub use store::{Book, Register};
