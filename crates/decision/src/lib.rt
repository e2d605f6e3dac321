// Decide: whether a membership is settled with at least the weight that is asked for.
#![tactic(auto)]

pub mod admission;
pub mod deciding;
pub mod request;
mod ruling;
pub mod verdict;

pub use deciding::{decide, decide_with_book};
pub use request::Request;
pub use verdict::{DecideRefusal, Verdict, Work};
