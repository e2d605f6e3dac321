// A decision on the scale that a word names, over the book and the slip.
#![tactic(auto)]

pub mod asking;
pub mod weights;

pub use asking::{Asked, decide_asked};
pub use weights::Weight;
