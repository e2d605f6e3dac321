// The checking pass: which credentials can be settled, and the numbers of their heads.
#![tactic(auto)]

pub mod admission;
pub mod admitted;
pub mod index;

pub use admission::admit;
pub use admitted::Admitted;
pub use index::{HEAD_SLOTS, HeadIndex, NO_HEAD, head_of};
