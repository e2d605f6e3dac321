// Settling: rounds over what a source shows, until one changes nothing.
#![tactic(auto)]

mod changes;
pub mod offers;
mod round;
mod rounds;
pub mod settling;

pub use offers::weight_of;
pub use settling::settle;
