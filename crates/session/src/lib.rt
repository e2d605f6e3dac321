// One run of the gate: an input answered line by line.
#![tactic(auto)]

pub mod input;
pub mod lines;
pub mod listing;
pub mod printing;
pub mod running;
pub mod state;

pub use input::read_input;
pub use listing::roster;
pub use running::{MOST_BYTES, transcript};
pub use state::Session;
