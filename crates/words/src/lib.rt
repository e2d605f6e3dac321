// A text cut into parts, each handed out as a part of the text with the byte where it starts,
// and integers of 32 signed bits, each read from one spelling only.
#![tactic(auto)]

mod integer;
mod part;
#[cfg(test)]
mod tests;

pub use integer::read_integer;
pub use part::{Part, Parts};
