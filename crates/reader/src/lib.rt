// The lines of the gate's text: read word by word, looked up in the register, and obeyed.
#![tactic(auto)]

pub mod faults;
pub mod grammar;
pub mod lines;
pub mod sentence;
pub mod tokens;

pub use faults::{Malformed, ReadFault, Unknown};
pub use grammar::Line;
pub use sentence::{Command, Phrase, RoleText, Sentence};
