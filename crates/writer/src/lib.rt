// One statement, spelled as an add line spells it and put into a buffer that is lent. No call wants
// memory: the text is made up in a draft of fixed size and copied once.
#![tactic(auto)]

mod call;
mod names;
mod refusal;
mod spelling;
#[cfg(test)]
mod tests;

pub use call::{statement_text, write};
pub use refusal::WriteRefusal;
pub use spelling::CAPACITY;
