// Whole runs of the gate as tests, each case an input and the text that it prints; and decisions of the
// library.
#![tactic(auto)]

#[cfg(test)]
mod asked;
#[cfg(test)]
mod edges;
#[cfg(test)]
mod header;
#[cfg(test)]
mod input;
#[cfg(test)]
mod limits;
#[cfg(test)]
mod lines;
#[cfg(test)]
mod names;
#[cfg(test)]
mod order;
#[cfg(test)]
mod run;
#[cfg(test)]
mod statements;
#[cfg(test)]
mod weights;
