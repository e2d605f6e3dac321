// Why a membership is settled: the steps of a derivation, from the reasons of a settled table.
#![tactic(auto)]

pub mod explanation;
mod trail;

pub use explanation::explain;
