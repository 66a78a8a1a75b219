#![tactic(auto)]

// A study in, its answer out: all as text. Nothing is printed here.
mod pictures;
pub mod reports;
mod tables;
