#![tactic(auto)]

// The execution of an auction: both sides ranked and walked in pairs, the lines written on a lent tape, the book settled by them.
pub mod executing;
pub mod laws;
pub mod scratch;
pub mod settling;
pub mod sharing;
