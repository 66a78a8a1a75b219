#![tactic(auto)]

// A study put to the auction: its book is loaded, and its questions are asked.
pub mod loading;
pub mod questions;
