#![tactic(auto)]

// Ranking by any total order, over any type of entry.
pub mod ranks;
pub mod walks;
