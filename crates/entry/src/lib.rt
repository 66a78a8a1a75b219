#![tactic(auto)]

// Which orders a phase takes.
pub mod table;
