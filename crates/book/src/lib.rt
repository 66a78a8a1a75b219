#![tactic(auto)]

// The book of one share: its table of orders, the place of an asked order, the what-if question and the strike of a call.
pub mod asking;
pub mod guard;
pub mod striking;
pub mod table;
