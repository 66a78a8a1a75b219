#![tactic(auto)]

// Studies of an order book: a reference price, orders and questions, written as plain text.
mod bytes;
mod drafts;
pub mod faults;
pub mod numbers;
pub mod reading;
mod statements;
mod studies;
mod wording;
