#![tactic(auto)]

// The words of the market: sides, kinds and conditions of orders, the order itself, a line of the tape, the phases of a day, and what is refused.
pub mod orders;
pub mod phases;
pub mod ranks;
pub mod refusals;
pub mod sides;
pub mod tape;
pub mod terms;
