#![tactic(auto)]

// Price ranges: what any range set shows of itself, and the sets there are, one a file.
pub mod open;
pub mod percent;
pub mod sets;
