#![tactic(auto)]

// One call auction of one share, as a user holds it: orders enter, the price is looked up, an order is asked about, the call is struck.
pub mod held;
