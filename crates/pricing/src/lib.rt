#![tactic(auto)]

// The price of a call auction: demand and supply, the candidates, and the price that is chosen of them.
pub mod demands;
pub mod outcomes;
pub mod passes;
pub mod standing;
