// The theorem: the card machine keeps step with the source.
#![tactic(auto)]

pub mod laws;
