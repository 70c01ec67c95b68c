// The constraints of the first line, and of the first line of each transaction (B).
#![tactic(auto)]

pub mod tx_init;
