// The constraints of simple_arithmatic_op.rs (L).
#![tactic(auto)]

pub mod simple_arithmatic_op;
