// The constraints of the opcode's selectors (F).
#![tactic(auto)]

pub mod selectors;
