// The constraints of the instruction: its encoding (G) and its operands (H).
#![tactic(auto)]

pub mod encode;
pub mod operands;
