// The constraints of the context from a row to the next: the body of eval_packed_generic (C), and the
// environment's number (E).
#![tactic(auto)]

pub mod body;
pub mod env_idx;
