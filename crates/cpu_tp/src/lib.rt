// The constraints of tape.rs on tp, and on the filter of the tape (M, 175 to 184).
#![tactic(auto)]

pub mod tp;
