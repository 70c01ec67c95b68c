// The constraints of call_sc.rs on the line after call_sc and after an ext line of end, and on the filters (N,
// 197 to 226).
#![tactic(auto)]

pub mod after_call_sc;
