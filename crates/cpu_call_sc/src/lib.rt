// The constraints of call_sc.rs on the ext line of sccall and of end (N, 185 to 196).
#![tactic(auto)]

pub mod call_sc;
