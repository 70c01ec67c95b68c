// The constraints of the ext lines (D).
#![tactic(auto)]

pub mod ext_lines;
