// The evaluation of a pair of rows: every group of the table, written to a buffer one after the other.
#![tactic(auto)]

pub mod stages;
