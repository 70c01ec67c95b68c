// The wrapper of both rows: whether an instruction has ext lines and how many, and the constraints of its
// columns (A).
#![tactic(auto)]

pub mod counted_row;
pub mod wrapper;
