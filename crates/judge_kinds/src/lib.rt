// The kinds of an instruction, and their ext lines.
#![tactic(auto)]

pub mod kinds;
pub mod selected;
pub mod step;
