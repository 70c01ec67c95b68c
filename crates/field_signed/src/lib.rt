// The signed form of a residue: the range, and what the maps answer.
#![tactic(auto)]

// The greatest signed number, which is half of p - 1; the least is its negative.
pub const GREATEST: u64 = 9223372034707292160;
