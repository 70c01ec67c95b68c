// The table as a straight-line program, made of the Rust's own expressions, and the theorem that it is the
// table. There is no code.
#![tactic(auto)]
