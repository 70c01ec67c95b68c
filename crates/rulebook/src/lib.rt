// The rulebook: definitions (specs/) and the theorem that it holds exactly where the values are zero
// (proofs/). There is no code.
#![tactic(auto)]
