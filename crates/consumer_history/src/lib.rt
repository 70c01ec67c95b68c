// What a consumer holds after any calls that alter it: histories (specs/) and the theorem (proofs/). There is no
// code.
#![tactic(auto)]
