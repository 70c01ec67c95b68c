// Mathematics: rings, expressions, the fold, and the field with p elements. The definitions stand in
// specs/, the theorems in proofs/. The only code is the number p.
#![tactic(auto)]

// p, as specs/Prime.antt has it.
pub const P: u64 = 18446744069414584321;
