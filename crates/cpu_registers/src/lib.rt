// The constraints of cpu_stark.rs on the registers that an instruction may change (K).
#![tactic(auto)]

pub mod reg_consistency;
