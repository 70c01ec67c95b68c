// The constraints of cpu_stark.rs on the clock (I) and the program counter (J).
#![tactic(auto)]

pub mod env_unchanged;
