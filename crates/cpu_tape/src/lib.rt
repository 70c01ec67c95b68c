// The constraints of tape.rs on the ext lines of tload and tstore (M, 164 to 174).
#![tactic(auto)]

pub mod tape;
