// What the judge and the report of a run answer.
#![tactic(auto)]

// What the judge says of a pair.
#[derive(Clone, Copy, PartialEq, Eq, Debug)]
pub enum Verdict {
    Keeps,
    Breaks,
}

// The first failing spot: none, or a pair and the number of a value.
// Kept: document 01 names this enum and its cases, so it is no Option.
#[derive(Clone, Copy, PartialEq, Eq, Debug)]
pub enum Spot {
    Clean,
    At(u64, u64),
}

// What is found of a run.
#[derive(Clone, Copy, PartialEq, Eq, Debug)]
pub struct Report {
    pub pairs: u64,
    pub failing: u64,
    pub spot: Spot,
}
