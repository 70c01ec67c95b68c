// Document 01's worked products and the edges of the residues, run through their entries, and the lines that are
// printed of an answer.
#![tactic(auto)]

pub mod lines;
pub mod residues;
