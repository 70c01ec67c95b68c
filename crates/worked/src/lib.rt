// Document 01's worked pairs, proved together, and pairs that keep every rule: specs/ has the rows and what is said of
// them. There is no code.
#![tactic(auto)]
