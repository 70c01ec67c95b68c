// Straight-line programs: what one computes, over any operations and on expressions. There is no code.
#![tactic(auto)]
