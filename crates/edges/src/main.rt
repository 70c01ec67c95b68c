// Document 01's worked pairs and edges, run through the public entries. Each answer is printed on a line, and each is
// proved from its entry's contract to be the one that stands behind `==` or in the expected text. "65,536 rows" run
// through the steps of rowdesk, in the program edge_streams: a run report of so many rows takes 49 MB, which no array
// here has, and is run by the harness.
#![tactic(auto)]

use edge_residues::residues;

mod folds;
mod lengths;
mod masks;
mod reports;
mod values;

fn main(rt: HostRuntime) {
    residues::worked(rt);
    lengths::worked(rt);
    values::worked(rt);
    folds::worked(rt);
    residues::edges(rt);
    values::edges(rt);
    folds::edges(rt);
    reports::edges(rt);
}
