// Reads 25 masks, then rows, from standard input, and prints a line for each pair of rows: how many of its values are
// not 0.
#![tactic(auto)]

use stream_lines::Counts;

fn main(rt: HostRuntime) {
    stream_reading::run::<Counts>(rt, "rowdesk");
}
