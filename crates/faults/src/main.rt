// Reads 25 masks, then rows, from standard input, and prints a line for each value of a pair of rows that is not 0, as
// a signed number.
#![tactic(auto)]

use stream_lines::Faults;

fn main(rt: HostRuntime) {
    stream_reading::run::<Faults>(rt, "faults");
}
