// Replays the stored cases of faults: the file stdin, made by `harness/run cases faults`.
#![tactic(auto)]

use stream_lines::Faults;

fn main(rt: HostRuntime) {
    stream_cases::run::<Faults>(rt);
}
