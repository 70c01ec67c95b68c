// Replays the stored cases of rowdesk: the file stdin, made by `harness/run cases rowdesk`.
#![tactic(auto)]

use stream_lines::Counts;

fn main(rt: HostRuntime) {
    stream_cases::run::<Counts>(rt);
}
