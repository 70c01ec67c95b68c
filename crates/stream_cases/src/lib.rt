// Replays stored cases of a program over masks and rows from standard input. A case is an input and what the plain Rust
// says must be printed, each with its length in front, eight bytes, low byte first. `harness/run cases` makes them.
#![tactic(auto)]

ghost use Rattle.std.specs.Prelude.{◌≡◌, true, IfOk};
ghost use Rattle.io.specs.Counts.{IsPrefixLen};
ghost use Rattle.stream_model.specs.Model.{output_of};

use compared_line::NoCase;
use stream_model::{MASK_BYTES, ROW_BYTES};
use stream_text::{PAIR_BYTES, PairText};
use text::TextBuffer;

// Longer than the parts of any case.
const MOST_BYTES: usize = 65_536;

const SIZE_BYTES: usize = 8;

// The steps of the program, on the input, print what is expected and no more.
fn agrees<T: PairText<PAIR_BYTES>>(input: &[u8], expected: &[u8]) -> bool
    ensures { result ≡ true → output_of T.text input.now ≡ expected.now }
{
    let mut out = TextBuffer::<PAIR_BYTES>::new();
    let (masks, mut left) = input.split_at(input.len().min(MASK_BYTES));
    let mut after = stream_steps::start(masks, &mut out);
    let Some(mut rest) = expected.strip_prefix(out.bytes()) else {
        return false;
    };
    while after.state.running {
        let (row, behind) = left.split_at(left.len().min(ROW_BYTES));
        out.clear();
        after = stream_steps::feed::<T, PAIR_BYTES>(after, row, &mut out);
        let Some(tail) = rest.strip_prefix(out.bytes()) else {
            return false;
        };
        left = behind;
        rest = tail;
    }
    rest.is_empty()
}

// Reads a part of a case, behind its length, into `part`.
fn read_part(rt: HostRuntime, part: &mut [u8]) -> Result<usize, NoCase>
    ensures { IfOk result (λ n. IsPrefixLen n part.new) }
{
    let mut size = [0u8; SIZE_BYTES];
    let got = compared_line::read_full(rt.stdin(), &mut size);
    if got == 0 {
        return Err(NoCase::End);
    }
    let n = words::word(&size);
    if got != SIZE_BYTES || n > part.len() as u64 {
        return Err(NoCase::Malformed);
    }
    let n = n as usize;
    if compared_line::read_full(rt.stdin(), &mut part[..n]) != n {
        return Err(NoCase::Malformed);
    }
    Ok(n)
}

// Reads a case and replays it.
fn replay_case<T: PairText<PAIR_BYTES>>(rt: HostRuntime) -> Result<bool, NoCase> {
    let mut input = [0u8; MOST_BYTES];
    let mut expected = [0u8; MOST_BYTES];
    let n = read_part(rt, &mut input)?;
    let m = read_part(rt, &mut expected).map_err(|_| NoCase::Malformed)?;
    Ok(agrees::<T>(&input[..n], &expected[..m]))
}

// Replays the cases of the program that prints this text of each pair, and prints how many differ.
pub fn run<T: PairText<PAIR_BYTES>>(rt: HostRuntime) {
    compared_line::compare(rt.stdout(), "cases", ", then a malformed case", || {
        replay_case::<T>(rt)
    });
}
