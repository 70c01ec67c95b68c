// Replays the stored sample of the Rust's answers. A record is 441 values: 25 masks, the current row, the next row,
// z_last, lagrange_basis_first, and the 226 values that the Rust gave. The sample is the file stdin, made by
// `harness/run sample > crates/replay/stdin`.
#![tactic(auto)]

ghost use Rattle.std.specs.Prelude.{◌≡◌, true, length};
ghost use Rattle.replay.specs.Record.{Agrees};

use compared_line::NoCase;
use table::NUM_VALUES;
use table::columns::NUM_CPU_COLS;
use table::masks::NUM_MASKS;

// Where the parts of a record start.
const LV: usize = NUM_MASKS;

const NV: usize = LV + NUM_CPU_COLS;

const Z_LAST: usize = NV + NUM_CPU_COLS;

const LAGRANGE_BASIS_FIRST: usize = Z_LAST + 1;

const VALUES: usize = LAGRANGE_BASIS_FIRST + 1;

const RECORD: usize = VALUES + NUM_VALUES;

const RECORD_BYTES: usize = 8 * RECORD;

// The entry gives the values that the record holds.
fn agrees(words: &[u64]) -> bool
    requires { length words.now ≡ 441 }
    ensures { result ≡ true → Agrees words.now }
{
    let mut values = [0u64; NUM_VALUES];
    let answer = pair::pair_values(
        &words[0..LV],
        &words[LV..NV],
        &words[NV..Z_LAST],
        words[Z_LAST],
        words[LAGRANGE_BASIS_FIRST],
        &mut values,
    );
    answer.is_ok() && values[..] == words[VALUES..RECORD]
}

// Reads a record and replays it.
fn replay_record(rt: HostRuntime) -> Result<bool, NoCase> {
    let mut bytes = [0u8; RECORD_BYTES];
    match compared_line::read_full(rt.stdin(), &mut bytes) {
        0 => Err(NoCase::End),
        RECORD_BYTES => {
            let mut record = [0u64; RECORD];
            words::decode(&bytes, &mut record);
            Ok(agrees(&record))
        }
        _ => Err(NoCase::Malformed),
    }
}

fn main(rt: HostRuntime) {
    compared_line::compare(rt.stdout(), "pairs", ", then a part of a record", || {
        replay_record(rt)
    });
}
