// rowdesk and faults on 0, 1, 65,536 and 65,537 zero rows, step by step. What is printed last is printed on lines, and
// is proved from the steps' contracts to be the expected text.
#![tactic(auto)]

ghost use Rattle.std.specs.Prelude.{◌≡◌, [], ◌≤◌};
ghost use Rattle.stream_model.specs.Model.{feed_of};
ghost use Rattle.worked.specs.Rows.{after as state_after};

use stream_lines::{Counts, Faults};
use stream_model::{ROW_BYTES, SoundState};
use stream_text::{PAIR_BYTES, PairText};
use text::TextBuffer;

// The state after n zero rows. The masks 2^0..2^24 come first, eight bytes each, low byte first.
fn after(n: usize) -> SoundState
    requires { n ≤ 65536 }
    ensures { result.state ≡ state_after n }
{
    let row = [0u8; ROW_BYTES];
    let mut out = TextBuffer::<PAIR_BYTES>::new();
    let mut after = stream_steps::start(
        b"\x01\0\0\0\0\0\0\0\x02\0\0\0\0\0\0\0\x04\0\0\0\0\0\0\0\x08\0\0\0\0\0\0\0\x10\0\0\0\0\0\0\0\
        \x20\0\0\0\0\0\0\0\x40\0\0\0\0\0\0\0\x80\0\0\0\0\0\0\0\0\x01\0\0\0\0\0\0\0\x02\0\0\0\0\0\0\
        \0\x04\0\0\0\0\0\0\0\x08\0\0\0\0\0\0\0\x10\0\0\0\0\0\0\0\x20\0\0\0\0\0\0\0\x40\0\0\0\0\0\0\
        \0\x80\0\0\0\0\0\0\0\0\x01\0\0\0\0\0\0\0\x02\0\0\0\0\0\0\0\x04\0\0\0\0\0\0\0\x08\0\0\0\0\0\
        \0\0\x10\0\0\0\0\0\0\0\x20\0\0\0\0\0\0\0\x40\0\0\0\0\0\0\0\x80\0\0\0\0\0\0\0\0\x01\0\0\0\0",
        &mut out,
    );
    for _fed in 0..n {
        out.clear();
        after = stream_steps::feed::<Counts, PAIR_BYTES>(after, &row, &mut out);
    }
    after
}

// What the program of this name prints last, where n zero rows are fed and then `bytes`, printed behind the name and
// the words.
fn last_text<T: PairText<PAIR_BYTES>>(
    rt: HostRuntime,
    name: &str,
    words: &str,
    n: usize,
    bytes: &[u8],
    expected: &[u8],
)
    requires rows { n ≤ 65536 }
    requires expected { expected.now ≡ (feed_of T.text (state_after n) bytes.now).text }
{
    let mut out = TextBuffer::<PAIR_BYTES>::new();
    stream_steps::feed::<T, PAIR_BYTES>(after(n), bytes, &mut out);
    check::expect(out.bytes() == expected);
    let _ = print!(rt; "{name}, {words}: ");
    let _ = rt.stdout().write_all(out.bytes());
}

// "0, 1, 65,536, 65,537 rows"   (document 01): of one row and of the most, what is expected is handed over.
fn edges<T: PairText<PAIR_BYTES>>(rt: HostRuntime, name: &str, one: &[u8], most: &[u8])
    requires one { one.now ≡ (feed_of T.text (state_after 1) []).text }
    requires most { most.now ≡ (feed_of T.text (state_after 65536) []).text }
{
    let row = [0u8; ROW_BYTES];
    last_text::<T>(rt, name, "0 rows", 0, b"", b"refused 1\n");
    last_text::<T>(rt, name, "1 row", 1, b"", one);
    last_text::<T>(rt, name, "65536 rows", 65536, b"", most);
    last_text::<T>(rt, name, "65537 rows", 65536, &row, b"refused 1\n");
}

fn main(rt: HostRuntime) {
    edges::<Counts>(rt, "rowdesk", b"0 2 104\n", b"65535 2 104\n");
    edges::<Faults>(
        rt,
        "faults",
        b"0 104 1\n0 148 -1\n",
        b"65535 104 1\n65535 148 -1\n",
    );
}
