// What a program prints of a pair, as a trait: rowdesk and faults each have an impl in stream_lines.
#![tactic(auto)]

ghost use Rattle.std.specs.Prelude.{◌≡◌, ◌++◌, ◌+◌, ◌≤◌, ◌<◌, ℕ, List, length};
ghost use Rattle.algebra.specs.Prime.{p};
ghost use Rattle.algebra.specs.Lists.{All};
ghost use Rattle.stream_text.specs.Room.{pair_bytes};

use text::TextBuffer;

// Room for the text of any pair: a line for each of its 226 values, of at most 31 bytes: a pair of at most 5 digits, a
// number of at most 3, a signed number of at most 20 characters, two spaces and the line's end.
pub const PAIR_BYTES: usize = 226 * 31;

// Of a pair's index and values, put behind what the buffer holds.
// Kept: each text uses up the room that it asks for, so no invariant of the buffer says that there is room.
pub trait PairText<const N: usize> {
    ghost text: { ℕ → List ℕ → List ℕ };

    fn put(index: u64, values: &[u64], out: &mut TextBuffer<N>)
        requires room { length out.old + pair_bytes ≤ N }
        requires few { length values.now ≤ 226 }
        requires index { index < 65536 }
        requires below { All (λ v. v < p) values.now }
        ensures { out.new ≡ out.old ++ text index values.now };

    // No text is longer than the room for it.
    ghost text_short: { (i : ℕ) (vs : List ℕ) → i < 65536 → length vs ≤ 226 → length (text i vs) ≤ pair_bytes };
}
