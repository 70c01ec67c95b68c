// A program over masks and rows on a block of bytes: what one read gave, with the part of a row that was left over in
// front.
#![tactic(auto)]

ghost use Rattle.std.specs.Prelude.{◌≡◌, true, ◌+◌, ◌≤◌, ◌<◌, length};
ghost use Rattle.stream_text.specs.Room.{pair_bytes};
ghost use Rattle.stream_model.specs.Model.{Gives};
ghost use Rattle.stream_model.specs.Rows.{rows_in, fed_rows};
ghost use Rattle.stream_model.specs.Sound.{Onward};

use stream_model::{ROW_BYTES, SoundState};
use stream_text::{PAIR_BYTES, PairText};
use text::TextBuffer;

// The state after some rows of a block, and how many rows those are.
#[derive(Clone, Copy)]
pub struct Block {
    pub after: SoundState,
    pub rows: usize,
}

// Feeds the whole rows of the bytes one after the other, as long as more may come and a pair's text has room, and puts
// their texts behind what the buffer holds.
pub fn feed_rows<T: PairText<N>, const N: usize>(
    s: SoundState,
    bytes: &[u8],
    out: &mut TextBuffer<N>,
) -> Block
    ensures gives { Gives (fed_rows T.text result.rows s.state bytes.now) result.after.state out.old out.new }
    ensures onward { Onward result.rows s.state result.after.state }
    ensures within { result.rows ≤ rows_in bytes.now }
    ensures some { s.state.running ≡ true → 0 < rows_in bytes.now → length out.old + pair_bytes ≤ N → 0 < result.rows }
{
    let mut after = s;
    for (i, row) in bytes.chunks_exact(ROW_BYTES).enumerate() {
        if !after.state.running || out.room() < PAIR_BYTES {
            return Block { after, rows: i };
        }
        after = stream_steps::feed::<T, N>(after, row, out);
    }
    let rows = bytes.len() / ROW_BYTES;
    Block { after, rows }
}
