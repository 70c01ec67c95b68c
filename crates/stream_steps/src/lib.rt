// A program over masks and rows, step by step: each step takes the state and what was read, and gives the state and
// what to print, which it puts behind what the buffer holds.
#![tactic(auto)]

ghost use Rattle.std.specs.Prelude.{◌≡◌, [], ◌++◌, ◌+◌, ◌≤◌, ◌<◌, length};
ghost use Rattle.refusals.specs.Refusal.{number};
ghost use Rattle.table.specs.Rows.{Row as IsRow};
ghost use Rattle.stream_text.specs.Room.{pair_bytes};
ghost use Rattle.stream_model.specs.Model.{blank as blank_state, refused_by, pair_text, accept_of, row_of, end_of, feed_of, masks_of, start_of, Gives};
ghost use Rattle.stream_model.specs.Sound.{Onward};

use refusals::Refusal;
use residue::Residue;
use run_pairs::MAX_ROWS;
use stream_lines::refused;
use stream_model::{MASK_BYTES, ROW_BYTES, SoundState, State};
use stream_text::PairText;
use table::columns::NUM_CPU_COLS;
use table::masks::NUM_MASKS;
use table::{Masks, NUM_VALUES, Pair, Row};
use text::TextBuffer;

// What turns a run back ends it with a line.
// Kept: each text uses up the room that it asks for, so no invariant of the buffer says that there is room.
fn refuse<const N: usize>(s: SoundState, refusal: Refusal, out: &mut TextBuffer<N>) -> SoundState
    requires { length out.old + pair_bytes ≤ N }
    ensures { Gives (refused_by s.state (number refusal)) result.state out.old out.new }
{
    refused(refusal.number(), out);
    let mut last = s;
    last.state.running = false;
    last
}

// The text of the pair of the previous row and the next.
#[tactic(auto, using(crate::proofs::Laws::nothing_behind, crate::proofs::Laws::pair_few, crate::proofs::Laws::pair_below), unfolding(stream_model::specs::Model::pair_text))]
fn put_pair<T: PairText<N>, const N: usize>(
    s: &SoundState,
    next: &Row,
    z_last: Residue,
    out: &mut TextBuffer<N>,
)
    requires room { length out.old + pair_bytes ≤ N }
    requires rows { 0 < s.now.state.rows }
    ensures { out.new ≡ out.old ++ pair_text T.text s.now.state next.now z_last }
{
    let index = s.state.rows - 1;
    let pair = Pair {
        masks: Masks::lend(&s.state.masks),
        lv: Row::lend(&s.state.previous),
        nv: Row::lend(next.words()),
        z_last,
        lagrange_basis_first: run_pairs::first_weight(index),
    };
    let mut values = [0u64; NUM_VALUES];
    cpu::stages::eval_packed_generic(&pair, &mut values);
    T::put(index as u64, &values, out);
}

// A row that is whole and canonical, and not one too many.
#[tactic(auto, unfolding(stream_model::specs::Model::accept_of))]
fn accept<T: PairText<N>, const N: usize>(
    s: SoundState,
    row: [u64; NUM_CPU_COLS],
    out: &mut TextBuffer<N>,
) -> SoundState
    requires room { length out.old + pair_bytes ≤ N }
    requires row { IsRow row }
    requires few { s.state.rows ≤ 65535 }
    ensures { Gives (accept_of T.text s.state row) result.state out.old out.new }
{
    let mut next = s;
    next.state.previous = row;
    next.state.running = true;
    if s.state.rows == 0 {
        next.state.first = row;
        next.state.rows = 1;
        return next;
    }
    put_pair::<T, N>(&s, &Row::lend(&row), Residue::ONE, out);
    next.state.rows = s.state.rows + 1;
    next
}

// A whole row.
#[tactic(auto, using(crate::proofs::Laws::row_of_canonical), unfolding(stream_model::specs::Model::row_of))]
fn whole_row<T: PairText<N>, const N: usize>(
    s: SoundState,
    row: [u64; NUM_CPU_COLS],
    out: &mut TextBuffer<N>,
) -> SoundState
    requires { length out.old + pair_bytes ≤ N }
    ensures { Gives (row_of T.text s.state row) result.state out.old out.new }
{
    if s.state.rows >= MAX_ROWS {
        return refuse(s, Refusal::RowLength, out);
    }
    if !checks::canonical(&row) {
        return refuse(s, Refusal::RowContents, out);
    }
    accept::<T, N>(s, row, out)
}

// The end of the input: the last pair returns to the first row.
#[tactic(auto, unfolding(stream_model::specs::Model::end_of))]
fn finish<T: PairText<N>, const N: usize>(s: SoundState, out: &mut TextBuffer<N>) -> SoundState
    requires { length out.old + pair_bytes ≤ N }
    ensures { Gives (end_of T.text s.state) result.state out.old out.new }
{
    if s.state.rows == 0 {
        return refuse(s, Refusal::RowLength, out);
    }
    put_pair::<T, N>(&s, &Row::lend(&s.state.first), Residue::ZERO, out);
    let mut last = s;
    last.state.running = false;
    last
}

// The step on what was read for a row: fewer bytes than a row has where the input ends, none at its end.
#[tactic(auto, unfolding(stream_model::specs::Model::feed_of))]
pub fn feed<T: PairText<N>, const N: usize>(
    s: SoundState,
    bytes: &[u8],
    out: &mut TextBuffer<N>,
) -> SoundState
    requires { length out.old + pair_bytes ≤ N }
    ensures gives { Gives (feed_of T.text s.state bytes.now) result.state out.old out.new }
    ensures onward { Onward 1 s.state result.state }
{
    if bytes.is_empty() {
        return finish::<T, N>(s, out);
    }
    if bytes.len() == ROW_BYTES {
        let mut row = [0u64; NUM_CPU_COLS];
        words::decode(bytes, &mut row);
        return whole_row::<T, N>(s, row, out);
    }
    refuse(s, Refusal::RowLength, out)
}

// The state before the masks are read.
fn blank() -> SoundState
    ensures { result.state ≡ blank_state }
{
    SoundState {
        state: State {
            masks: [0u64; NUM_MASKS],
            first: [0u64; NUM_CPU_COLS],
            previous: [0u64; NUM_CPU_COLS],
            rows: 0,
            running: false,
        },
    }
}

// All 25 masks.
#[tactic(auto, unfolding(stream_model::specs::Model::masks_of))]
fn with_masks<const N: usize>(masks: [u64; NUM_MASKS], out: &mut TextBuffer<N>) -> SoundState
    requires { length out.old + pair_bytes ≤ N }
    ensures { Gives (masks_of masks) result.state out.old out.new }
{
    let mut next = blank();
    if let Err(refusal) = checks::masks(&masks) {
        return refuse(next, refusal, out);
    }
    next.state.masks = masks;
    next.state.running = true;
    next
}

// The step on what was read for the masks: fewer bytes than they have where the input ends. The buffer then holds what
// it prints, and nothing of before.
#[tactic(auto, unfolding(stream_model::specs::Model::start_of))]
pub fn start<const N: usize>(bytes: &[u8], out: &mut TextBuffer<N>) -> SoundState
    requires { pair_bytes ≤ N }
    ensures { Gives (start_of bytes.now) result.state [] out.new }
{
    out.clear();
    if bytes.len() == MASK_BYTES {
        let mut masks = [0u64; NUM_MASKS];
        words::decode(bytes, &mut masks);
        return with_masks(masks, out);
    }
    refuse(blank(), Refusal::MaskCount, out)
}
