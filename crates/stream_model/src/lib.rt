// The state of a program that reads masks and rows and prints a text of each pair. There is no code.
#![tactic(auto)]

ghost use Rattle.stream_model.specs.Sound.{Sound};

use table::columns::NUM_CPU_COLS;
use table::masks::NUM_MASKS;

// The bytes of the masks and of a row, each value eight bytes.
pub const MASK_BYTES: usize = 8 * NUM_MASKS;

pub const ROW_BYTES: usize = 8 * NUM_CPU_COLS;

// The masks, the first and the previous row, how many rows were accepted, and whether more may come.
#[derive(Clone, Copy)]
pub struct State {
    pub masks: [u64; NUM_MASKS],
    pub first: [u64; NUM_CPU_COLS],
    pub previous: [u64; NUM_CPU_COLS],
    pub rows: usize,
    // Kept: the definitions of specs/ have this field.
    pub running: bool,
}

// A state whose masks and rows are canonical, and which has no more rows than a run.
#[derive(Clone, Copy)]
pub struct SoundState {
    pub state: State,
    pub ghost sound: { Sound state },
}
