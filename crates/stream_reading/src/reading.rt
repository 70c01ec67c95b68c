// What is read of the rows.
ghost use Rattle.std.specs.Prelude.{◌<◌};
ghost use Rattle.stream_reading.specs.Sizes.{block_bytes};

use stream_model::SoundState;

// The state, and how many bytes of the buffer are read, with room for more. The rows that are whole among them are fed.
#[derive(Clone, Copy)]
pub struct Reading {
    pub state: SoundState,
    pub read: usize,
    pub ghost room: { read < block_bytes },
}
