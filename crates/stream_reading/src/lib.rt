// The reading of a program over masks and rows: from standard input, with the texts of pairs to standard output. A
// program is a main that names its text, and itself for what it says on standard error.
#![tactic(auto)]

ghost use Rattle.std.specs.Prelude.{◌≡◌, false, ◌<◌, length, IfSome};
ghost use Rattle.io.specs.Counts.{IsPrefixLen};
ghost use Rattle.stream_model.specs.Model.{row_bytes};
ghost use Rattle.stream_model.specs.Rows.{rows_in};
ghost use Rattle.stream_model.specs.Sound.{Onward};
ghost use Rattle.stream_reading.specs.Turns.{Kept, Nearer};

use reading::Reading;
use std::io::Read;
use stream_model::{MASK_BYTES, ROW_BYTES, SoundState};
use stream_text::PairText;
use text::TextBuffer;

mod reading;

// As many whole rows as 64 KiB hold.
const BLOCK_BYTES: usize = 87 * ROW_BYTES;

// Texts are gathered in 64 KiB: room for those of nine pairs with all their values not 0, and for those of most blocks.
pub const TEXT_BYTES: usize = 65_536;

// What a program says of a failed read.
const UNREADABLE: &str = "standard input could not be read";

// A program, by its name and the runtime that it is given.
#[derive(Clone, Copy)]
struct Program<'a> {
    rt: HostRuntime,
    name: &'a str,
}

impl Program<'_> {
    // Says on standard error what the program could not do.
    fn failed(self, what: &str) {
        let name = self.name;
        let _ = eprintln!(self.rt; "{name}: {what}");
    }

    // One read: how many bytes, none at the end of the input; or nothing, where it failed.
    fn read_some(self, bytes: &mut [u8]) -> Option<usize>
        ensures { IfSome result (λ n. IsPrefixLen n bytes.new) }
    {
        match self.rt.stdin().read(bytes) {
            Ok(got) => Some(got),
            Err(_) => {
                self.failed(UNREADABLE);
                None
            }
        }
    }

    // Reads until the bytes are full or the input ends; a failed read gives nothing.
    fn read_full(self, bytes: &mut [u8]) -> Option<usize>
        ensures { IfSome result (λ n. IsPrefixLen n bytes.new) }
    {
        match compared_line::fill(self.rt.stdin(), bytes) {
            Ok(n) => Some(n),
            Err(_) => {
                self.failed(UNREADABLE);
                None
            }
        }
    }

    // Prints the text. A failed write ends the program.
    fn print(self, s: SoundState, text: &[u8]) -> SoundState
        ensures { Kept s.state result.state }
    {
        let mut after = s;
        if self.rt.stdout().write_all(text).is_err() {
            self.failed("standard output could not be written");
            after.state.running = false;
        }
        after
    }

    // Takes what was read for the masks, and prints the refusal if there is one.
    fn begin(self, bytes: &[u8], out: &mut TextBuffer<TEXT_BYTES>) -> SoundState {
        let after = stream_steps::start(bytes, out);
        self.print(after, out.bytes())
    }

    // Feeds the whole rows of a block, and prints their texts: with one call, unless the buffer fills up before.
    // Kept: only a call tells how many rows it fed, so no iterator over the bytes gives what it left.
    fn block<T: PairText<TEXT_BYTES>>(
        self,
        s: SoundState,
        bytes: &[u8],
        out: &mut TextBuffer<TEXT_BYTES>,
    ) -> SoundState
        ensures { Onward (rows_in bytes.now) s.state result.state }
    {
        let mut after = s;
        let mut rest = bytes;
        while after.state.running && rest.len() >= ROW_BYTES {
            out.clear();
            let fed = stream_blocks::feed_rows::<T, TEXT_BYTES>(after, rest, out);
            after = self.print(fed.after, out.bytes());
            rest = &rest[ROW_BYTES * fed.rows..];
        }
        after
    }

    // The end of the input: what is left of it, less than a row, is fed as it is.
    fn end<T: PairText<TEXT_BYTES>>(
        self,
        s: SoundState,
        bytes: &[u8],
        out: &mut TextBuffer<TEXT_BYTES>,
    ) -> SoundState
        requires { length bytes.now < row_bytes }
        ensures { result.state.running ≡ false }
    {
        out.clear();
        let after = stream_steps::feed::<T, TEXT_BYTES>(s, bytes, out);
        self.print(after, out.bytes())
    }

    // Reads once behind what is read, and feeds what that makes whole. A full buffer, whose rows are all fed, is read
    // from its start.
    fn turn<T: PairText<TEXT_BYTES>>(
        self,
        r: Reading,
        bytes: &mut [u8; BLOCK_BYTES],
        out: &mut TextBuffer<TEXT_BYTES>,
    ) -> Reading
        ensures { Nearer r.state.state r.read result.state.state result.read }
    {
        let read = r.read;
        let Some(got) = self.read_some(&mut bytes[read..]) else {
            let mut last = r.state;
            last.state.running = false;
            return Reading {
                state: last,
                read: 0,
            };
        };
        let from = read / ROW_BYTES * ROW_BYTES;
        let to = read + got;
        if got == 0 {
            return Reading {
                state: self.end::<T>(r.state, &bytes[from..to], out),
                read: 0,
            };
        }
        Reading {
            state: self.block::<T>(r.state, &bytes[from..to], out),
            read: if to == BLOCK_BYTES { 0 } else { to },
        }
    }

    // Reads rows, turn by turn.
    fn rows<T: PairText<TEXT_BYTES>>(self, s: SoundState, out: &mut TextBuffer<TEXT_BYTES>) {
        let mut bytes = [0u8; BLOCK_BYTES];
        let mut reading = Reading { state: s, read: 0 };
        while reading.state.state.running {
            reading = self.turn::<T>(reading, &mut bytes, out);
        }
    }
}

// Runs a program of this name that prints this text of each pair.
pub fn run<T: PairText<TEXT_BYTES>>(rt: HostRuntime, name: &str) {
    let program = Program { rt, name };
    let mut masks = [0u8; MASK_BYTES];
    if let Some(n) = program.read_full(&mut masks) {
        let mut out = TextBuffer::new();
        let begun = program.begin(&masks[..n], &mut out);
        program.rows::<T>(begun, &mut out);
    }
}
