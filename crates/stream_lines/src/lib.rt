// The texts that rowdesk and faults print of a pair, and their line of a refusal, put behind what a buffer holds.
#![tactic(auto)]

ghost use Rattle.std.specs.Prelude.{◌≡◌, ◌++◌, ◌+◌, ◌≤◌, ◌<◌, length};
ghost use Rattle.algebra.specs.Prime.{p};
ghost use Rattle.field_signed.specs.Signed.{signed_of};
ghost use Rattle.text.specs.Decimal.{decimal_of, signed_decimal};
ghost use Rattle.stream_text.specs.Lines.{space, line_of, refused_of};
ghost use Rattle.stream_text.specs.Faults.{fault_line};

use algebra::P;
use field_signed::GREATEST;
use stream_text::PairText;
use text::TextBuffer;

// Kept: `write!` is known to write the text where it answers Ok, but no clause says that it does where there is room.
const SPACE: u8 = 32;

const LINE_END: u8 = 10;

const MINUS: u8 = 45;

// A line of its count, as rowdesk prints.
pub struct Counts {}

// A line for each of its values that is not 0, as faults prints.
pub struct Faults {}

// Two numbers with a space behind each, with which a line begins.
// Kept: each text uses up the room that it asks for, so no invariant of the buffer says that there is room.
fn two_numbers<const N: usize>(a: u64, b: u64, out: &mut TextBuffer<N>)
    requires { length out.old + length (decimal_of a) + 22 ≤ N }
    ensures numbers { out.new ≡ out.old ++ decimal_of a ++ space ++ decimal_of b ++ space }
    ensures next { length out.new ≡ length out.old + length (decimal_of a) + length (decimal_of b) + 2 }
{
    out.push_decimal(a);
    out.push_byte(SPACE);
    out.push_decimal(b);
    out.push_byte(SPACE);
}

// The line of a pair's count.
#[tactic(auto, using(text::proofs::Digits::decimal_short), unfolding(stream_text::specs::Lines::line_of))]
fn line<const N: usize>(index: u64, count: u64, lowest: u64, out: &mut TextBuffer<N>)
    requires { length out.old + 64 ≤ N }
    ensures { out.new ≡ out.old ++ line_of index count lowest }
{
    two_numbers(index, count, out);
    out.push_decimal(lowest);
    out.push_byte(LINE_END);
}

// The line of a refusal.
#[tactic(auto, unfolding(stream_text::specs::Lines::refused_of))]
pub fn refused<const N: usize>(number: u64, out: &mut TextBuffer<N>)
    requires { length out.old + 64 ≤ N }
    ensures { out.new ≡ out.old ++ refused_of number }
{
    out.push(b"refused ");
    out.push_decimal(number);
    out.push_byte(LINE_END);
}

// The signed form of a residue: at most 19 digits, behind a minus sign where it is negative.
#[tactic(auto, using(crate::proofs::Laws::small_put, crate::proofs::Laws::large_put))]
fn put_signed<const N: usize>(value: u64, out: &mut TextBuffer<N>)
    requires room { length out.old + 21 ≤ N }
    requires below { value < p }
    ensures { out.new ≡ out.old ++ signed_decimal (signed_of value) }
{
    if value <= GREATEST {
        out.push_decimal(value);
    } else {
        out.push_byte(MINUS);
        out.push_decimal(P - value);
    }
}

// The line of a value: at most 5 digits, 3 digits and a signed number of 20 bytes, two spaces and the line's end.
#[tactic(auto, using(crate::proofs::Laws::pair_digits, crate::proofs::Laws::number_digits, stream_text::proofs::Short::signed_short), unfolding(stream_text::specs::Faults::fault_line))]
fn fault<const N: usize>(pair: u64, number: u64, value: u64, out: &mut TextBuffer<N>)
    requires room { length out.old + 31 ≤ N }
    requires pair { pair < 65536 }
    requires number { number < 1000 }
    requires below { value < p }
    ensures { out.new ≡ out.old ++ fault_line (record { pair = pair; number = number; signed = signed_of value }) }
{
    two_numbers(pair, number, out);
    put_signed(value, out);
    out.push_byte(LINE_END);
}

impl<const N: usize> PairText<N> for Counts {
    ghost use Rattle.stream_text.specs.PairLines.{line_of_pair};
    ghost use Rattle.stream_text.proofs.Short.{counts_short};

    ghost text = { line_of_pair };

    fn put(index: u64, values: &[u64], out: &mut TextBuffer<N>) {
        let found = tally::count_nonzero(values);
        line(index, found.count, found.lowest, out);
    }

    ghost text_short = { counts_short };
}

impl<const N: usize> PairText<N> for Faults {
    ghost use Rattle.stream_text.specs.Faults.{faults_of_pair};
    ghost use Rattle.stream_text.proofs.Short.{faults_of_pair_short};

    ghost text = { faults_of_pair };

    fn put(index: u64, values: &[u64], out: &mut TextBuffer<N>) {
        for (i, value) in values.iter().enumerate() {
            let listed = *value != 0;
            if listed {
                fault(index, i as u64 + 1, *value, out);
            }
        }
    }

    ghost text_short = { faults_of_pair_short };
}
