// The values of pairs.
ghost use Rattle.std.specs.Prelude.{◌≡◌, ◌-◌, ◌≤◌, ◌<◌, get_or, replicate};
ghost use Rattle.refusals.specs.Refusal.{number_of};
ghost use Rattle.tally.specs.Tally.{nonzeros};
ghost use Rattle.pair_checks.specs.PairValues.{pair_values_refusal, pair_values_buffer};
ghost use Rattle.worked.specs.Rows.{powers, zeros, last_mask, last_column};

use crate::masks::POWERS;
use algebra::P;
use edge_residues::lines;
use refusals::Refusal;
use table::NUM_VALUES;
use table::columns::{
    COL_INST, COL_IS_PADDING, COL_OP1_IMM, COL_PC, COL_S_DST_START, COL_S_MLOAD, COL_S_OP0_START,
    NUM_CPU_COLS,
};
use table::masks::SCCALL;

// A value of a pair, by its number, printed behind the words. The weights are those of a run of one row.
fn value(
    rt: HostRuntime,
    words: &str,
    lv: &[u64; NUM_CPU_COLS],
    nv: &[u64; NUM_CPU_COLS],
    number: usize,
) -> u64
    requires { (0 < number) × (number ≤ 226) }
    ensures { result ≡ get_or (pair_values_buffer powers lv.now nv.now 0 1 (replicate 226 0)) (number - 1) 0 }
{
    let mut out = [0u64; NUM_VALUES];
    let _ = pair::pair_values(&POWERS, lv, nv, 0, 1, &mut out);
    let v = out[number - 1];
    lines::number(rt, words, v);
    v
}

// "OP1_IMM 1, op0 r0, dst r0, OPCODE 0: INST 4616189622349725696."   (document 01)
fn instruction_word(rt: HostRuntime) {
    let mut lv = [0u64; NUM_CPU_COLS];
    lv[COL_OP1_IMM] = 1;
    lv[COL_S_OP0_START] = 1;
    lv[COL_S_DST_START] = 1;
    lv[COL_INST] = 4616189622349725696;
    let nv = [0u64; NUM_CPU_COLS];
    check::expect(
        value(
            rt,
            "OP1_IMM 1, op0 r0, dst r0, OPCODE 0, INST 4616189622349725696: value 107 is ",
            &lv,
            &nv,
            107,
        ) == 0,
    );
}

// "MLOAD size is 2 with OP1_IMM 0."   (document 01): from PC 0 to PC 2
fn mload_size(rt: HostRuntime) {
    let mut lv = [0u64; NUM_CPU_COLS];
    lv[COL_S_MLOAD] = 1;
    let mut nv = [0u64; NUM_CPU_COLS];
    nv[COL_PC] = 2;
    check::expect(
        value(
            rt,
            "MLOAD, OP1_IMM 0, PC 0, next PC 2: value 148 is ",
            &lv,
            &nv,
            148,
        ) == 0,
    );
}

// How many values of the zero row's pair are not 0.
fn nonzero(rt: HostRuntime) -> u64
    ensures { result ≡ nonzeros (pair_values_buffer powers zeros zeros 0 1 (replicate 226 0)) }
{
    let row = [0u64; NUM_CPU_COLS];
    let mut out = [0u64; NUM_VALUES];
    let _ = pair::pair_values(&POWERS, &row, &row, 0, 1, &mut out);
    let tally = tally::count_nonzero(&out);
    lines::number(rt, "zero row: values that are not 0: ", tally.count);
    tally.count
}

// "Masks 2^0..2^24, one zero row: value 104 is 1, 148 is p−1, others 0"   (document 01)
fn zero_row(rt: HostRuntime) {
    let row = [0u64; NUM_CPU_COLS];
    check::expect(value(rt, "zero row: value 104 is ", &row, &row, 104) == 1);
    check::expect(value(rt, "zero row: value 148 is ", &row, &row, 148) == P - 1);
    check::expect(nonzero(rt) == 2);
}

pub fn worked(rt: HostRuntime) {
    instruction_word(rt);
    mload_size(rt);
    zero_row(rt);
}

// Why a pair is turned back, if it is, printed behind the words: zero rows with other last columns, masks with
// another last one, the weights, and the room of the buffer.
fn ask(
    rt: HostRuntime,
    words: &str,
    mask: u64,
    local: u64,
    next: u64,
    z_last: u64,
    first: u64,
    room: usize,
) -> Result<(), Refusal>
    requires { room ≤ 226 }
    ensures { number_of result ≡ pair_values_refusal (last_mask mask) (last_column local) (last_column next) z_last first room }
{
    let mut masks = POWERS;
    masks[SCCALL] = mask;
    let mut lv = [0u64; NUM_CPU_COLS];
    lv[COL_IS_PADDING] = local;
    let mut nv = [0u64; NUM_CPU_COLS];
    nv[COL_IS_PADDING] = next;
    let mut out = [0u64; NUM_VALUES];
    let answer = pair::pair_values(&masks, &lv, &nv, z_last, first, &mut out[..room]);
    lines::answer(rt, words, answer);
    answer
}

// "225 and 226 buffer values"   (document 01)
#[tactic(auto, using(crate::proofs::Answers::told_by_number), unfolding(pair_checks::specs::PairValues::pair_values_refusal, refusals::specs::Refusal::canonical, refusals::specs::Refusal::distinct))]
fn buffers(rt: HostRuntime) {
    check::expect(
        ask(rt, "a buffer of 225 values", 0, 0, 0, 0, 1, 225) == Err(Refusal::ValueBuffer),
    );
    check::expect(ask(rt, "a buffer of 226 values", 0, 0, 0, 0, 1, 226) == Ok(()));
}

// "p−1 and p"   (document 01), in each place that the entry takes a number
#[tactic(auto, using(crate::proofs::Answers::told_by_number), unfolding(pair_checks::specs::PairValues::pair_values_refusal, refusals::specs::Refusal::canonical, refusals::specs::Refusal::distinct))]
fn limits(rt: HostRuntime) {
    check::expect(ask(rt, "a mask p - 1", P - 1, 0, 0, 0, 1, 226) == Ok(()));
    check::expect(ask(rt, "a mask p", P, 0, 0, 0, 1, 226) == Err(Refusal::MaskContents));
    check::expect(ask(rt, "a column p - 1", 0, P - 1, 0, 0, 1, 226) == Ok(()));
    check::expect(ask(rt, "a column p", 0, P, 0, 0, 1, 226) == Err(Refusal::RowContents));
    check::expect(ask(rt, "a column p - 1 of the next row", 0, 0, P - 1, 0, 1, 226) == Ok(()));
    check::expect(
        ask(rt, "a column p of the next row", 0, 0, P, 0, 1, 226) == Err(Refusal::RowContents),
    );
    check::expect(ask(rt, "z_last p - 1", 0, 0, 0, P - 1, 1, 226) == Ok(()));
    check::expect(ask(rt, "z_last p", 0, 0, 0, P, 1, 226) == Err(Refusal::NotBelowP));
    check::expect(ask(rt, "lagrange_basis_first p - 1", 0, 0, 0, 0, P - 1, 226) == Ok(()));
    check::expect(ask(rt, "lagrange_basis_first p", 0, 0, 0, 0, P, 226) == Err(Refusal::NotBelowP));
}

pub fn edges(rt: HostRuntime) {
    buffers(rt);
    limits(rt);
}
