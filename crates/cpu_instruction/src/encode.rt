// constraint_instruction_encode: the instruction word holds op1_imm, the selectors and the opcode.
#![tactic(auto, unfolding(algebra::specs::Expr::eval, table::specs::Entry::values, table::specs::CpuStark::constraint_instruction_encode, residue::specs::Residues::sub_p))]

ghost use Rattle.std.specs.Prelude.{◌≡◌, [], ◌+◌, ◌-◌, ◌%◌, ◌≤◌, get_or};
ghost use Rattle.algebra.specs.Prime.{p};
ghost use Rattle.algebra.specs.Expr.{eval};
ghost use Rattle.residue.specs.Residues.{residues};
ghost use Rattle.table.specs.Columns.{REGISTER-NUM, NUM-CPU-COLS};
ghost use Rattle.table.specs.Cells.{cells};
ghost use Rattle.table.specs.Entry.{values};
ghost use Rattle.table.specs.CpuStark.{instruction, constraint_instruction_encode};
ghost use Rattle.row_sums.specs.Digits.{doubled};

use residue::Residue;
use row_sums::{from_digits, pow2};
use sums::Sum;
use table::Row;
use table::columns::*;

// Its constants are the places of the instruction word.
#[derive(Clone, Copy)]
pub struct CpuStark {}

impl CpuStark {
    pub const OP1_IMM_SHIFT: u32 = 62;

    pub const OP0_SHIFT_START: u32 = 61;

    pub const OP1_SHIFT_START: u32 = 51;

    pub const DST_SHIFT_START: u32 = 41;
}

// How far below a group's first place its last one is.
const LAST: u32 = REGISTER_NUM as u32 - 1;

// The number that the ten selectors from column `start` on are the binary digits of.
fn number_of_selectors(lv: &Row, start: usize) -> Residue
    requires { start + REGISTER-NUM ≤ NUM-CPU-COLS }
    ensures { result ≡ doubled (λ i. get_or lv.now (start + (9 - i)) 0) REGISTER-NUM % p }
{
    from_digits(lv.words(), start)
}

// What the columns of the operands and of the opcode encode.
#[tactic(auto, unfolding(algebra::specs::Expr::eval, table::specs::CpuStark::instruction), using(row_sums::proofs::Laws::plus_shifted_is))]
pub fn instruction(lv: &Row) -> Residue
    ensures { result ≡ eval residues (cells [] lv.now [] 0 0) instruction }
{
    // From the high bits down, the order of each group is r9, r8, .. r0.
    let op1_imm_place = pow2(CpuStark::OP1_IMM_SHIFT);
    let op1_imm = Sum::product(lv.at(COL_OP1_IMM).value(), op1_imm_place.value());
    let with_op0 = op1_imm.plus(
        number_of_selectors(lv, COL_S_OP0_START),
        pow2(CpuStark::OP0_SHIFT_START - LAST),
    );
    let with_op1 = with_op0.plus(
        number_of_selectors(lv, COL_S_OP1_START),
        pow2(CpuStark::OP1_SHIFT_START - LAST),
    );
    let with_dst = with_op1.plus(
        number_of_selectors(lv, COL_S_DST_START),
        pow2(CpuStark::DST_SHIFT_START - LAST),
    );
    with_dst.reduced() + lv.at(COL_OPCODE)
}

// The instruction word is what the columns encode, and an immediate operand is the immediate value.
pub fn constraint_instruction_encode(lv: &Row) -> [Residue; 3]
    ensures { result ≡ values residues (cells [] lv.now [] 0 0) constraint_instruction_encode }
{
    let one = Residue::ONE;
    let op1_imm = lv.at(COL_OP1_IMM);
    let main_line = one - lv.at(COL_IS_EXT_LINE);
    [
        // op_imm should be binary.
        op1_imm * (one - op1_imm),
        // Constrain instruction encoding.
        main_line * (lv.at(COL_INST) - instruction(lv)),
        // When oprand exists, op1 is imm.
        main_line * (op1_imm * (lv.at(COL_OP1) - lv.at(COL_IMM_VAL))),
    ]
}
