// constraint_opcode_selector: the 19 selectors of the opcode.
#![tactic(auto, unfolding(algebra::specs::Expr::eval, table::specs::Entry::values, table::specs::Entry::plus_all, parts::specs::Parts::plus_up_to, table::specs::CpuStark::opcode_products, table::specs::CpuStark::sum_s_op, table::specs::CpuStark::opcode_sums, residue::specs::Residues::sub_p), using(crate::proofs::Laws::opcode_parts))]

ghost use Rattle.std.specs.Prelude.{◌≡◌, []};
ghost use Rattle.algebra.specs.Expr.{eval};
ghost use Rattle.residue.specs.Residues.{residues};
ghost use Rattle.table.specs.Cells.{cells};
ghost use Rattle.table.specs.Entry.{values};
ghost use Rattle.table.specs.CpuStark.{opcode_products, opcode_selectors_binary, cal_opcode, opcode_sums};

use residue::Residue;
use row_sums::{plus_products, sum};
use table::columns::*;
use table::masks::*;
use table::{Masks, Row};

// Where a selector of several opcodes is on, the opcode is one of them.
pub fn opcode_products(lv: &Row, masks: &Masks) -> [Residue; 2]
    ensures { result ≡ values residues (cells masks.now lv.now [] 0 0) opcode_products }
{
    let opcode = lv.at(COL_OPCODE);
    let not_add = lv.at(COL_S_SIMPLE_ARITHMATIC_OP) * (opcode - masks.at(ADD));
    let nor_mul = not_add * (opcode - masks.at(MUL));
    let nor_eq = nor_mul * (opcode - masks.at(EQ));
    let nor_neq = nor_eq * (opcode - masks.at(NEQ));
    let nor_assert = nor_neq * (opcode - masks.at(ASSERT));
    let not_and = lv.at(COL_S_BITWISE) * (opcode - masks.at(AND));
    let nor_or = not_and * (opcode - masks.at(OR));
    let nor_xor = nor_or * (opcode - masks.at(XOR));
    [nor_assert, nor_xor]
}

// Each opcode selector should be binary.
pub fn opcode_selectors_binary(lv: &Row) -> [Residue; NUM_OP_SELECTOR]
    ensures { result ≡ values residues (cells [] lv.now [] 0 0) opcode_selectors_binary }
{
    std::array::from_fn(|i| {
        let selector = lv.at(COL_S_SIMPLE_ARITHMATIC_OP + i);
        selector.times_one_minus(selector)
    })
}

// The selectors times their opcodes; the two selectors of several opcodes count 0.
pub fn cal_opcode(lv: &Row, masks: &Masks) -> Residue
    ensures { result ≡ eval residues (cells masks.now lv.now [] 0 0) cal_opcode }
{
    let columns = lv.words();
    let opcodes = masks.words();
    let to_rc = plus_products(Residue::ZERO, columns, COL_S_MOV, opcodes, MOV, NOT - MOV);
    plus_products(to_rc, columns, COL_S_NOT, opcodes, NOT, NUM_MASKS - NOT)
}

// The selectors' sum, and the opcode that they choose.
pub fn opcode_sums(lv: &Row, masks: &Masks) -> [Residue; 2]
    ensures { result ≡ values residues (cells masks.now lv.now [] 0 0) opcode_sums }
{
    let one = Residue::ONE;
    let sum_s_op = sum(lv.words(), COL_S_SIMPLE_ARITHMATIC_OP, NUM_OP_SELECTOR);
    let one_opcode = one - lv.at(COL_S_BITWISE) - lv.at(COL_S_SIMPLE_ARITHMATIC_OP);
    [
        // Only one opcode selector enabled.
        one - sum_s_op,
        // The opcode is the one of its selector.
        (lv.at(COL_OPCODE) - cal_opcode(lv, masks)) * one_opcode,
    ]
}
