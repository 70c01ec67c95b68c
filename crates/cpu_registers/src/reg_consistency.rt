// constraint_reg_consistency (K): an instruction changes no other register than the one that it writes.
ghost use Rattle.std.specs.Prelude.{◌≡◌, [], ◌+◌, get_or};
ghost use Rattle.algebra.specs.Expr.{eval};
ghost use Rattle.residue.specs.Residues.{residues, sub_p, mul_p};
ghost use Rattle.table.specs.Columns.{COL-REGS-START, COL-S-DST-START};
ghost use Rattle.table.specs.Cells.{cells};
ghost use Rattle.table.specs.Entry.{values};
ghost use Rattle.parts.specs.Parts.{up_to};
ghost use Rattle.table.specs.CpuStark.{multi_reg_change, dst_reg_changes, fp_consistency};

use residue::Residue;
use sums::Sum;
use table::Row;
use table::columns::*;

// The place of fp, the last register.
const FP: usize = REGISTER_NUM - 1;

// 1 on the rows that may change several registers at once.
#[tactic(auto, unfolding(algebra::specs::Expr::eval, residue::specs::Residues::sub_p, table::specs::CpuStark::multi_reg_change))]
pub fn multi_reg_change(lv: &Row) -> Residue
    ensures { result ≡ eval residues (cells [] lv.now [] 0 0) multi_reg_change }
{
    let is_crossing_inst = lv.at(COL_IS_NEXT_LINE_DIFF_INST);
    Sum::from(lv.at(COL_S_SLOAD) + lv.at(COL_S_PSDN))
        .plus(lv.at(COL_S_CALL_SC), is_crossing_inst)
        .plus(lv.at(COL_S_END), Residue::ONE - lv.at(COL_IS_EXT_LINE))
        .reduced()
}

// What each register but fp changes by, times f, where the instruction does not write it.
#[tactic(auto, unfolding(parts::specs::Parts::up_to))]
fn changes_unless_dst(f: Residue, lv: &Row, nv: &Row) -> [Residue; FP]
    ensures { result ≡ up_to 9 (λ i. mul_p (mul_p f (sub_p 1 (get_or lv.now (COL-S-DST-START + i) 0))) (sub_p (get_or nv.now (COL-REGS-START + i) 0) (get_or lv.now (COL-REGS-START + i) 0))) }
{
    std::array::from_fn(|i| {
        let register = COL_REGS_START + i;
        f.times_one_minus(lv.at(COL_S_DST_START + i)) * (nv.at(register) - lv.at(register))
    })
}

// 150 to 158: for normal opcode, only dst reg can change(not include fp)
#[tactic(auto, using(residue::proofs::Laws::mul_p_weight_first), unfolding(algebra::specs::Expr::eval, residue::specs::Residues::sub_p, parts::specs::Parts::up_to, table::specs::Entry::values, table::specs::Entry::each, table::specs::CpuStark::multi_reg_change, table::specs::CpuStark::dst_reg_changes))]
pub fn dst_reg_changes(lv: &Row, nv: &Row, z_last: Residue) -> [Residue; FP]
    ensures { result ≡ values residues (cells [] lv.now nv.now z_last 0) dst_reg_changes }
{
    let one_reg_change = (Residue::ONE - multi_reg_change(lv)) * z_last;
    changes_unless_dst(one_reg_change, lv, nv)
}

// 159: for fp consistency
#[tactic(auto, unfolding(algebra::specs::Expr::eval, residue::specs::Residues::sub_p, table::specs::Entry::values, table::specs::CpuStark::fp_consistency))]
pub fn fp_consistency(lv: &Row, nv: &Row, z_last: Residue) -> [Residue; 1]
    ensures { result ≡ values residues (cells [] lv.now nv.now z_last 0) fp_consistency }
{
    let one = Residue::ONE;
    let is_crossing_inst = lv.at(COL_IS_NEXT_LINE_DIFF_INST);
    let call_sc = lv.at(COL_S_CALL_SC) * is_crossing_inst;
    let fp_kept = one - lv.at(COL_S_RET) - call_sc - lv.at(COL_S_END);
    let fp_diff = nv.at(COL_REGS_START + FP) - lv.at(COL_REGS_START + FP);
    [fp_kept * (one - lv.at(COL_S_DST_START + FP)) * fp_diff * z_last]
}
