// The constraints that CpuStark::eval_packed_generic yields itself (C).
#![tactic(auto, unfolding(algebra::specs::Expr::eval, table::specs::Entry::values, table::specs::Entry::each, parts::specs::Ctx::ctx_differences, table::specs::CpuStark::body_tx_idx, table::specs::CpuStark::body_ctx_regs, table::specs::CpuStark::body_filter_imm, residue::specs::Residues::sub_p), using(parts::proofs::Registers::registers))]

ghost use Rattle.std.specs.Prelude.{◌≡◌, []};
ghost use Rattle.residue.specs.Residues.{residues};
ghost use Rattle.table.specs.Cells.{cells};
ghost use Rattle.table.specs.Entry.{values};
ghost use Rattle.table.specs.CpuStark.{body_tx_idx, body_ctx_regs, body_filter_imm};

use parts::context::ctx_differences;
use residue::Residue;
use table::Row;
use table::columns::*;

// tx_idx not change or increase by 1
pub fn body_tx_idx(lv: &Row, nv: &Row, z_last: Residue) -> [Residue; 2]
    ensures { result ≡ values residues (cells [] lv.now nv.now z_last 0) body_tx_idx }
{
    let one = Residue::ONE;
    let nv_not_padding = one - nv.at(COL_IS_PADDING);
    let not_end = nv_not_padding * (one - lv.at(COL_S_END));
    let entry_sc = nv_not_padding * lv.at(COL_IS_ENTRY_SC);
    let entry_sc_end = entry_sc * lv.at(COL_S_END);
    let tx_idx_diff = nv.at(COL_TX_IDX) - lv.at(COL_TX_IDX);
    [
        not_end * tx_idx_diff * z_last,
        entry_sc_end * (tx_idx_diff - one) * z_last,
    ]
}

// ctx reg not change on normal opcodes
pub fn body_ctx_regs(lv: &Row, nv: &Row, z_last: Residue) -> [Residue; 8]
    ensures { result ≡ values residues (cells [] lv.now nv.now z_last 0) body_ctx_regs }
{
    let one = Residue::ONE;
    let nv_not_padding = one - nv.at(COL_IS_PADDING);
    let not_end = nv_not_padding * (one - lv.at(COL_S_END));
    let normal_opcode = not_end * (one - lv.at(COL_S_CALL_SC));
    ctx_differences((normal_opcode * z_last).value(), lv, nv)
}

// filter imm to prog
pub fn body_filter_imm(lv: &Row) -> [Residue; 2]
    ensures { result ≡ values residues (cells [] lv.now [] 0 0) body_filter_imm }
{
    let one = Residue::ONE;
    let main_line = one - lv.at(COL_IS_PADDING) - lv.at(COL_IS_EXT_LINE);
    let is_memory = lv.at(COL_S_MLOAD) + lv.at(COL_S_MSTORE);
    let not_looking = one - lv.at(COL_FILTER_LOOKING_PROG_IMM);
    [
        main_line * lv.at(COL_OP1_IMM) * not_looking,
        main_line * is_memory * not_looking,
    ]
}
