// CpuAdjacentRowWrapper::from_vars and CpuStark::constraint_wrapper_cols (A).
#![tactic(auto, unfolding(algebra::specs::Expr::eval, table::specs::Entry::values, table::specs::CpuStark::lv_is_ext_inst, table::specs::CpuStark::lv_ext_length, table::specs::CpuStark::constraint_wrapper_cols, residue::specs::Residues::sub_p))]

ghost use Rattle.std.specs.Prelude.{◌≡◌, []};
ghost use Rattle.algebra.specs.Expr.{eval};
ghost use Rattle.residue.specs.Residues.{residues};
ghost use Rattle.table.specs.Cells.{cells};
ghost use Rattle.table.specs.Entry.{values};
ghost use Rattle.table.specs.CpuStark.{lv_is_ext_inst, lv_ext_length, constraint_wrapper_cols};

use crate::counted_row::CountedRow;
use residue::Residue;
use sums::Sum;
use table::Row;
use table::columns::*;

// Whether the row's instruction has ext lines: the wrapper's lv_is_ext_inst, and its nv_is_ext_inst for the
// next row.
pub fn is_ext_inst(row: &Row) -> Residue
    ensures { result ≡ eval residues (cells [] row.now [] 0 0) lv_is_ext_inst }
{
    let storage = row.at(COL_S_SLOAD) + row.at(COL_S_SSTORE);
    let tape = storage + row.at(COL_S_TLOAD) + row.at(COL_S_TSTORE);
    tape + row.at(COL_S_CALL_SC) + row.at(COL_S_END)
}

// How many ext lines the row's instruction has.
pub fn lv_ext_length(lv: &Row) -> Residue
    ensures { result ≡ eval residues (cells [] lv.now [] 0 0) lv_ext_length }
{
    let one = Residue::ONE;
    let tload_length = lv.at(COL_OP0) * lv.at(COL_OP1) + (one - lv.at(COL_OP0));
    let with_tstore = Sum::from(lv.at(COL_S_SLOAD) + lv.at(COL_S_SSTORE))
        .plus(lv.at(COL_S_TLOAD), tload_length)
        .plus(lv.at(COL_S_TSTORE), lv.at(COL_OP1))
        .reduced();
    Sum::from(with_tstore + lv.at(COL_S_CALL_SC))
        .plus(lv.at(COL_S_END), one - lv.at(COL_IS_ENTRY_SC))
        .reduced()
}

pub fn constraint_wrapper_cols(counted: &CountedRow, nv: &Row, z_last: Residue) -> [Residue; 7]
    ensures { result ≡ values residues (cells [] counted.now nv.now z_last 0) constraint_wrapper_cols }
{
    let one = Residue::ONE;
    let lv = counted.row();
    let lv_is_padding = lv.at(COL_IS_PADDING);
    let nv_is_padding = nv.at(COL_IS_PADDING);
    let is_in_same_tx = lv.at(COL_IS_NEXT_LINE_SAME_TX);
    let is_crossing_inst = lv.at(COL_IS_NEXT_LINE_DIFF_INST);
    let padding_diff = nv_is_padding - lv_is_padding;
    let nv_not_padding = one - nv_is_padding;
    let tx_idx_diff = nv.at(COL_TX_IDX) - lv.at(COL_TX_IDX);
    let missing_ext_lines = counted.ext_length() - lv.at(COL_EXT_CNT);
    [
        // padding from zero to one, and padding row op is end.
        lv_is_padding * (lv_is_padding - one),
        padding_diff * (padding_diff - one) * z_last,
        lv_is_padding * (lv.at(COL_S_END) - one),
        // entry sc env_idx = 0
        lv.at(COL_IS_ENTRY_SC) * nv.at(COL_ENV_IDX),
        // if in same tx, tx_idx should be same
        nv_not_padding * is_in_same_tx * tx_idx_diff,
        // if not same tx, diff of tx_idx should be 1
        nv_not_padding * (one - is_in_same_tx) * (tx_idx_diff - one) * z_last,
        // when crossing inst, ext cnt must be ext length.
        is_crossing_inst * missing_ext_lines,
    ]
}
