// The constraints of tape.rs on tp, and on the filter of the tape (M).
#![tactic(auto, unfolding(algebra::specs::Expr::eval, residue::specs::Residues::sub_p, table::specs::Entry::values, table::specs::Tape::tape_tp, table::specs::Tape::tape_filter))]

ghost use Rattle.std.specs.Prelude.{◌≡◌, []};
ghost use Rattle.residue.specs.Residues.{residues};
ghost use Rattle.table.specs.Cells.{cells};
ghost use Rattle.table.specs.Entry.{values};
ghost use Rattle.table.specs.Tape.{tape_tp, tape_filter};

use cpu_factors::FactoredRow;
use residue::Residue;
use table::Row;
use table::columns::*;

// 175 to 180: tp only changes when tstore last ext line and sccall next line
pub fn tape_tp(factored: &FactoredRow, nv: &Row) -> [Residue; 6]
    ensures { result ≡ values residues (cells [] factored.now.row.now nv.now 0 0) tape_tp }
{
    let one = Residue::ONE;
    let lv = factored.row;
    let is_in_same_tx = lv.at(COL_IS_NEXT_LINE_SAME_TX);
    let nv_is_ext_line = nv.at(COL_IS_EXT_LINE);
    let s_tstore = lv.at(COL_S_TSTORE);
    let nv_s_call_sc = nv.at(COL_S_CALL_SC);
    let nv_tp = nv.at(COL_TP);
    let tp_diff = nv_tp - lv.at(COL_TP);
    [
        // not tstore and sccall, tp not change
        is_in_same_tx * (one - s_tstore - nv_s_call_sc) * tp_diff,
        // for tstore, main only last ext line tp change
        s_tstore * nv_is_ext_line * tp_diff,
        s_tstore * (one - nv_is_ext_line) * (nv_tp - lv.at(COL_S_OP0_START) - one),
        // for sccall, main tp equals ext line's tp; ext line next tp += 12;
        (one - lv.at(COL_S_CALL_SC)) * nv_s_call_sc * tp_diff,
        factored.call_sc_main_line * tp_diff,
        factored.call_sc_ext_line * (tp_diff - Residue::new(12)),
    ]
}

// 181 to 184: filter for tload and tstore: tstore, tload ext lines
#[tactic(auto, using(residue::proofs::Laws::add_p_comm), unfolding(algebra::specs::Expr::eval, residue::specs::Residues::sub_p, table::specs::Entry::values, table::specs::Tape::tape_filter))]
pub fn tape_filter(factored: &FactoredRow) -> [Residue; 4]
    ensures { result ≡ values residues (cells [] factored.now.row.now [] 0 0) tape_filter }
{
    let one = Residue::ONE;
    let lv = factored.row;
    let s_tload = lv.at(COL_S_TLOAD);
    let s_tstore = lv.at(COL_S_TSTORE);
    let filter = lv.at(COL_FILTER_TAPE_LOOKING);
    let not_filter = one - filter;
    [
        filter * not_filter,
        // non tstore, tload, sccall should be 0
        filter * (one - s_tload - s_tstore),
        // non ext line should be 0
        filter * (one - lv.at(COL_IS_EXT_LINE)),
        // tstore/tload ext line should be 1
        factored.tape_ext_line * not_filter,
    ]
}
