// CpuStark::constraint_env_idx (E): the number of the environment and the count of call_sc.
ghost use Rattle.std.specs.Prelude.{◌≡◌, []};
ghost use Rattle.residue.specs.Residues.{residues};
ghost use Rattle.table.specs.Cells.{cells};
ghost use Rattle.table.specs.Entry.{values};
ghost use Rattle.table.specs.CpuStark.{constraint_env_idx};

use residue::Residue;
use table::Row;
use table::columns::*;

#[tactic(auto, unfolding(algebra::specs::Expr::eval, table::specs::Entry::values, table::specs::CpuStark::constraint_env_idx, residue::specs::Residues::sub_p))]
pub fn constraint_env_idx(lv: &Row, nv: &Row, z_last: Residue) -> [Residue; 7]
    ensures { result ≡ values residues (cells [] lv.now nv.now z_last 0) constraint_env_idx }
{
    let one = Residue::ONE;
    let is_call_sc = lv.at(COL_S_CALL_SC);
    let is_crossing_inst = lv.at(COL_IS_NEXT_LINE_DIFF_INST);
    let is_in_same_tx = lv.at(COL_IS_NEXT_LINE_SAME_TX);
    let leaves_call_sc = is_call_sc * is_crossing_inst;
    let stays_in_call_sc = is_call_sc * (one - is_crossing_inst);
    let cnt_diff = nv.at(COL_CALL_SC_CNT) - lv.at(COL_CALL_SC_CNT);
    let env_idx_diff = nv.at(COL_ENV_IDX) - lv.at(COL_ENV_IDX);
    [
        // call_sc_cnt only increase by 1 on last ext line of call_sc
        leaves_call_sc * (cnt_diff - one) * z_last,
        is_in_same_tx * (one - is_call_sc) * cnt_diff * z_last,
        stays_in_call_sc * cnt_diff,
        // env_idx can change on last ext line of call_sc or ext of end, other lines should be the same
        // last ext line of call_sc
        leaves_call_sc * (nv.at(COL_ENV_IDX) - lv.at(COL_CALL_SC_CNT)),
        // not call_sc and end, env_idx should be the same
        (one - is_call_sc - lv.at(COL_S_END)) * env_idx_diff,
        // call_sc but not last ext line, env_idx should be the same
        stays_in_call_sc * env_idx_diff,
        // ext of end, env_idx should be the same
        lv.at(COL_S_END) * lv.at(COL_IS_EXT_LINE) * env_idx_diff,
    ]
}
