// CpuStark::constraint_tx_init (B): the first line, and the first line of each transaction, have their context
// at zero.
#![tactic(auto, unfolding(algebra::specs::Expr::eval, table::specs::Entry::values, table::specs::Entry::each, parts::specs::Parts::up_to, table::specs::CpuStark::tx_init_first_line_head, table::specs::CpuStark::tx_init_first_line_regs, table::specs::CpuStark::tx_init_each_tx_head, table::specs::CpuStark::tx_init_each_tx_regs, residue::specs::Residues::sub_p), using(parts::proofs::Registers::registers))]

ghost use Rattle.std.specs.Prelude.{◌≡◌, []};
ghost use Rattle.residue.specs.Residues.{residues};
ghost use Rattle.table.specs.Cells.{cells};
ghost use Rattle.table.specs.Entry.{values};
ghost use Rattle.table.specs.CpuStark.{tx_init_first_line_head, tx_init_first_line_regs, tx_init_each_tx_head, tx_init_each_tx_regs};

use parts::scaled;
use residue::Residue;
use table::Row;
use table::columns::*;

// first line context init
pub fn tx_init_first_line_head(lv: &Row, lagrange_basis_first: Residue) -> [Residue; 5]
    ensures { result ≡ values residues (cells [] lv.now [] 0 lagrange_basis_first) tx_init_first_line_head }
{
    [
        lv.at(COL_TX_IDX) * lagrange_basis_first,
        lv.at(COL_ENV_IDX) * lagrange_basis_first,
        lv.at(COL_CALL_SC_CNT) * lagrange_basis_first,
        lv.at(COL_CLK) * lagrange_basis_first,
        lv.at(COL_PC) * lagrange_basis_first,
    ]
}

pub fn tx_init_first_line_regs(lv: &Row, lagrange_basis_first: Residue) -> [Residue; REGISTER_NUM]
    ensures { result ≡ values residues (cells [] lv.now [] 0 lagrange_basis_first) tx_init_first_line_regs }
{
    scaled(lagrange_basis_first.value(), lv.words(), COL_REGS_START)
}

pub fn tx_init_each_tx_head(lv: &Row, nv: &Row, z_last: Residue) -> [Residue; 6]
    ensures { result ≡ values residues (cells [] lv.now nv.now z_last 0) tx_init_each_tx_head }
{
    let is_in_same_tx = lv.at(COL_IS_NEXT_LINE_SAME_TX);
    let tx_idx_diff = nv.at(COL_TX_IDX) - lv.at(COL_TX_IDX);
    let not_same_tx = (Residue::ONE - is_in_same_tx) * z_last;
    [
        // tx_idx should be the same or increase by one
        is_in_same_tx * tx_idx_diff * z_last,
        // each tx context init
        not_same_tx * nv.at(COL_ENV_IDX),
        not_same_tx * nv.at(COL_CALL_SC_CNT),
        not_same_tx * nv.at(COL_TP),
        not_same_tx * nv.at(COL_CLK),
        not_same_tx * nv.at(COL_PC),
    ]
}

pub fn tx_init_each_tx_regs(lv: &Row, nv: &Row, z_last: Residue) -> [Residue; REGISTER_NUM]
    ensures { result ≡ values residues (cells [] lv.now nv.now z_last 0) tx_init_each_tx_regs }
{
    let not_same_tx = (Residue::ONE - lv.at(COL_IS_NEXT_LINE_SAME_TX)) * z_last;
    scaled(not_same_tx.value(), nv.words(), COL_REGS_START)
}
