// The constraints of call_sc.rs on the ext line of sccall and of end (N).
#![tactic(auto, unfolding(algebra::specs::Expr::eval, residue::specs::Residues::sub_p, table::specs::Entry::values, table::specs::Entry::each, table::specs::CallSc::call_sc_addresses, table::specs::CallSc::call_sc_operands))]

ghost use Rattle.std.specs.Prelude.{◌≡◌, []};
ghost use Rattle.residue.specs.Residues.{residues};
ghost use Rattle.table.specs.Cells.{cells};
ghost use Rattle.table.specs.Entry.{values};
ghost use Rattle.table.specs.CallSc.{call_sc_addresses, call_sc_operands};

use cpu_factors::FactoredRow;
use residue::Residue;
use table::Row;
use table::columns::*;

// 185 to 192: sccall ext line, op0_reg_sel[0~3] is caller storage addr, op0_reg_sel[4~7] is
// caller code addr
pub fn call_sc_addresses(factored: &FactoredRow, nv: &Row) -> [Residue; 8]
    ensures { result ≡ values residues (cells [] factored.now.row.now nv.now 0 0) call_sc_addresses }
{
    let lv = factored.row;
    let on_main_line = factored.call_sc_main_line;
    std::array::from_fn(|i| {
        let column = if i < 4 {
            COL_ADDR_STORAGE_RANGE_START + i
        } else {
            COL_ADDR_CODE_RANGE_START + (i - 4)
        };
        on_main_line * (nv.at(COL_S_OP0_START + i) - lv.at(column))
    })
}

// 193 to 196: the operands in the ext line of sccall and of end
#[tactic(auto, using(crate::proofs::Weights::weights), unfolding(algebra::specs::Expr::eval, residue::specs::Residues::sub_p, table::specs::Entry::values, table::specs::CallSc::call_sc_operands))]
pub fn call_sc_operands(factored: &FactoredRow, nv: &Row, z_last: Residue) -> [Residue; 4]
    ensures { result ≡ values residues (cells [] factored.now.row.now nv.now z_last 0) call_sc_operands }
{
    let lv = factored.row;
    let is_crossing_inst = lv.at(COL_IS_NEXT_LINE_DIFF_INST);
    let on_main_line = factored.call_sc_main_line;
    let to_end_ext = lv.at(COL_S_END) * (Residue::ONE - is_crossing_inst) * z_last;
    [
        // op0, op1 all same as main line
        on_main_line * (nv.at(COL_OP0) - lv.at(COL_OP0)),
        on_main_line * (nv.at(COL_OP1) - lv.at(COL_OP1)),
        // in ext line of end, aux0 is env_idx, aux1 is clk
        to_end_ext * (lv.at(COL_ENV_IDX) - nv.at(COL_AUX0)),
        to_end_ext * (lv.at(COL_CLK) - nv.at(COL_AUX1)),
    ]
}
