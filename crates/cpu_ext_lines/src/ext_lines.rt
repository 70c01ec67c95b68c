// CpuStark::constraint_ext_lines (D): how many ext lines an instruction has, and what they keep.
#![tactic(auto, unfolding(algebra::specs::Expr::eval, table::specs::Entry::values, table::specs::Entry::each, table::specs::CpuStark::lv_is_ext_inst, table::specs::CpuStark::nv_is_ext_inst, table::specs::CpuStark::lv_ext_length, table::specs::CpuStark::ext_lines_counts, table::specs::CpuStark::ext_lines_opcode, table::specs::CpuStark::ext_lines_selectors, table::specs::CpuStark::ext_lines_op1_imm, residue::specs::Residues::sub_p))]

ghost use Rattle.std.specs.Prelude.{◌≡◌, []};
ghost use Rattle.residue.specs.Residues.{residues};
ghost use Rattle.table.specs.Cells.{cells};
ghost use Rattle.table.specs.Entry.{values};
ghost use Rattle.table.specs.CpuStark.{ext_lines_counts, ext_lines_opcode, ext_lines_selectors, ext_lines_op1_imm};

use cpu_wrapper::counted_row::CountedRow;
use cpu_wrapper::wrapper::is_ext_inst;
use residue::Residue;
use table::Row;
use table::columns::*;

pub fn ext_lines_counts(counted: &CountedRow, nv: &Row) -> [Residue; 4]
    ensures { result ≡ values residues (cells [] counted.now nv.now 0 0) ext_lines_counts }
{
    let one = Residue::ONE;
    let lv = counted.row();
    let lv_is_ext_inst = is_ext_inst(lv);
    let nv_is_ext_inst = is_ext_inst(nv);
    let lv_is_ext_line = lv.at(COL_IS_EXT_LINE);
    let nv_is_ext_line = nv.at(COL_IS_EXT_LINE);
    let missing_ext_lines = counted.ext_length() - lv.at(COL_EXT_CNT);
    let ext_cnt_diff = nv.at(COL_EXT_CNT) - lv.at(COL_EXT_CNT);
    [
        // constraint is_ext_line
        (one - lv_is_ext_inst) * lv_is_ext_line,
        lv_is_ext_inst * missing_ext_lines * (one - nv_is_ext_line),
        // constraint ext_cnt
        lv_is_ext_inst * (one - lv_is_ext_line) * lv.at(COL_EXT_CNT),
        nv_is_ext_inst * nv_is_ext_line * (ext_cnt_diff - one),
    ]
}

// opcode, opcode selector, op1_imm not change
pub fn ext_lines_opcode(lv: &Row, nv: &Row) -> [Residue; 1]
    ensures { result ≡ values residues (cells [] lv.now nv.now 0 0) ext_lines_opcode }
{
    [nv.at(COL_IS_EXT_LINE) * (nv.at(COL_OPCODE) - lv.at(COL_OPCODE))]
}

pub fn ext_lines_selectors(lv: &Row, nv: &Row) -> [Residue; NUM_OP_SELECTOR]
    ensures { result ≡ values residues (cells [] lv.now nv.now 0 0) ext_lines_selectors }
{
    let nv_is_ext_line = nv.at(COL_IS_EXT_LINE);
    std::array::from_fn(|i| {
        let selector = COL_S_SIMPLE_ARITHMATIC_OP + i;
        nv_is_ext_line * (nv.at(selector) - lv.at(selector))
    })
}

// Kept: one expression, as `ext_lines_opcode` is, each with its own part of the table.
pub fn ext_lines_op1_imm(lv: &Row, nv: &Row) -> [Residue; 1]
    ensures { result ≡ values residues (cells [] lv.now nv.now 0 0) ext_lines_op1_imm }
{
    [nv.at(COL_IS_EXT_LINE) * (nv.at(COL_OP1_IMM) - lv.at(COL_OP1_IMM))]
}
