// The constraints of tape.rs on the ext lines of tload and tstore (M).
#![tactic(auto, unfolding(algebra::specs::Expr::eval, residue::specs::Residues::sub_p, table::specs::Entry::values, table::specs::Tape::tape_ext_lines, table::specs::Tape::tape_first_ext_line))]

ghost use Rattle.std.specs.Prelude.{◌≡◌, []};
ghost use Rattle.residue.specs.Residues.{residues};
ghost use Rattle.table.specs.Cells.{cells};
ghost use Rattle.table.specs.Entry.{values};
ghost use Rattle.table.specs.Tape.{tape_ext_lines, tape_first_ext_line};

use cpu_factors::FactoredRow;
use residue::Residue;
use table::Row;
use table::columns::*;

// 164 to 169: the ext lines of tload and tstore
pub fn tape_ext_lines(factored: &FactoredRow, nv: &Row) -> [Residue; 6]
    ensures { result ≡ values residues (cells [] factored.now.row.now nv.now 0 0) tape_ext_lines }
{
    let one = Residue::ONE;
    let lv = factored.row;
    let nv_is_ext_line = nv.at(COL_IS_EXT_LINE);
    let s_tstore = lv.at(COL_S_TSTORE);
    let tape_addr = lv.at(COL_S_OP0_START);
    let nv_tape_addr = nv.at(COL_S_OP0_START);
    let to_tape_ext = (nv.at(COL_S_TSTORE) + nv.at(COL_S_TLOAD)) * nv_is_ext_line;
    let tstore_ext = s_tstore * lv.at(COL_IS_EXT_LINE);
    let tstore_end = s_tstore * (one - nv_is_ext_line);
    [
        // op0 and op1 not change in ext lines
        to_tape_ext * (nv.at(COL_OP0) - lv.at(COL_OP0)),
        to_tape_ext * (nv.at(COL_OP1) - lv.at(COL_OP1)),
        // aux0 is addr in ext lines, and increase by one
        factored.tape_ext_line * nv_is_ext_line * (nv.at(COL_AUX0) - lv.at(COL_AUX0) - one),
        // COL_S_OP0[0] is tape-addr in ext lines, and increase by one in ext lines
        factored.tstore_main_line * (lv.at(COL_TP) - nv_tape_addr),
        tstore_ext * nv_is_ext_line * (nv_tape_addr - tape_addr - one),
        tstore_end * (nv.at(COL_TP) - tape_addr - one),
    ]
}

// 170 to 174: from the main line to the first ext line
pub fn tape_first_ext_line(factored: &FactoredRow, nv: &Row) -> [Residue; 5]
    ensures { result ≡ values residues (cells [] factored.now.row.now nv.now 0 0) tape_first_ext_line }
{
    let one = Residue::ONE;
    let lv = factored.row;
    let is_main_line = one - lv.at(COL_IS_EXT_LINE);
    let s_tload = lv.at(COL_S_TLOAD);
    let op0 = lv.at(COL_OP0);
    let op1 = lv.at(COL_OP1);
    let nv_tape_addr = nv.at(COL_S_OP0_START);
    let tape_addr_diff = nv_tape_addr - lv.at(COL_S_OP0_START);
    [
        // main and first ext for tload (flag == 1)
        s_tload * op0 * is_main_line * (nv_tape_addr + op1 - lv.at(COL_TP)),
        // main and first ext for tload (flag == 0)
        s_tload * (one - op0) * is_main_line * (nv_tape_addr - op1),
        factored.tape_ext_line * nv.at(COL_IS_EXT_LINE) * (tape_addr_diff - one),
        // for tstore, main op0 equals first ext line's aux0
        factored.tstore_main_line * (op0 - nv.at(COL_AUX0)),
        // for tload, main dst equals first ext line's aux0
        s_tload * is_main_line * (lv.at(COL_DST) - nv.at(COL_AUX0)),
    ]
}
