// The constraints of call_sc.rs on the line after call_sc and after an ext line of end, and on the filters (N).
ghost use Rattle.std.specs.Prelude.{◌≡◌, []};
ghost use Rattle.residue.specs.Residues.{residues};
ghost use Rattle.table.specs.Cells.{cells};
ghost use Rattle.table.specs.Entry.{values};
ghost use Rattle.table.specs.CallSc.{call_sc_cleared_head, call_sc_cleared_regs, call_sc_ctx_regs, call_sc_end, call_sc_filters};

use cpu_factors::FactoredRow;
use parts::context::ctx_differences;
use parts::scaled;
use residue::Residue;
use table::Row;
use table::columns::*;

// 197 and 198: after call_sc, pc, clk, reg should be zero
#[tactic(auto, unfolding(algebra::specs::Expr::eval, table::specs::Entry::values, table::specs::CallSc::call_sc_cleared_head))]
pub fn call_sc_cleared_head(factored: &FactoredRow, nv: &Row) -> [Residue; 2]
    ensures { result ≡ values residues (cells [] factored.now.row.now nv.now 0 0) call_sc_cleared_head }
{
    [
        factored.after_call_sc * nv.at(COL_CLK),
        factored.after_call_sc * nv.at(COL_PC),
    ]
}

// 199 to 208: the registers
#[tactic(auto, unfolding(algebra::specs::Expr::eval, table::specs::Entry::values, table::specs::Entry::each, parts::specs::Parts::up_to, table::specs::CallSc::call_sc_cleared_regs))]
pub fn call_sc_cleared_regs(factored: &FactoredRow, nv: &Row) -> [Residue; 10]
    ensures { result ≡ values residues (cells [] factored.now.row.now nv.now 0 0) call_sc_cleared_regs }
{
    scaled(factored.after_call_sc.value(), nv.words(), COL_REGS_START)
}

// 209 to 216: ctx should be same as last line
#[tactic(auto, unfolding(algebra::specs::Expr::eval, residue::specs::Residues::sub_p, table::specs::Entry::values, table::specs::Entry::each, parts::specs::Ctx::ctx_differences, table::specs::CallSc::call_sc_ctx_regs))]
pub fn call_sc_ctx_regs(factored: &FactoredRow, nv: &Row) -> [Residue; 8]
    ensures { result ≡ values residues (cells [] factored.now.row.now nv.now 0 0) call_sc_ctx_regs }
{
    ctx_differences(factored.after_call_sc.value(), factored.row, nv)
}

// 217 and 218: end ext next line, pc, clk not change
#[tactic(auto, unfolding(algebra::specs::Expr::eval, residue::specs::Residues::sub_p, table::specs::Entry::values, table::specs::CallSc::call_sc_end))]
pub fn call_sc_end(factored: &FactoredRow, nv: &Row) -> [Residue; 2]
    ensures { result ≡ values residues (cells [] factored.now.row.now nv.now 0 0) call_sc_end }
{
    let lv = factored.row;
    let is_crossing_inst = lv.at(COL_IS_NEXT_LINE_DIFF_INST);
    let inside_end_ext = factored.end_ext_line * (Residue::ONE - is_crossing_inst);
    [
        inside_end_ext * (nv.at(COL_PC) - lv.at(COL_PC)),
        inside_end_ext * (nv.at(COL_CLK) - lv.at(COL_CLK)),
    ]
}

// 219 to 226: the filters of the ext lines
#[tactic(auto, unfolding(algebra::specs::Expr::eval, residue::specs::Residues::sub_p, table::specs::Entry::values, table::specs::CallSc::call_sc_filters))]
pub fn call_sc_filters(factored: &FactoredRow) -> [Residue; 8]
    ensures { result ≡ values residues (cells [] factored.now.row.now [] 0 0) call_sc_filters }
{
    let one = Residue::ONE;
    let lv = factored.row;
    let s_end = lv.at(COL_S_END);
    let sccall_filter = lv.at(IS_SCCALL_EXT_LINE);
    let not_sccall_filter = one - sccall_filter;
    let end_filter = lv.at(COL_FILTER_SCCALL_END);
    let not_end_filter = one - end_filter;
    [
        // filter: ext line of sccall is one
        sccall_filter * not_sccall_filter,
        (one - lv.at(COL_S_CALL_SC)) * sccall_filter,
        factored.call_sc_ext_line * not_sccall_filter,
        factored.call_sc_main_line * sccall_filter,
        // filter of end ext
        end_filter * not_end_filter,
        (one - s_end) * end_filter,
        s_end * (one - lv.at(COL_IS_EXT_LINE)) * end_filter,
        factored.end_ext_line * not_end_filter,
    ]
}
