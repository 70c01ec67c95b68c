// The clock and the program counter of rows that stay in one environment.
ghost use Rattle.std.specs.Prelude.{◌≡◌, []};
ghost use Rattle.algebra.specs.Expr.{eval};
ghost use Rattle.residue.specs.Residues.{residues};
ghost use Rattle.table.specs.Cells.{cells};
ghost use Rattle.table.specs.Entry.{values};
ghost use Rattle.table.specs.CpuStark.{constraint_env_unchanged_clk, instruction_size, pc_next, constraint_env_unchanged_pc};
ghost use Rattle.cpu_flow.specs.Clk.{clk_kept as clk_kept_value};

use residue::Residue;
use sums::Sum;
use table::Row;
use table::columns::*;

// 145 and 146 (I)
#[tactic(auto, unfolding(algebra::specs::Expr::eval, residue::specs::Residues::sub_p, table::specs::Entry::values, table::specs::CpuStark::constraint_env_unchanged_clk))]
pub fn constraint_env_unchanged_clk(lv: &Row, nv: &Row) -> [Residue; 2]
    ensures { result ≡ values residues (cells [] lv.now nv.now 0 0) constraint_env_unchanged_clk }
{
    let one = Residue::ONE;
    let is_in_same_tx = lv.at(COL_IS_NEXT_LINE_SAME_TX);
    let not_call_sc_nor_end = one - lv.at(COL_S_CALL_SC) - lv.at(COL_S_END);
    let clk_diff = nv.at(COL_CLK) - lv.at(COL_CLK);
    let nv_is_ext_line = nv.at(COL_IS_EXT_LINE);
    [
        // next line is ext line, clk not change (except for end)
        nv_is_ext_line * (one - nv.at(COL_S_END)) * clk_diff,
        // when not change env, clk increase one when meet main line
        is_in_same_tx * not_call_sc_nor_end * (one - nv_is_ext_line) * (clk_diff - one),
    ]
}

// The number of words of the instruction: 2 for mload and mstore, else 1 and one more for an immediate.
#[tactic(auto, unfolding(algebra::specs::Expr::eval, residue::specs::Residues::sub_p, table::specs::CpuStark::instruction_size))]
pub fn instruction_size(lv: &Row) -> Residue
    ensures { result ≡ eval residues (cells [] lv.now [] 0 0) instruction_size }
{
    let one = Residue::ONE;
    let s_mload = lv.at(COL_S_MLOAD);
    let s_mstore = lv.at(COL_S_MSTORE);
    let is_other = one - s_mload - s_mstore;
    Sum::product(is_other.value(), (one + lv.at(COL_OP1_IMM)).value())
        .plus(s_mload + s_mstore, Residue::new(2))
        .reduced()
}

// Where the program counter goes from this row.
#[tactic(auto, unfolding(algebra::specs::Expr::eval, residue::specs::Residues::sub_p, table::specs::CpuStark::instruction_size, table::specs::CpuStark::pc_next))]
pub fn pc_next(lv: &Row) -> Residue
    ensures { result ≡ eval residues (cells [] lv.now [] 0 0) pc_next }
{
    let one = Residue::ONE;
    let s_jmp = lv.at(COL_S_JMP);
    let s_cjmp = lv.at(COL_S_CJMP);
    let s_call = lv.at(COL_S_CALL);
    let s_ret = lv.at(COL_S_RET);
    let op0 = lv.at(COL_OP0);
    let op1 = lv.at(COL_OP1);
    let pc_behind = lv.at(COL_PC) + instruction_size(lv);
    let cjmp_target = Sum::product((one - op0).value(), pc_behind.value())
        .plus(op0, op1)
        .reduced();
    let goes_on = one - (s_jmp + s_cjmp + s_call + s_ret);
    Sum::product(goes_on.value(), pc_behind.value())
        .plus(s_jmp, op1)
        .plus(s_cjmp, cjmp_target)
        .plus(s_call, op1)
        .plus(s_ret, lv.at(COL_DST))
        .reduced()
}

// 147 to 149 (J); 147 is 145 again
#[tactic(auto, unfolding(algebra::specs::Expr::eval, residue::specs::Residues::sub_p, table::specs::Entry::values, table::specs::CpuStark::instruction_size, table::specs::CpuStark::pc_next, table::specs::CpuStark::constraint_env_unchanged_pc))]
pub fn constraint_env_unchanged_pc(lv: &Row, nv: &Row, clk_kept: Residue) -> [Residue; 3]
    requires { clk_kept ≡ eval residues (cells [] lv.now nv.now 0 0) clk_kept_value }
    ensures { result ≡ values residues (cells [] lv.now nv.now 0 0) constraint_env_unchanged_pc }
{
    let one = Residue::ONE;
    let nv_is_main_line = one - nv.at(COL_IS_EXT_LINE);
    let not_end_nor_call_sc = one - lv.at(COL_S_END) - lv.at(COL_S_CALL_SC);
    let op0 = lv.at(COL_OP0);
    [
        // next line is ext line, pc not change (except for end): the comment says pc, the code clk
        clk_kept,
        nv_is_main_line * not_end_nor_call_sc * (nv.at(COL_PC) - pc_next(lv)),
        nv_is_main_line * lv.at(COL_S_CJMP) * op0 * (one - op0),
    ]
}
