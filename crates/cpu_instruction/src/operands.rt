// constraint_operands_mathches_registers: the selectors of the operands, and the registers that they
// choose.
#![tactic(auto, unfolding(algebra::specs::Expr::eval, table::specs::Entry::values, table::specs::Entry::plus_all, parts::specs::Parts::plus_up_to, table::specs::CpuStark::selector_sum, table::specs::CpuStark::selected, table::specs::CpuStark::selected_next, table::specs::CpuStark::operand_sums, residue::specs::Residues::sub_p))]

ghost use Rattle.std.specs.Prelude.{◌≡◌, [], ◌+◌, ◌≤◌, get_or};
ghost use Rattle.residue.specs.Residues.{residues, mul_p};
ghost use Rattle.table.specs.Columns.{REGISTER-NUM, NUM-CPU-COLS, COL-REGS-START};
ghost use Rattle.table.specs.Cells.{cells};
ghost use Rattle.table.specs.Entry.{values};
ghost use Rattle.table.specs.CpuStark.{selectors_binary, operand_sums};
ghost use Rattle.parts.specs.Parts.{plus_up_to};

use residue::Residue;
use row_sums::{plus_products, sum};
use table::Row;
use table::columns::*;

// The ten selectors from column `start` on should be binary. (only used as selector in main line)
// Kept: a column is asked for as a number, here and below; judge_columns says why.
pub fn selectors_binary(lv: &Row, start: usize) -> [Residue; REGISTER_NUM]
    requires columns { start + REGISTER-NUM ≤ NUM-CPU-COLS }
    ensures { result ≡ values residues (cells [] lv.now [] 0 0) (selectors_binary start) }
{
    let main_line = Residue::ONE - lv.at(COL_IS_EXT_LINE);
    std::array::from_fn(|i| {
        let selector = lv.at(start + i);
        (main_line * selector).times_one_minus(selector)
    })
}

// The sum of the ten selectors from column `start` on.
fn selector_sum(lv: &Row, start: usize) -> Residue
    requires { start + REGISTER-NUM ≤ NUM-CPU-COLS }
    ensures { result ≡ plus_up_to 0 (λ i. get_or lv.now (start + i) 0) REGISTER-NUM }
{
    sum(lv.words(), start, REGISTER_NUM)
}

// The register that the ten selectors from column `start` on choose: the registers of `regs`, each times its selector.
fn selected<'a>(lv: &Row<'a>, start: usize, regs: &Row<'a>) -> Residue
    requires { start + REGISTER-NUM ≤ NUM-CPU-COLS }
    ensures { result ≡ plus_up_to 0
        (λ i. mul_p (get_or lv.now (start + i) 0) (get_or regs.now (COL-REGS-START + i) 0)) REGISTER-NUM }
{
    plus_products(
        Residue::ZERO,
        lv.words(),
        start,
        regs.words(),
        COL_REGS_START,
        REGISTER_NUM,
    )
}

// At most one register is chosen for each operand, and it holds the operand.
pub fn operand_sums(lv: &Row, nv: &Row) -> [Residue; 6]
    ensures { result ≡ values residues (cells [] lv.now nv.now 0 0) operand_sums }
{
    let one = Residue::ONE;
    let main_line = one - lv.at(COL_IS_EXT_LINE);
    let sum_s_op0 = selector_sum(lv, COL_S_OP0_START);
    let sum_s_op1 = selector_sum(lv, COL_S_OP1_START);
    let sum_s_dst = selector_sum(lv, COL_S_DST_START);
    let uses_op0 = main_line * sum_s_op0;
    let uses_op1 = main_line * sum_s_op1;
    let uses_dst = main_line * sum_s_dst;
    let op0_sum = selected(lv, COL_S_OP0_START, lv);
    let op1_sum = selected(lv, COL_S_OP1_START, lv);
    let dst_sum = selected(lv, COL_S_DST_START, nv);
    [
        // Only one register used for op0.
        uses_op0 * (one - sum_s_op0),
        // Only one register used for op1.
        uses_op1 * (one - sum_s_op1),
        // Only one register used for dst.
        uses_dst * (one - sum_s_dst),
        // Op and register permutation.
        uses_op0 * (lv.at(COL_OP0) - op0_sum),
        uses_op1 * (lv.at(COL_OP1) - op1_sum),
        uses_dst * (lv.at(COL_DST) - dst_sum),
    ]
}
