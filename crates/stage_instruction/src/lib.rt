// The second stage of the table (F to H), written to a buffer group by group.
#![tactic(auto)]

ghost use Rattle.std.specs.Prelude.{◌≡◌, ◌++◌, ◌≤◌, length, drop};
ghost use Rattle.residue.specs.Residues.{residues};
ghost use Rattle.table.specs.Cells.{cells};
ghost use Rattle.table.specs.Entry.{values};
ghost use Rattle.stage_instruction.specs.Stage.{instruction};

use cpu_instruction::encode::constraint_instruction_encode;
use cpu_stark::*;
use parts::put_residues;
use table::{Masks, Row};

pub mod cpu_stark;

// Values 83 to 144.
pub fn eval_instruction(lv: &Row, nv: &Row, masks: &Masks, out: &mut [u64])
    requires { 62 ≤ length out.old }
    ensures { out.new ≡ values residues (cells masks.now lv.now nv.now 0 0) instruction ++ drop 62 out.old }
{
    fill_instruction(lv, nv, masks, &mut out[..62]);
}

// The same, in a buffer of just that length.
#[tactic(auto, unfolding(algebra::specs::Expr::eval, table::specs::Entry::values, table::specs::Entry::each, table::specs::CpuStark::constraint_opcode_selector, table::specs::CpuStark::opcode_products, table::specs::CpuStark::opcode_selectors_binary, table::specs::CpuStark::opcode_sums, table::specs::CpuStark::constraint_operands_mathches_registers, table::specs::CpuStark::selectors_binary, table::specs::CpuStark::operand_sums, table::specs::Entry::plus_all, table::specs::CpuStark::sum_s_op, table::specs::CpuStark::cal_opcode, table::specs::CpuStark::selector_sum, table::specs::CpuStark::selected, table::specs::CpuStark::selected_next, table::specs::CpuStark::plus_shifted, table::specs::CpuStark::instruction, table::specs::CpuStark::constraint_instruction_encode, crate::specs::Stage::instruction))]
fn fill_instruction(lv: &Row, nv: &Row, masks: &Masks, out: &mut [u64])
    requires { length out.old ≡ 62 }
    ensures { out.new ≡ values residues (cells masks.now lv.now nv.now 0 0) instruction }
{
    constraint_opcode_selector(lv, masks, &mut out[0..23]);
    put_residues(&mut out[23..26], &constraint_instruction_encode(lv));
    constraint_operands_mathches_registers(lv, nv, &mut out[26..62]);
}
