// CpuStark: the groups of this stage that are made of several pieces.
#![tactic(auto, unfolding(algebra::specs::Expr::eval, table::specs::Entry::values, table::specs::Entry::each, table::specs::CpuStark::constraint_opcode_selector, table::specs::CpuStark::opcode_products, table::specs::CpuStark::opcode_selectors_binary, table::specs::CpuStark::opcode_sums, table::specs::CpuStark::constraint_operands_mathches_registers, table::specs::CpuStark::selectors_binary, table::specs::CpuStark::operand_sums, table::specs::Entry::plus_all, table::specs::CpuStark::sum_s_op, table::specs::CpuStark::cal_opcode))]

ghost use Rattle.std.specs.Prelude.{◌≡◌, [], ◌++◌, ◌≤◌, length, drop};
ghost use Rattle.residue.specs.Residues.{residues};
ghost use Rattle.table.specs.Cells.{cells};
ghost use Rattle.table.specs.Entry.{values};
ghost use Rattle.table.specs.CpuStark.{constraint_opcode_selector, constraint_operands_mathches_registers};

use cpu_instruction::operands::{operand_sums, selectors_binary};
use cpu_opcode_selector::selectors::{opcode_products, opcode_selectors_binary, opcode_sums};
use parts::put_residues;
use table::columns::*;
use table::{Masks, Row};

pub fn constraint_opcode_selector(lv: &Row, masks: &Masks, out: &mut [u64])
    requires { 23 ≤ length out.old }
    ensures { out.new ≡ values residues (cells masks.now lv.now [] 0 0) constraint_opcode_selector ++ drop 23 out.old }
{
    fill_opcode_selector(lv, masks, &mut out[..23]);
}

// The same, in a buffer of just that length.
fn fill_opcode_selector(lv: &Row, masks: &Masks, out: &mut [u64])
    requires { length out.old ≡ 23 }
    ensures { out.new ≡ values residues (cells masks.now lv.now [] 0 0) constraint_opcode_selector }
{
    put_residues(&mut out[0..2], &opcode_products(lv, masks));
    put_residues(&mut out[2..21], &opcode_selectors_binary(lv));
    put_residues(&mut out[21..23], &opcode_sums(lv, masks));
}

pub fn constraint_operands_mathches_registers(lv: &Row, nv: &Row, out: &mut [u64])
    requires { 36 ≤ length out.old }
    ensures { out.new
        ≡ values residues (cells [] lv.now nv.now 0 0) constraint_operands_mathches_registers ++ drop 36 out.old }
{
    fill_operands(lv, nv, &mut out[..36]);
}

// The same, in a buffer of just that length.
fn fill_operands(lv: &Row, nv: &Row, out: &mut [u64])
    requires { length out.old ≡ 36 }
    ensures { out.new ≡ values residues (cells [] lv.now nv.now 0 0) constraint_operands_mathches_registers }
{
    put_residues(&mut out[0..10], &selectors_binary(lv, COL_S_OP0_START));
    put_residues(&mut out[10..20], &selectors_binary(lv, COL_S_OP1_START));
    put_residues(&mut out[20..30], &selectors_binary(lv, COL_S_DST_START));
    put_residues(&mut out[30..36], &operand_sums(lv, nv));
}
