// The last stage of the table (L to N), written to a buffer group by group.
#![tactic(auto)]

ghost use Rattle.std.specs.Prelude.{◌≡◌, ◌++◌, ◌≤◌, length, drop};
ghost use Rattle.residue.specs.Residues.{residues};
ghost use Rattle.table.specs.Cells.{cells};
ghost use Rattle.table.specs.Entry.{values};
ghost use Rattle.stage_opcodes.specs.Stage.{opcodes};

use cpu_factors::FactoredRow;
use cpu_simple_arithmatic_op::simple_arithmatic_op;
use parts::put_residues;
use residue::Residue;
use table::{Masks, Row};

pub mod call_sc;
pub mod tape;

// Values 160 to 226.
pub fn eval_opcodes(lv: &Row, nv: &Row, masks: &Masks, z_last: Residue, out: &mut [u64])
    requires { 67 ≤ length out.old }
    ensures { out.new ≡ values residues (cells masks.now lv.now nv.now z_last 0) opcodes ++ drop 67 out.old }
{
    fill_opcodes(lv, nv, masks, z_last, &mut out[..67]);
}

// The same, in a buffer of just that length.
#[tactic(auto, unfolding(table::specs::Entry::values, table::specs::Entry::each, crate::specs::Stage::opcodes, table::specs::SimpleArithmaticOp::simple_arithmatic_op, table::specs::SimpleArithmaticOp::is_op, table::specs::Tape::tape, table::specs::Tape::tape_ext_lines, table::specs::Tape::tape_first_ext_line, table::specs::Tape::tape_tp, table::specs::Tape::tape_filter, table::specs::CallSc::call_sc, table::specs::CallSc::call_sc_addresses, table::specs::CallSc::call_sc_operands, table::specs::CallSc::call_sc_cleared_head, table::specs::CallSc::call_sc_cleared_regs, table::specs::CallSc::call_sc_ctx_regs, table::specs::CallSc::call_sc_end, table::specs::CallSc::call_sc_filters, algebra::specs::Expr::eval))]
fn fill_opcodes(lv: &Row, nv: &Row, masks: &Masks, z_last: Residue, out: &mut [u64])
    requires { length out.old ≡ 67 }
    ensures { out.new ≡ values residues (cells masks.now lv.now nv.now z_last 0) opcodes }
{
    let factored = FactoredRow::new(lv);
    put_residues(
        &mut out[0..4],
        &simple_arithmatic_op::eval_packed_generic(lv, masks),
    );
    tape::eval_packed_generic(&factored, nv, &mut out[4..25]);
    call_sc::eval_packed_generic(&factored, nv, z_last, &mut out[25..67]);
}
