// call_sc.rs: the values of call_sc.
ghost use Rattle.std.specs.Prelude.{◌≡◌, [], ◌++◌, ◌≤◌, length, drop};
ghost use Rattle.residue.specs.Residues.{residues};
ghost use Rattle.table.specs.Cells.{cells};
ghost use Rattle.table.specs.Entry.{values};
ghost use Rattle.table.specs.CallSc.{call_sc};

use cpu_after_call_sc::after_call_sc::*;
use cpu_call_sc::call_sc::*;
use cpu_factors::FactoredRow;
use parts::put_residues;
use residue::Residue;
use table::Row;

pub fn eval_packed_generic(factored: &FactoredRow, nv: &Row, z_last: Residue, out: &mut [u64])
    requires { 42 ≤ length out.old }
    ensures { out.new ≡ values residues (cells [] factored.now.row.now nv.now z_last 0) call_sc ++ drop 42 out.old }
{
    fill(factored, nv, z_last, &mut out[..42]);
}

// The same, in a buffer of just that length.
#[tactic(auto, unfolding(table::specs::Entry::values, table::specs::Entry::each, table::specs::CallSc::call_sc, table::specs::CallSc::call_sc_addresses, table::specs::CallSc::call_sc_operands, table::specs::CallSc::call_sc_cleared_head, table::specs::CallSc::call_sc_cleared_regs, table::specs::CallSc::call_sc_ctx_regs, table::specs::CallSc::call_sc_end, table::specs::CallSc::call_sc_filters, algebra::specs::Expr::eval))]
fn fill(factored: &FactoredRow, nv: &Row, z_last: Residue, out: &mut [u64])
    requires { length out.old ≡ 42 }
    ensures { out.new ≡ values residues (cells [] factored.now.row.now nv.now z_last 0) call_sc }
{
    put_residues(&mut out[0..8], &call_sc_addresses(factored, nv));
    put_residues(&mut out[8..12], &call_sc_operands(factored, nv, z_last));
    put_residues(&mut out[12..14], &call_sc_cleared_head(factored, nv));
    put_residues(&mut out[14..24], &call_sc_cleared_regs(factored, nv));
    put_residues(&mut out[24..32], &call_sc_ctx_regs(factored, nv));
    put_residues(&mut out[32..34], &call_sc_end(factored, nv));
    put_residues(&mut out[34..42], &call_sc_filters(factored));
}
