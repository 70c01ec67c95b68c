// The third stage of the table (I to K), written to a buffer group by group.
#![tactic(auto)]

ghost use Rattle.std.specs.Prelude.{◌≡◌, [], ◌++◌, ◌≤◌, length, drop};
ghost use Rattle.residue.specs.Residues.{residues};
ghost use Rattle.table.specs.Cells.{cells};
ghost use Rattle.table.specs.Entry.{values};
ghost use Rattle.stage_flow.specs.Stage.{flow};

use cpu_flow::env_unchanged::{constraint_env_unchanged_clk, constraint_env_unchanged_pc};
use cpu_stark::*;
use parts::put_residues;
use residue::Residue;
use table::Row;

pub mod cpu_stark;

// Values 145 to 159.
#[tactic(auto, unfolding(algebra::specs::Expr::eval, table::specs::Entry::values, table::specs::Entry::each, crate::specs::Stage::flow, table::specs::CpuStark::constraint_env_unchanged_clk, table::specs::CpuStark::constraint_env_unchanged_pc, table::specs::CpuStark::instruction_size, table::specs::CpuStark::pc_next, table::specs::CpuStark::constraint_reg_consistency, table::specs::CpuStark::dst_reg_changes, table::specs::CpuStark::multi_reg_change, table::specs::CpuStark::fp_consistency))]
pub fn eval_flow(lv: &Row, nv: &Row, z_last: Residue, out: &mut [u64])
    requires { 15 ≤ length out.old }
    ensures { out.new ≡ values residues (cells [] lv.now nv.now z_last 0) flow ++ drop 15 out.old }
{
    let clk = constraint_env_unchanged_clk(lv, nv);
    put_residues(&mut out[0..2], &clk);
    put_residues(&mut out[2..5], &constraint_env_unchanged_pc(lv, nv, clk[0]));
    constraint_reg_consistency(lv, nv, z_last, &mut out[5..15]);
}
