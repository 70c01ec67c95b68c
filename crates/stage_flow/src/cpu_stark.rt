// CpuStark: the group of this stage that is made of two pieces.
ghost use Rattle.std.specs.Prelude.{◌≡◌, [], ◌++◌, ◌≤◌, length, drop};
ghost use Rattle.residue.specs.Residues.{residues};
ghost use Rattle.table.specs.Cells.{cells};
ghost use Rattle.table.specs.Entry.{values};
ghost use Rattle.table.specs.CpuStark.{constraint_reg_consistency};

use cpu_registers::reg_consistency::*;
use parts::put_residues;
use residue::Residue;
use table::Row;

#[tactic(auto, unfolding(algebra::specs::Expr::eval, table::specs::Entry::values, table::specs::Entry::each, table::specs::CpuStark::constraint_reg_consistency, table::specs::CpuStark::dst_reg_changes, table::specs::CpuStark::multi_reg_change, table::specs::CpuStark::fp_consistency))]
pub fn constraint_reg_consistency(lv: &Row, nv: &Row, z_last: Residue, out: &mut [u64])
    requires { 10 ≤ length out.old }
    ensures { out.new
        ≡ values residues (cells [] lv.now nv.now z_last 0) constraint_reg_consistency ++ drop 10 out.old }
{
    put_residues(&mut out[0..9], &dst_reg_changes(lv, nv, z_last));
    put_residues(&mut out[9..10], &fp_consistency(lv, nv, z_last));
}
