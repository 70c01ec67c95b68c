// CpuStark: the groups of this stage that are made of several pieces.
#![tactic(auto, unfolding(algebra::specs::Expr::eval, table::specs::Entry::values, table::specs::Entry::each, table::specs::CpuStark::constraint_tx_init, table::specs::CpuStark::tx_init_first_line_head, table::specs::CpuStark::tx_init_first_line_regs, table::specs::CpuStark::tx_init_each_tx_head, table::specs::CpuStark::tx_init_each_tx_regs, table::specs::CpuStark::eval_packed_generic_body, table::specs::CpuStark::body_tx_idx, table::specs::CpuStark::body_ctx_regs, table::specs::CpuStark::body_filter_imm, table::specs::CpuStark::constraint_ext_lines, table::specs::CpuStark::ext_lines_counts, table::specs::CpuStark::ext_lines_opcode, table::specs::CpuStark::ext_lines_selectors, table::specs::CpuStark::ext_lines_op1_imm))]

ghost use Rattle.std.specs.Prelude.{◌≡◌, [], ◌++◌, ◌≤◌, length, drop};
ghost use Rattle.residue.specs.Residues.{residues};
ghost use Rattle.table.specs.Cells.{cells};
ghost use Rattle.table.specs.Entry.{values};
ghost use Rattle.table.specs.CpuStark.{constraint_tx_init, eval_packed_generic_body, constraint_ext_lines};

use cpu_context::body::{body_ctx_regs, body_filter_imm, body_tx_idx};
use cpu_ext_lines::ext_lines::{
    ext_lines_counts, ext_lines_op1_imm, ext_lines_opcode, ext_lines_selectors,
};
use cpu_tx_init::tx_init::{
    tx_init_each_tx_head, tx_init_each_tx_regs, tx_init_first_line_head, tx_init_first_line_regs,
};
use cpu_wrapper::counted_row::CountedRow;
use parts::put_residues;
use residue::Residue;
use table::Row;

pub fn constraint_tx_init(
    lv: &Row,
    nv: &Row,
    z_last: Residue,
    lagrange_basis_first: Residue,
    out: &mut [u64],
)
    requires { 31 ≤ length out.old }
    ensures { out.new
        ≡ values residues (cells [] lv.now nv.now z_last lagrange_basis_first) constraint_tx_init ++ drop 31 out.old }
{
    fill_tx_init(lv, nv, z_last, lagrange_basis_first, &mut out[..31]);
}

// The same, in a buffer of just that length.
fn fill_tx_init(lv: &Row, nv: &Row, z_last: Residue, lagrange_basis_first: Residue, out: &mut [u64])
    requires { length out.old ≡ 31 }
    ensures { out.new
        ≡ values residues (cells [] lv.now nv.now z_last lagrange_basis_first) constraint_tx_init }
{
    put_residues(
        &mut out[0..5],
        &tx_init_first_line_head(lv, lagrange_basis_first),
    );
    put_residues(
        &mut out[5..15],
        &tx_init_first_line_regs(lv, lagrange_basis_first),
    );
    put_residues(&mut out[15..21], &tx_init_each_tx_head(lv, nv, z_last));
    put_residues(&mut out[21..31], &tx_init_each_tx_regs(lv, nv, z_last));
}

// The constraints that eval_packed_generic yields itself.
pub fn eval_packed_generic_body(lv: &Row, nv: &Row, z_last: Residue, out: &mut [u64])
    requires { 12 ≤ length out.old }
    ensures { out.new ≡ values residues (cells [] lv.now nv.now z_last 0) eval_packed_generic_body ++ drop 12 out.old }
{
    put_residues(&mut out[0..2], &body_tx_idx(lv, nv, z_last));
    put_residues(&mut out[2..10], &body_ctx_regs(lv, nv, z_last));
    put_residues(&mut out[10..12], &body_filter_imm(lv));
}

pub fn constraint_ext_lines(counted: &CountedRow, nv: &Row, out: &mut [u64])
    requires { 25 ≤ length out.old }
    ensures { out.new ≡ values residues (cells [] counted.now nv.now 0 0) constraint_ext_lines ++ drop 25 out.old }
{
    fill_ext_lines(counted, nv, &mut out[..25]);
}

// The same, in a buffer of just that length.
fn fill_ext_lines(counted: &CountedRow, nv: &Row, out: &mut [u64])
    requires { length out.old ≡ 25 }
    ensures { out.new ≡ values residues (cells [] counted.now nv.now 0 0) constraint_ext_lines }
{
    let lv = counted.row();
    put_residues(&mut out[0..4], &ext_lines_counts(counted, nv));
    put_residues(&mut out[4..5], &ext_lines_opcode(lv, nv));
    put_residues(&mut out[5..24], &ext_lines_selectors(lv, nv));
    put_residues(&mut out[24..25], &ext_lines_op1_imm(lv, nv));
}
