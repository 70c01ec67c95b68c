// The first stage of the table (A to E), written to a buffer group by group.
#![tactic(auto)]

ghost use Rattle.std.specs.Prelude.{◌≡◌, [], ◌++◌, ◌≤◌, length, drop};
ghost use Rattle.residue.specs.Residues.{residues};
ghost use Rattle.table.specs.Cells.{cells};
ghost use Rattle.table.specs.Entry.{values};
ghost use Rattle.stage_context.specs.Stage.{context};

use cpu_context::env_idx::constraint_env_idx;
use cpu_stark::*;
use cpu_wrapper::counted_row::CountedRow;
use cpu_wrapper::wrapper::constraint_wrapper_cols;
use parts::put_residues;
use residue::Residue;
use table::Row;

pub mod cpu_stark;

// Values 1 to 82.
pub fn eval_context(
    lv: &Row,
    nv: &Row,
    z_last: Residue,
    lagrange_basis_first: Residue,
    out: &mut [u64],
)
    requires { 82 ≤ length out.old }
    ensures { out.new
        ≡ values residues (cells [] lv.now nv.now z_last lagrange_basis_first) context ++ drop 82 out.old }
{
    fill_context(lv, nv, z_last, lagrange_basis_first, &mut out[..82]);
}

// The same, in a buffer of just that length.
#[tactic(auto, unfolding(algebra::specs::Expr::eval, table::specs::Entry::values, table::specs::Entry::each, table::specs::CpuStark::constraint_tx_init, table::specs::CpuStark::tx_init_first_line_head, table::specs::CpuStark::tx_init_first_line_regs, table::specs::CpuStark::tx_init_each_tx_head, table::specs::CpuStark::tx_init_each_tx_regs, table::specs::CpuStark::eval_packed_generic_body, table::specs::CpuStark::body_tx_idx, table::specs::CpuStark::body_ctx_regs, table::specs::CpuStark::body_filter_imm, table::specs::CpuStark::constraint_ext_lines, table::specs::CpuStark::ext_lines_counts, table::specs::CpuStark::ext_lines_opcode, table::specs::CpuStark::ext_lines_selectors, table::specs::CpuStark::ext_lines_op1_imm, table::specs::CpuStark::constraint_wrapper_cols, table::specs::CpuStark::constraint_env_idx, table::specs::CpuStark::lv_is_ext_inst, table::specs::CpuStark::nv_is_ext_inst, table::specs::CpuStark::lv_ext_length, crate::specs::Stage::context))]
fn fill_context(lv: &Row, nv: &Row, z_last: Residue, lagrange_basis_first: Residue, out: &mut [u64])
    requires { length out.old ≡ 82 }
    ensures { out.new
        ≡ values residues (cells [] lv.now nv.now z_last lagrange_basis_first) context }
{
    let counted = CountedRow::new(lv);
    put_residues(
        &mut out[0..7],
        &constraint_wrapper_cols(&counted, nv, z_last),
    );
    constraint_tx_init(lv, nv, z_last, lagrange_basis_first, &mut out[7..38]);
    eval_packed_generic_body(lv, nv, z_last, &mut out[38..50]);
    constraint_ext_lines(&counted, nv, &mut out[50..75]);
    put_residues(&mut out[75..82], &constraint_env_idx(lv, nv, z_last));
}
