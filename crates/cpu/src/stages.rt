// The table from its four stages: `eval_packed_generic` of CpuStark.
ghost use Rattle.std.specs.Prelude.{◌≡◌, ◌++◌, ◌≤◌, length, drop};
ghost use Rattle.table.specs.Table.{pair_values};

use stage_context::eval_context;
use stage_flow::eval_flow;
use stage_instruction::eval_instruction;
use stage_opcodes::eval_opcodes;
use table::Pair;

// The 226 values of a pair of rows, written to the first places of `out`; the rest of `out` is kept.
pub fn eval_packed_generic(pair: &Pair, out: &mut [u64])
    requires { 226 ≤ length out.old }
    ensures { out.new
        ≡ pair_values pair.now.masks pair.now.lv pair.now.nv pair.now.z_last pair.now.lagrange_basis_first
        ++ drop 226 out.old }
{
    eval_context(
        &pair.lv,
        &pair.nv,
        pair.z_last,
        pair.lagrange_basis_first,
        &mut out[0..82],
    );
    eval_instruction(&pair.lv, &pair.nv, &pair.masks, &mut out[82..144]);
    eval_flow(&pair.lv, &pair.nv, pair.z_last, &mut out[144..159]);
    eval_opcodes(
        &pair.lv,
        &pair.nv,
        &pair.masks,
        pair.z_last,
        &mut out[159..226],
    );
}
