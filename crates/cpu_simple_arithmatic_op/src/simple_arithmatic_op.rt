// The constraints of simple_arithmatic_op.rs (L).
ghost use Rattle.std.specs.Prelude.{◌≡◌, []};
ghost use Rattle.residue.specs.Residues.{residues};
ghost use Rattle.table.specs.Cells.{cells};
ghost use Rattle.table.specs.Entry.{values};
ghost use Rattle.table.specs.SimpleArithmaticOp.{simple_arithmatic_op};
ghost use Rattle.cpu_simple_arithmatic_op.specs.Products.{all_but_one};

use residue::{Residue, mul};
use table::columns::*;
use table::masks::*;
use table::{Masks, Row};

// The selector times all but one of OPCODE's differences from five masks, the first left out, then the second,
// and so on: each is not zero only for the opcode that is left out. Products of two of them are shared.
#[tactic(auto, using(crate::proofs::Products::last_two, crate::proofs::Products::last_three), unfolding(crate::specs::Products::all_but_one))]
pub fn is_ops(selector: u64, a: u64, b: u64, c: u64, d: u64, e: u64) -> [Residue; 5]
    ensures { result ≡ all_but_one selector a b c d e }
{
    let de = mul(d, e);
    let with_cde = mul(selector, mul(c, de));
    let with_ab = mul(mul(selector, a), b);
    let with_abc = mul(with_ab, c);
    [
        Residue::new(mul(with_cde, b)),
        Residue::new(mul(with_cde, a)),
        Residue::new(mul(with_ab, de)),
        Residue::new(mul(with_abc, e)),
        Residue::new(mul(with_abc, d)),
    ]
}

// 160 to 163
#[tactic(auto, unfolding(algebra::specs::Expr::eval, residue::specs::Residues::sub_p, table::specs::Entry::values, table::specs::SimpleArithmaticOp::simple_arithmatic_op, table::specs::SimpleArithmaticOp::is_op, crate::specs::Products::all_but_one))]
pub fn eval_packed_generic(lv: &Row, masks: &Masks) -> [Residue; 4]
    ensures { result ≡ values residues (cells masks.now lv.now [] 0 0) simple_arithmatic_op }
{
    let one = Residue::ONE;
    let opcode = lv.at(COL_OPCODE);
    let [is_add, is_mul, is_eq, is_neq, is_assert] = is_ops(
        lv.at(COL_S_SIMPLE_ARITHMATIC_OP).value(),
        (opcode - masks.at(ADD)).value(),
        (opcode - masks.at(MUL)).value(),
        (opcode - masks.at(EQ)).value(),
        (opcode - masks.at(NEQ)).value(),
        (opcode - masks.at(ASSERT)).value(),
    );
    let op0 = lv.at(COL_OP0);
    let op1 = lv.at(COL_OP1);
    let res = lv.at(COL_DST);
    // eq and neq
    let op_diff = op0 - op1;
    let not_diff_aux = one - op_diff * lv.at(COL_AUX0);
    let not_res = one - res;
    let eq_cs = is_eq * (res * op_diff + not_res * not_diff_aux);
    let neq_cs = is_neq * (not_res * op_diff + res * not_diff_aux);
    [
        is_add * (res - (op0 + op1)),
        is_mul * (res - op0 * op1),
        eq_cs + neq_cs,
        is_assert * (one - op1),
    ]
}
