// The rules of arithmetic: L of the rulebook.
#![tactic(auto, unfolding(algebra::specs::Expr::eval, rulebook::specs::Rule::holds, rulebook::specs::Rule::keeps_sentence, rulebook::specs::Rule::keeps_all, rulebook::specs::Rulebook::rules_L, residue::specs::Residues::sub_p))]

ghost use Rattle.std.specs.Prelude.{◌≡◌, false, []};
ghost use Rattle.rulebook.specs.Rulebook.{rules_L};
ghost use Rattle.judge_columns.specs.Group.{keeps_rules};
ghost use Rattle.judge_kinds.specs.Kind.{number_of_kind};

use judge_columns::{equal, on};
use judge_kinds::kinds::Kind;
use judge_opcode::named;
use residue::Residue;
use table::columns::*;
use table::{Masks, Row, masks as mask};

// L
pub fn keeps_arithmetic(masks: &Masks, lv: &Row, kind: Option<Kind>) -> bool
    ensures { result ≡ keeps_rules rules_L masks.now lv.now [] (number_of_kind kind) false false }
{
    let op0 = lv.at(COL_OP0);
    let op1 = lv.at(COL_OP1);
    let dst = lv.at(COL_DST);
    let d = op0 - op1;
    let not_dst = Residue::ONE - dst;
    let not_inverse = Residue::ONE - d * lv.at(COL_AUX0);
    // only with the arithmetic selector 1, the name told by OPCODE:
    !Kind::SimpleArithmaticOp.is(kind)
        // ADD DST = OP0 + OP1;
        | (!named(masks, lv, mask::ADD) | equal(dst, op0 + op1))
            // MUL the product;
            & (!named(masks, lv, mask::MUL) | equal(dst, op0 * op1))
            // ASSERT OP1 = 1;
            & (!named(masks, lv, mask::ASSERT) | on(lv, COL_OP1))
            // with d = OP0 - OP1, EQ DST·d + (1 - DST)(1 - d·AUX0) = 0,
            & (!named(masks, lv, mask::EQ) | equal(dst * d + not_dst * not_inverse, Residue::ZERO))
            // NEQ the same with DST and 1 - DST exchanged.
            & (!named(masks, lv, mask::NEQ) | equal(not_dst * d + dst * not_inverse, Residue::ZERO))
}
