// The rules of what flows from a row to the next: I to K of the rulebook.
#![tactic(auto, unfolding(algebra::specs::Expr::eval, rulebook::specs::Rule::holds, rulebook::specs::Rule::keeps_sentence, rulebook::specs::Rule::keeps_all, rulebook::specs::Rulebook::rules_I, rulebook::specs::Rulebook::rules_J, rulebook::specs::Rulebook::rules_K))]

ghost use Rattle.std.specs.Prelude.{◌≡◌, false, []};
ghost use Rattle.rulebook.specs.Rulebook.{rules_I, rules_J, rules_K};
ghost use Rattle.judge_columns.specs.Group.{keeps_rules};
ghost use Rattle.judge_kinds.specs.Kind.{number_of_kind};

use judge_columns::{FP, equal, grows, is_bit, kept, kept_unless_dst, off, on};
use judge_kinds::kinds::Kind;
use judge_kinds::step::Step;
use judge_pc_registers::{fp_free, pc_target, registers_free};
use table::columns::*;

// I
pub fn keeps_clk(step: &Step) -> bool
    ensures { result ≡ keeps_rules rules_I [] step.now.lv.now step.now.nv.now (number_of_kind step.now.kind) false false }
{
    let (lv, nv) = (step.lv, step.nv);
    let call_sc_or_end = step.is(Kind::CallSc) | step.is(Kind::End);
    let clk_grows = grows(lv, nv, COL_CLK, 1);
    // next ext, not END' → CLK kept.
    (!(on(nv, COL_IS_EXT_LINE) & off(nv, COL_S_END)) | kept(lv, nv, COL_CLK))
        // same, neither CALL_SC nor END, next main → CLK' = CLK + 1.
        & (!(on(lv, COL_IS_NEXT_LINE_SAME_TX) & !call_sc_or_end & off(nv, COL_IS_EXT_LINE))
            | clk_grows)
}

// J
pub fn keeps_pc(step: &Step) -> bool
    ensures { result ≡ keeps_rules rules_J [] step.now.lv.now step.now.nv.now (number_of_kind step.now.kind) false false }
{
    let (lv, nv) = (step.lv, step.nv);
    let next_main = off(nv, COL_IS_EXT_LINE);
    let end_or_call_sc = step.is(Kind::End) | step.is(Kind::CallSc);
    let clk_kept = kept(lv, nv, COL_CLK);
    let target = pc_target(lv, step.kind);
    // value 147 repeats I's first rule (the comment says PC, the code CLK).
    (!(on(nv, COL_IS_EXT_LINE) & off(nv, COL_S_END)) | clk_kept)
        // Next main, neither END nor CALL_SC → PC' is ..
        & (!(next_main & !end_or_call_sc) | equal(nv.at(COL_PC), target))
        // CJMP, next main → OP0 is 0 or 1.
        & (!(step.is(Kind::Cjmp) & next_main) | is_bit(lv.at(COL_OP0)))
}

// K
pub fn keeps_registers(step: &Step, last: bool) -> bool
    ensures { result ≡ keeps_rules rules_K [] step.now.lv.now step.now.nv.now (number_of_kind step.now.kind) false last }
{
    let (lv, nv) = (step.lv, step.nv);
    let fp_is_dst = on(lv, COL_S_DST_START + FP);
    let fp_kept = kept(lv, nv, COL_REGS_START + FP);
    // [t] registers 0..8 kept where S_DST[i] is not 1, unless SLOAD, PSDN, CALL_SC with diff, or END main.
    (last | (registers_free(lv, step.kind) | kept_unless_dst(lv, nv)))
        // [t] Register 9 kept where S_DST[9] is not 1, unless RET, CALL_SC with diff, or END.
        & (last | (fp_free(lv, step.kind) | (fp_is_dst | fp_kept)))
}
