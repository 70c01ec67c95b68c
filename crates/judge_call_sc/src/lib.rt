// The rules of CALL_SC and END: N of the rulebook.
#![tactic(auto, using(judge_columns::proofs::Rules::bools), unfolding(algebra::specs::Expr::eval, rulebook::specs::Rule::holds, rulebook::specs::Rule::keeps_sentence, rulebook::specs::Rule::keeps_all, rulebook::specs::Rulebook::rules_N))]

ghost use Rattle.std.specs.Prelude.{◌≡◌, false, [], take, drop};
ghost use Rattle.rulebook.specs.Rulebook.{rules_N};
ghost use Rattle.judge_columns.specs.Group.{keeps_rules};
ghost use Rattle.judge_kinds.specs.Kind.{number_of_kind};

use judge_columns::{addresses_kept, all_carried, all_off, carried, kept, off, on};
use judge_kinds::kinds::Kind;
use judge_kinds::step::Step;
use table::columns::*;

// S_OP0[4], where the code address begins in the first ext line of CALL_SC.
const COL_S_OP0_CODE: usize = COL_S_OP0_START + CTX_REGISTER_NUM;

// N, its first three sentences: what CALL_SC and END hand on
pub fn keeps_call_sc_context(step: &Step, last: bool) -> bool
    ensures { result ≡ keeps_rules (λ x j. take 3 (rules_N x j)) [] step.now.lv.now step.now.nv.now (number_of_kind step.now.kind) false last }
{
    let (lv, nv) = (step.lv, step.nv);
    let call_sc = step.is(Kind::CallSc);
    let storage = COL_ADDR_STORAGE_RANGE_START;
    let code = COL_ADDR_CODE_RANGE_START;
    let storage_held = all_carried(lv, storage, nv, COL_S_OP0_START, CTX_REGISTER_NUM);
    let code_held = all_carried(lv, code, nv, COL_S_OP0_CODE, CTX_REGISTER_NUM);
    let operands_kept = storage_held & code_held & kept(lv, nv, COL_OP0) & kept(lv, nv, COL_OP1);
    let handed_on = carried(lv, COL_ENV_IDX, nv, COL_AUX0) & carried(lv, COL_CLK, nv, COL_AUX1);
    let cleared = off(nv, COL_CLK) & off(nv, COL_PC) & all_off(nv, COL_REGS_START, REGISTER_NUM);
    // CALL_SC main → S_OP0[0..3]' and [4..7]' hold storage and code address, OP0, OP1 kept.
    (!(call_sc & off(lv, COL_IS_EXT_LINE)) | operands_kept)
        // [t] END, not diff → AUX0' = ENV_IDX, AUX1' = CLK.
        & (last | (!(step.is(Kind::End) & off(lv, COL_IS_NEXT_LINE_DIFF_INST)) | handed_on))
        // CALL_SC and diff → CLK', PC', registers' 0, addresses kept.
        & (!(call_sc & on(lv, COL_IS_NEXT_LINE_DIFF_INST)) | cleared & addresses_kept(lv, nv))
}

// N, its other sentences: the ext lines of END, and the filters
pub fn keeps_call_sc_lines(step: &Step) -> bool
    ensures { result ≡ keeps_rules (λ x j. drop 3 (rules_N x j)) [] step.now.lv.now step.now.nv.now (number_of_kind step.now.kind) false false }
{
    let (lv, nv) = (step.lv, step.nv);
    let end = step.is(Kind::End);
    let ext = on(lv, COL_IS_EXT_LINE);
    let not_diff = off(lv, COL_IS_NEXT_LINE_DIFF_INST);
    let call_sc_ext = step.is(Kind::CallSc) & ext;
    let end_ext = end & ext;
    // END, ext, not diff → PC, CLK kept.
    (!(end & ext & not_diff) | kept(lv, nv, COL_PC) & kept(lv, nv, COL_CLK))
        // Column 89 is 1 for CALL_SC ext, else 0;
        & ((!call_sc_ext | on(lv, IS_SCCALL_EXT_LINE))
            & (call_sc_ext | off(lv, IS_SCCALL_EXT_LINE)))
        // column 91 likewise for END.
        & ((!end_ext | on(lv, COL_FILTER_SCCALL_END)) & (end_ext | off(lv, COL_FILTER_SCCALL_END)))
}

// N
pub fn keeps_call_sc(step: &Step, last: bool) -> bool
    ensures { result ≡ keeps_rules rules_N [] step.now.lv.now step.now.nv.now (number_of_kind step.now.kind) false last }
{
    keeps_call_sc_context(step, last) & keeps_call_sc_lines(step)
}
