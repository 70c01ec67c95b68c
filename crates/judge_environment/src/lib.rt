// The rules of ext lines and of the environment's number: D and E of the rulebook.
#![tactic(auto)]

ghost use Rattle.std.specs.Prelude.{◌≡◌, false, []};
ghost use Rattle.rulebook.specs.Rulebook.{rules_D, rules_E};
ghost use Rattle.judge_columns.specs.Group.{keeps_rules};
ghost use Rattle.judge_kinds.specs.Kind.{number_of_kind};

use judge_columns::{all_carried, carried, equal, grows, kept, off, on};
use judge_kinds::kinds::Kind;
use judge_kinds::selected::{ext_length, is_ext_kind, next_is_ext_kind};
use judge_kinds::step::Step;
use table::columns::*;

// D
pub fn keeps_ext_lines(step: &Step) -> bool
    ensures { result ≡ keeps_rules rules_D [] step.now.lv.now step.now.nv.now (number_of_kind step.now.kind) false false }
{
    let (lv, nv) = (step.lv, step.nv);
    let ext_kind = is_ext_kind(step.kind);
    let main = off(lv, COL_IS_EXT_LINE);
    let next_ext = on(nv, COL_IS_EXT_LINE);
    let next_main = off(nv, COL_IS_EXT_LINE);
    let cnt_grows = grows(lv, nv, COL_EXT_CNT, 1);
    let selectors = COL_S_SIMPLE_ARITHMATIC_OP;
    let instruction_kept = kept(lv, nv, COL_OPCODE)
        & all_carried(lv, selectors, nv, selectors, NUM_OP_SELECTOR)
        & kept(lv, nv, COL_OP1_IMM);
    // not ext kind → main.
    (ext_kind | main)
        // Ext kind: next main → EXT_CNT = length; main → EXT_CNT 0.
        & (!ext_kind
            | (!next_main | equal(lv.at(COL_EXT_CNT), ext_length(lv, step.kind)))
                & (!main | off(lv, COL_EXT_CNT)))
        // Next ext kind and ext → EXT_CNT' = EXT_CNT + 1.
        & (!(next_is_ext_kind(nv) & next_ext) | cnt_grows)
        // Next ext → OPCODE, 19 selectors, OP1_IMM kept.
        & (!next_ext | instruction_kept)
}

// E
pub fn keeps_env_idx(step: &Step, last: bool) -> bool
    ensures { result ≡ keeps_rules rules_E [] step.now.lv.now step.now.nv.now (number_of_kind step.now.kind) false last }
{
    let (lv, nv) = (step.lv, step.nv);
    let call_sc = step.is(Kind::CallSc);
    let end = step.is(Kind::End);
    let diff = on(lv, COL_IS_NEXT_LINE_DIFF_INST);
    let same_tx = on(lv, COL_IS_NEXT_LINE_SAME_TX);
    let cnt_kept = kept(lv, nv, COL_CALL_SC_CNT);
    let env_kept = kept(lv, nv, COL_ENV_IDX);
    // [t] CALL_SC and diff → CALL_SC_CNT' = CALL_SC_CNT + 1.
    (last | (!(call_sc & diff) | grows(lv, nv, COL_CALL_SC_CNT, 1)))
        // CALL_SC and diff → ENV_IDX' = CALL_SC_CNT, on the last row too.
        & (!(call_sc & diff) | carried(lv, COL_CALL_SC_CNT, nv, COL_ENV_IDX))
        // [t] same, not CALL_SC → CALL_SC_CNT kept.
        & (last | (!(same_tx & !call_sc) | cnt_kept))
        // CALL_SC, not diff → CALL_SC_CNT and ENV_IDX kept.
        & (!(call_sc & off(lv, COL_IS_NEXT_LINE_DIFF_INST)) | cnt_kept & env_kept)
        // Neither CALL_SC nor END, or END and ext → ENV_IDX kept.
        & (!(!(call_sc | end) | end & on(lv, COL_IS_EXT_LINE)) | env_kept)
}
