// The rules of a transaction: A to C of the rulebook.
#![tactic(auto, using(judge_columns::proofs::Rules::bools), unfolding(algebra::specs::Expr::eval, rulebook::specs::Rule::holds, rulebook::specs::Rule::keeps_sentence, rulebook::specs::Rule::keeps_all, rulebook::specs::Rulebook::rules_B, rulebook::specs::Rulebook::rules_C))]

ghost use Rattle.std.specs.Prelude.{◌≡◌, false, []};
ghost use Rattle.rulebook.specs.Rulebook.{rules_A, rules_B, rules_C};
ghost use Rattle.judge_columns.specs.Group.{keeps_rules};
ghost use Rattle.judge_kinds.specs.Kind.{number_of_kind};

use judge_columns::{addresses_kept, all_off, equal, grows, is_bit, kept, off, on};
use judge_kinds::kinds::Kind;
use judge_kinds::selected::ext_length;
use judge_kinds::step::Step;
use table::Row;
use table::columns::*;

// A
pub fn keeps_wrapper_cols(step: &Step, last: bool) -> bool
    ensures { result ≡ keeps_rules rules_A [] step.now.lv.now step.now.nv.now (number_of_kind step.now.kind) false last }
{
    let (lv, nv) = (step.lv, step.nv);
    let pad = lv.at(COL_IS_PADDING);
    let pad_step = nv.at(COL_IS_PADDING) - pad;
    let next_not_pad = off(nv, COL_IS_PADDING);
    let tx_grows = grows(lv, nv, COL_TX_IDX, 1);
    let length = ext_length(lv, step.kind);
    // pad is 0 or 1.
    is_bit(pad)
        // [t] pad' - pad is 0 or 1.
        & (last | is_bit(pad_step))
        // pad → END.
        & (!on(lv, COL_IS_PADDING) | step.is(Kind::End))
        // entry → ENV_IDX' 0.
        & (!on(lv, COL_IS_ENTRY_SC) | off(nv, COL_ENV_IDX))
        // pad' 0 and same → TX_IDX' = TX_IDX.
        & (!(next_not_pad & on(lv, COL_IS_NEXT_LINE_SAME_TX)) | kept(lv, nv, COL_TX_IDX))
        // [t] pad' 0, not same → TX_IDX' = TX_IDX + 1.
        & (last | (!(next_not_pad & off(lv, COL_IS_NEXT_LINE_SAME_TX)) | tx_grows))
        // diff → EXT_CNT = length.
        & (!on(lv, COL_IS_NEXT_LINE_DIFF_INST) | equal(lv.at(COL_EXT_CNT), length))
}

// B
pub fn keeps_tx_init(lv: &Row, nv: &Row, first: bool, last: bool) -> bool
    ensures { result ≡ keeps_rules rules_B [] lv.now nv.now 0 first last }
{
    let cleared = off(lv, COL_TX_IDX)
        & off(lv, COL_ENV_IDX)
        & off(lv, COL_CALL_SC_CNT)
        & off(lv, COL_CLK)
        & off(lv, COL_PC)
        & all_off(lv, COL_REGS_START, REGISTER_NUM);
    let next_cleared = off(nv, COL_ENV_IDX)
        & off(nv, COL_CALL_SC_CNT)
        & off(nv, COL_TP)
        & off(nv, COL_CLK)
        & off(nv, COL_PC)
        & all_off(nv, COL_REGS_START, REGISTER_NUM);
    // [f] TX_IDX, ENV_IDX, CALL_SC_CNT, CLK, PC, registers are 0.
    (!first | cleared)
        // [t] same → TX_IDX kept; not same → ENV_IDX', CALL_SC_CNT', TP', CLK', PC', registers' are 0.
        & (last
            | ((!on(lv, COL_IS_NEXT_LINE_SAME_TX) | kept(lv, nv, COL_TX_IDX))
                & (!off(lv, COL_IS_NEXT_LINE_SAME_TX) | next_cleared)))
}

// C
pub fn keeps_body(step: &Step, last: bool) -> bool
    ensures { result ≡ keeps_rules rules_C [] step.now.lv.now step.now.nv.now (number_of_kind step.now.kind) false last }
{
    let (lv, nv) = (step.lv, step.nv);
    let end = step.is(Kind::End);
    let tx_grows = grows(lv, nv, COL_TX_IDX, 1);
    let context = (end | kept(lv, nv, COL_TX_IDX))
        & (!(on(lv, COL_IS_ENTRY_SC) & end) | tx_grows)
        & ((end | step.is(Kind::CallSc)) | addresses_kept(lv, nv));
    let pad_is_ext = equal(lv.at(COL_IS_PADDING), lv.at(COL_IS_EXT_LINE));
    let imm = on(lv, COL_OP1_IMM) | (step.is(Kind::Mload) | step.is(Kind::Mstore));
    // [t] with pad' 0: not END → TX_IDX kept; entry and END → it grows by 1; neither END nor CALL_SC →
    // both addresses kept.
    (last | (!off(nv, COL_IS_PADDING) | context))
        // Where pad equals IS_EXT_LINE: OP1_IMM 1, MLOAD or MSTORE → column 92 is 1.
        & (!pad_is_ext | (!imm | on(lv, COL_FILTER_LOOKING_PROG_IMM)))
}
