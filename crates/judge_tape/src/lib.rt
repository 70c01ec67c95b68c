// The rules of the tape: M of the rulebook.
#![tactic(auto, using(judge_columns::proofs::Rules::bools), unfolding(algebra::specs::Expr::eval, rulebook::specs::Rule::holds, rulebook::specs::Rule::keeps_sentence, rulebook::specs::Rule::keeps_all, rulebook::specs::Rulebook::rules_M))]

ghost use Rattle.std.specs.Prelude.{◌≡◌, false, [], take, drop};
ghost use Rattle.rulebook.specs.Rulebook.{rules_M};
ghost use Rattle.judge_columns.specs.Group.{keeps_rules};
ghost use Rattle.judge_kinds.specs.Kind.{number_of_kind};

use judge_columns::{carried, equal, grows, kept, off, on};
use judge_kinds::kinds::Kind;
use judge_kinds::step::Step;
use residue::Residue;
use table::columns::*;

// What a CALL_SC adds to the tape.
const CALL_SC_TAPE: u64 = 12;

// M, its first four sentences: the lines of TLOAD and TSTORE
pub fn keeps_tape_lines(step: &Step) -> bool
    ensures { result ≡ keeps_rules (λ x j. take 4 (rules_M x j)) [] step.now.lv.now step.now.nv.now (number_of_kind step.now.kind) false false }
{
    let (lv, nv) = (step.lv, step.nv);
    let tload = step.is(Kind::Tload);
    let tstore = step.is(Kind::Tstore);
    let main = off(lv, COL_IS_EXT_LINE);
    let next_ext = on(nv, COL_IS_EXT_LINE);
    let operands_kept = kept(lv, nv, COL_OP0) & kept(lv, nv, COL_OP1);
    let aux0_grows = grows(lv, nv, COL_AUX0, 1);
    let addr_grows = grows(lv, nv, COL_S_OP0_START, 1);
    let to_tp = equal(nv.at(COL_S_OP0_START) + lv.at(COL_OP1), lv.at(COL_TP));
    // next ext and TLOAD or TSTORE → OP0, OP1 kept.
    (!(next_ext & (tload | tstore)) | operands_kept)
        // TLOAD or TSTORE, ext, next ext → AUX0, S_OP0[0] grow by 1.
        & (!((tload | tstore) & on(lv, COL_IS_EXT_LINE) & next_ext) | aux0_grows & addr_grows)
        // TSTORE main → S_OP0[0]' = TP, AUX0' = OP0.
        & (!(tstore & main)
            | carried(lv, COL_TP, nv, COL_S_OP0_START) & carried(lv, COL_OP0, nv, COL_AUX0))
        // TLOAD main → AUX0' = DST; OP0 not 0 → S_OP0[0]' + OP1 = TP; OP0 not 1 → S_OP0[0]' = OP1.
        & (!(tload & main)
            | carried(lv, COL_DST, nv, COL_AUX0)
                & (off(lv, COL_OP0) | to_tp)
                & (on(lv, COL_OP0) | carried(lv, COL_OP1, nv, COL_S_OP0_START)))
}

// M, its other sentences: the tape pointer and the filter
pub fn keeps_tp(step: &Step) -> bool
    ensures { result ≡ keeps_rules (λ x j. drop 4 (rules_M x j)) [] step.now.lv.now step.now.nv.now (number_of_kind step.now.kind) false false }
{
    let (lv, nv) = (step.lv, step.nv);
    let tstore = step.is(Kind::Tstore);
    let call_sc = step.is(Kind::CallSc);
    let ext = on(lv, COL_IS_EXT_LINE);
    let next_call_sc = on(nv, COL_S_CALL_SC);
    let next_not_call_sc = off(nv, COL_S_CALL_SC);
    let tp_kept = kept(lv, nv, COL_TP);
    let tp_behind = equal(nv.at(COL_TP), lv.at(COL_S_OP0_START) + Residue::ONE);
    let tp_grows = grows(lv, nv, COL_TP, CALL_SC_TAPE);
    let tape_ext = (step.is(Kind::Tload) | tstore) & ext;
    // TSTORE: next ext → TP kept; next main → TP' = S_OP0[0] + 1.
    (!tstore | (!on(nv, COL_IS_EXT_LINE) | tp_kept) & (!off(nv, COL_IS_EXT_LINE) | tp_behind))
        // same, and TSTORE and CALL_SC' both or neither → TP kept.
        & (!(on(lv, COL_IS_NEXT_LINE_SAME_TX)
            & (tstore & next_call_sc | !tstore & next_not_call_sc))
            | tp_kept)
        // CALL_SC' without CALL_SC, or CALL_SC main → TP kept.
        & (!(next_call_sc & !call_sc | call_sc & off(lv, COL_IS_EXT_LINE)) | tp_kept)
        // CALL_SC ext → TP' = TP + 12.
        & (!(call_sc & ext) | tp_grows)
        // Column 88 is 1 for TLOAD or TSTORE ext, else 0.
        & ((!tape_ext | on(lv, COL_FILTER_TAPE_LOOKING))
            & (tape_ext | off(lv, COL_FILTER_TAPE_LOOKING)))
}

// M
pub fn keeps_tape(step: &Step) -> bool
    ensures { result ≡ keeps_rules rules_M [] step.now.lv.now step.now.nv.now (number_of_kind step.now.kind) false false }
{
    keeps_tape_lines(step) & keeps_tp(step)
}
