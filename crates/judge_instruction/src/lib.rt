// The rules of the instruction: F to H of the rulebook.
#![tactic(auto, using(judge_columns::proofs::Rules::bools), unfolding(algebra::specs::Expr::eval, rulebook::specs::Rule::holds, rulebook::specs::Rule::keeps_sentence, rulebook::specs::Rule::keeps_all, rulebook::specs::Rulebook::rules_F, rulebook::specs::Rulebook::rules_G, rulebook::specs::Rulebook::rules_H))]

ghost use Rattle.std.specs.Prelude.{◌≡◌, false, [], ◌+◌, ◌<◌, ◌≤◌};
ghost use Rattle.algebra.specs.Expr.{eval};
ghost use Rattle.residue.specs.Residues.{residues};
ghost use Rattle.table.specs.Columns.{REGISTER-NUM, NUM-CPU-COLS};
ghost use Rattle.table.specs.Cells.{cells, lv as lv_of, nv as nv_of};
ghost use Rattle.rulebook.specs.Rulebook.{word_part, operand_rules, rules_F, rules_G, rules_H};
ghost use Rattle.judge_columns.specs.Group.{keeps_rules};
ghost use Rattle.judge_kinds.specs.Kind.{number_of_kind};

use judge_columns::{all_bits, chosen_equal, equal, is_bit, off, on, ones};
use judge_kinds::kinds::Kind;
use judge_opcode::has_opcode;
use residue::{Residue, mul_add};
use table::columns::*;
use table::{Masks, Row};

// The places of OP1_IMM and of the first selector of each group in the instruction word.
const OP1_IMM_SHIFT: u32 = 62;

const S_OP0_SHIFT: u32 = 52;

const S_OP1_SHIFT: u32 = 42;

const S_DST_SHIFT: u32 = 32;

// F
pub fn keeps_opcode_selector(masks: &Masks, lv: &Row, kind: Option<Kind>) -> bool
    ensures { result ≡ keeps_rules rules_F masks.now lv.now [] (number_of_kind kind) false false }
{
    // the 19 selectors are 0 or 1, exactly one is 1.
    all_bits(lv, COL_S_SIMPLE_ARITHMATIC_OP, NUM_OP_SELECTOR)
        & (ones(lv.words(), COL_S_SIMPLE_ARITHMATIC_OP, NUM_OP_SELECTOR) == 1)
        // OPCODE is that one's mask; for arithmetic one of the first five, for bitwise AND, OR or XOR.
        & has_opcode(masks, lv, kind)
}

// Ten selectors from column s on as a part of the instruction word, the first shifted by `shift`.
pub fn word_part(lv: &Row, s: usize, shift: u32) -> Residue
    requires columns { s + REGISTER-NUM ≤ NUM-CPU-COLS }
    requires places { shift + REGISTER-NUM ≤ 64 }
    ensures { result ≡ eval residues (cells [] lv.now [] 0 0) (word_part s shift) }
{
    let columns = lv.words();
    let word = columns[s..s + REGISTER_NUM]
        .iter()
        .zip(shift..shift + REGISTER_NUM as u32)
        .fold(
            0,
            |word, (&selector, place)| mul_add(selector, 1 << place, word),
        );
    Residue::new(word)
}

// G
pub fn keeps_instruction_encode(lv: &Row) -> bool
    ensures { result ≡ keeps_rules rules_G [] lv.now [] 0 false false }
{
    let main = off(lv, COL_IS_EXT_LINE);
    let op1_imm = lv.at(COL_OP1_IMM);
    let to_opcode = op1_imm * Residue::new(1u64 << OP1_IMM_SHIFT) + lv.at(COL_OPCODE);
    let to_op0 = to_opcode + word_part(lv, COL_S_OP0_START, S_OP0_SHIFT);
    let to_op1 = to_op0 + word_part(lv, COL_S_OP1_START, S_OP1_SHIFT);
    let word = to_op1 + word_part(lv, COL_S_DST_START, S_DST_SHIFT);
    // OP1_IMM is 0 or 1.
    is_bit(op1_imm)
        // Main → INST = OP1_IMM·2^62 + OPCODE + sums of S_OP0[i]·2^(52+i), S_OP1[i]·2^(42+i), S_DST[i]·2^(32+i);
        & (!main | equal(lv.at(COL_INST), word))
        // with OP1_IMM 1, OP1 = IMM_VAL.
        & (!(main & on(lv, COL_OP1_IMM)) | equal(lv.at(COL_OP1), lv.at(COL_IMM_VAL)))
}

// H, of one operand: main → its selectors, from column s on, are 0 or 1, at most one is 1; a chosen register of
// `regs` equals column o.
pub fn keeps_operand<'a>(lv: &Row<'a>, s: usize, regs: &Row<'a>, o: usize) -> bool
    requires selectors { s + REGISTER-NUM ≤ NUM-CPU-COLS }
    requires operand { o < NUM-CPU-COLS }
    ensures next { result ≡ keeps_rules (λ x j. operand_rules x j s nv_of (lv_of o)) [] lv.now regs.now 0 false false }
    ensures current { regs.now ≡ lv.now → result ≡ keeps_rules (λ x j. operand_rules x j s lv_of (lv_of o)) [] lv.now [] 0 false false }
{
    let main = off(lv, COL_IS_EXT_LINE);
    (!main | all_bits(lv, s, REGISTER_NUM))
        & (!main | (ones(lv.words(), s, REGISTER_NUM) <= 1))
        & (!main | chosen_equal(lv, s, regs, o))
}

// H: OP0 and OP1 equal registers of the current row, DST one of the next row.
pub fn keeps_operands(lv: &Row, nv: &Row) -> bool
    ensures { result ≡ keeps_rules rules_H [] lv.now nv.now 0 false false }
{
    keeps_operand(lv, COL_S_OP0_START, lv, COL_OP0)
        & keeps_operand(lv, COL_S_OP1_START, lv, COL_OP1)
        & keeps_operand(lv, COL_S_DST_START, nv, COL_DST)
}
