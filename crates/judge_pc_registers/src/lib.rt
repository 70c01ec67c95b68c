// Where the program counter goes and which registers are free, by the instruction kind.
#![tactic(auto, unfolding(algebra::specs::Expr::eval, rulebook::specs::Rule::holds, judge_kinds::specs::Kind::number_of_kind))]

ghost use Rattle.std.specs.Prelude.{◌≡◌, []};
ghost use Rattle.algebra.specs.Expr.{eval};
ghost use Rattle.residue.specs.Residues.{residues};
ghost use Rattle.table.specs.Cells.{cells};
ghost use Rattle.rulebook.specs.Rule.{holds};
ghost use Rattle.rulebook.specs.Rulebook.{size};
ghost use Rattle.judge_kinds.specs.Kind.{number_of_kind};
ghost use Rattle.judge_pc_registers.specs.Selected.{GoesTo, registers_free, fp_free};

use judge_columns::{off, on};
use judge_kinds::kinds::Kind;
use residue::Residue;
use table::Row;
use table::columns::*;

// The number of words of an instruction.
pub fn instruction_size(lv: &Row, kind: Option<Kind>) -> Residue
    ensures { result ≡ eval residues (cells [] lv.now [] 0 0) (size (number_of_kind kind)) }
{
    match kind {
        Some(Kind::Mload | Kind::Mstore) => Residue::new(2),
        _ => Residue::ONE + lv.at(COL_OP1_IMM),
    }
}

// Where the program counter goes.
pub fn pc_target(lv: &Row, kind: Option<Kind>) -> Residue
    ensures { GoesTo lv.now (number_of_kind kind) result }
{
    let behind = lv.at(COL_PC) + instruction_size(lv, kind);
    match kind {
        Some(Kind::Jmp | Kind::Call) => lv.at(COL_OP1),
        Some(Kind::Ret) => lv.at(COL_DST),
        Some(Kind::Cjmp) => if on(lv, COL_OP0) {
            lv.at(COL_OP1)
        } else {
            behind
        },
        _ => behind,
    }
}

// Where registers 0 to 8 need not be kept.
pub fn registers_free(lv: &Row, kind: Option<Kind>) -> bool
    ensures { result ≡ holds (cells [] lv.now [] 0 0) (registers_free (number_of_kind kind)) }
{
    match kind {
        Some(Kind::Sload | Kind::Psdn) => true,
        Some(Kind::CallSc) => on(lv, COL_IS_NEXT_LINE_DIFF_INST),
        Some(Kind::End) => off(lv, COL_IS_EXT_LINE),
        _ => false,
    }
}

// Where register 9, fp, need not be kept.
pub fn fp_free(lv: &Row, kind: Option<Kind>) -> bool
    ensures { result ≡ holds (cells [] lv.now [] 0 0) (fp_free (number_of_kind kind)) }
{
    match kind {
        Some(Kind::Ret | Kind::End) => true,
        Some(Kind::CallSc) => on(lv, COL_IS_NEXT_LINE_DIFF_INST),
        _ => false,
    }
}
