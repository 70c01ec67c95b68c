// The kind of a row's instruction, the kinds that may have ext lines, and the number of those lines.
#![tactic(auto, unfolding(algebra::specs::Expr::eval, rulebook::specs::Rule::holds, residue::specs::Residues::sub_p, crate::specs::Kind::number_of_kind))]

ghost use Rattle.std.specs.Prelude.{◌≡◌, ◌+◌, []};
ghost use Rattle.algebra.specs.Expr.{eval};
ghost use Rattle.refusals.specs.Refusal.{member};
ghost use Rattle.residue.specs.Residues.{residues};
ghost use Rattle.table.specs.Columns.{COL-S-SIMPLE-ARITHMATIC-OP};
ghost use Rattle.table.specs.Cells.{cells};
ghost use Rattle.rulebook.specs.Rule.{holds};
ghost use Rattle.rulebook.specs.Kind.{kind_of};
ghost use Rattle.rulebook.specs.Words.{on, some, next_among};
ghost use Rattle.rulebook.specs.Rulebook.{ext_kinds, ext_length};
ghost use Rattle.judge_kinds.specs.Kind.{number_of_kind};

use super::kinds::Kind;
use judge_columns::on;
use residue::Residue;
use table::Row;
use table::columns::*;

// The kind whose selector is the first that is 1.
pub fn kind(lv: &Row) -> Option<Kind>
    ensures { number_of_kind result ≡ kind_of (cells [] lv.now [] 0 0) }
{
    let columns = lv.words();
    let selectors = &columns[COL_S_SIMPLE_ARITHMATIC_OP..COL_S_SIMPLE_ARITHMATIC_OP
        + NUM_OP_SELECTOR];
    Kind::ALL
        .iter()
        .zip(selectors)
        .find(|(_, selector)| **selector == 1)
        .map(|(kind, _)| *kind)
}

// The kinds that may have ext lines.
pub fn is_ext_kind(kind: Option<Kind>) -> bool
    ensures { result ≡ member (number_of_kind kind) ext_kinds }
{
    match kind {
        Some(Kind::Sload | Kind::Sstore | Kind::Tload | Kind::Tstore | Kind::CallSc | Kind::End) =>
            true,
        _ => false,
    }
}

// Whether the next row is of such a kind, by its selectors.
pub fn next_is_ext_kind(nv: &Row) -> bool
    ensures next { result ≡ holds (cells [] [] nv.now 0 0) (next_among ext_kinds) }
    ensures row { result ≡ holds (cells [] nv.now [] 0 0) (some ext_kinds (λ j. on (COL-S-SIMPLE-ARITHMATIC-OP + j))) }
{
    on(nv, COL_S_SLOAD)
        | on(nv, COL_S_SSTORE)
        | on(nv, COL_S_TLOAD)
        | on(nv, COL_S_TSTORE)
        | on(nv, COL_S_CALL_SC)
        | on(nv, COL_S_END)
}

// The number of ext lines of an instruction.
pub fn ext_length(lv: &Row, kind: Option<Kind>) -> Residue
    ensures { result ≡ eval residues (cells [] lv.now [] 0 0) (ext_length (number_of_kind kind)) }
{
    match kind {
        Some(Kind::Sload | Kind::Sstore | Kind::CallSc) => Residue::ONE,
        Some(Kind::Tload) => lv.at(COL_OP0) * lv.at(COL_OP1) + Residue::ONE - lv.at(COL_OP0),
        Some(Kind::Tstore) => lv.at(COL_OP1),
        Some(Kind::End) => Residue::ONE - lv.at(COL_IS_ENTRY_SC),
        _ => Residue::ZERO,
    }
}
