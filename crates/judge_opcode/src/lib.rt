// The masks of an instruction kind.
#![tactic(auto, unfolding(algebra::specs::Expr::eval, rulebook::specs::Rule::holds, judge_kinds::specs::Kind::number_of_kind))]

ghost use Rattle.std.specs.Prelude.{◌≡◌, [], ◌<◌};
ghost use Rattle.table.specs.Columns.{COL-OPCODE};
ghost use Rattle.table.specs.Masks.{NUM-MASKS};
ghost use Rattle.table.specs.Cells.{cells, lv as lv_of, mask as mask_of};
ghost use Rattle.rulebook.specs.Rule.{◌≐◌, holds};
ghost use Rattle.judge_kinds.specs.Kind.{number_of_kind};
ghost use Rattle.judge_opcode.specs.Opcode.{opcode_of};

use judge_columns::equal;
use judge_kinds::kinds::Kind;
use table::columns::*;
use table::{Masks, Row, masks as mask};

// Whether OPCODE is the mask at a place.
pub fn named(masks: &Masks, lv: &Row, place: usize) -> bool
    requires { place < NUM-MASKS }
    ensures { result ≡ holds (cells masks.now lv.now [] 0 0) (lv_of COL-OPCODE ≐ mask_of place) }
{
    equal(lv.at(COL_OPCODE), masks.at(place))
}

// OPCODE is a mask of the kind: of one of its names, or its own.
pub fn has_opcode(masks: &Masks, lv: &Row, kind: Option<Kind>) -> bool
    ensures { result ≡ holds (cells masks.now lv.now [] 0 0) (opcode_of (number_of_kind kind)) }
{
    match kind {
        Some(Kind::SimpleArithmaticOp) => {
            named(masks, lv, mask::ADD)
                | named(masks, lv, mask::MUL)
                | named(masks, lv, mask::EQ)
                | named(masks, lv, mask::NEQ)
                | named(masks, lv, mask::ASSERT)
        }
        Some(Kind::Bitwise) => named(masks, lv, mask::AND)
            | named(masks, lv, mask::OR)
            | named(masks, lv, mask::XOR),
        Some(Kind::Mov) => named(masks, lv, mask::MOV),
        Some(Kind::Jmp) => named(masks, lv, mask::JMP),
        Some(Kind::Cjmp) => named(masks, lv, mask::CJMP),
        Some(Kind::Call) => named(masks, lv, mask::CALL),
        Some(Kind::Ret) => named(masks, lv, mask::RET),
        Some(Kind::Mload) => named(masks, lv, mask::MLOAD),
        Some(Kind::Mstore) => named(masks, lv, mask::MSTORE),
        Some(Kind::End) => named(masks, lv, mask::END),
        Some(Kind::Rc) => named(masks, lv, mask::RC),
        Some(Kind::Not) => named(masks, lv, mask::NOT),
        Some(Kind::Gte) => named(masks, lv, mask::GTE),
        Some(Kind::Psdn) => named(masks, lv, mask::POSEIDON),
        Some(Kind::Sload) => named(masks, lv, mask::SLOAD),
        Some(Kind::Sstore) => named(masks, lv, mask::SSTORE),
        Some(Kind::Tload) => named(masks, lv, mask::TLOAD),
        Some(Kind::Tstore) => named(masks, lv, mask::TSTORE),
        Some(Kind::CallSc) => named(masks, lv, mask::SCCALL),
        None => false,
    }
}
