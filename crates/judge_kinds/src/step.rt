// A pair of rows as the rules are asked of it.
#![tactic(auto, unfolding(crate::specs::Kind::number_of_kind))]

ghost use Rattle.std.specs.Prelude.{◌≡◌, eqb};
ghost use Rattle.judge_kinds.specs.Kind.{kind_number, number_of_kind};

use super::kinds::Kind;
use table::Row;

// The current row, the next row, and the kind of the current row's instruction.
// Kept: what reads the current row alone takes it and its kind; a step would ask a next row of its callers.
#[derive(Clone, Copy)]
pub struct Step<'a> {
    pub lv: &'a Row<'a>,
    pub nv: &'a Row<'a>,
    pub kind: Option<Kind>,
}

impl<'a> Step<'a> {
    pub fn is(&self, kind: Kind) -> bool
        ensures { result ≡ eqb (number_of_kind self.now.kind) (kind_number kind) }
    {
        kind.is(self.kind)
    }
}
