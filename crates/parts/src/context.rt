// What the context registers (the storage and the code address) differ by in the next row.
ghost use Rattle.std.specs.Prelude.{◌≡◌, []};
ghost use Rattle.residue.specs.Residues.{residues};
ghost use Rattle.table.specs.Cells.{cells};
ghost use Rattle.table.specs.Entry.{values};
ghost use Rattle.parts.specs.Ctx.{ctx_differences};

use residue::{Residue, mul};
use table::Row;
use table::columns::{COL_ADDR_CODE_RANGE_START, COL_ADDR_STORAGE_RANGE_START};

// The differences of the context registers, each times f: of the storage address and of the code
// address in turn.
#[tactic(auto, unfolding(algebra::specs::Expr::eval, table::specs::Entry::values, table::specs::Entry::each, residue::specs::Residues::sub_p, crate::specs::Ctx::ctx_differences))]
pub fn ctx_differences(f: u64, lv: &Row, nv: &Row) -> [Residue; 8]
    ensures { result ≡ values residues (cells [] lv.now nv.now 0 0) (ctx_differences f) }
{
    std::array::from_fn(|i| {
        let storage_or_code = if i % 2 == 0 {
            COL_ADDR_STORAGE_RANGE_START
        } else {
            COL_ADDR_CODE_RANGE_START
        };
        let column = storage_or_code + i / 2;
        let difference = nv.at(column) - lv.at(column);
        Residue::new(mul(f, difference.value()))
    })
}
