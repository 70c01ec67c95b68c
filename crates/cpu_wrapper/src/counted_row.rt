// A row together with a number that it determines.
use crate::wrapper::lv_ext_length;
use residue::Residue;
use std::marker::Model;
use table::Row;

// A row and how many ext lines its instruction has, so that several groups compare the number and one computes it.
// A contract sees the row.
#[derive(Drop)]
pub struct CountedRow<'a> {
    row: &'a Row<'a>,
    ext_length: Residue,
}

impl<'a> Model for CountedRow<'a> {
    ghost use Rattle.std.specs.Prelude.{ℕ, List, [], ◌≡◌};
    ghost use Rattle.algebra.specs.Expr.{eval};
    ghost use Rattle.residue.specs.Residues.{residues};
    ghost use Rattle.table.specs.Cells.{cells};
    ghost use Rattle.table.specs.CpuStark.{lv_ext_length};

    ghost Value = { List ℕ };

    ghost view = { λ r. r.row.now };

    ghost invariant = { λ r. r.ext_length ≡ eval residues (cells [] r.row.now [] 0 0) lv_ext_length };
}

impl<'a> CountedRow<'a> {
    ghost use Rattle.std.specs.Prelude.{[], ◌≡◌};
    ghost use Rattle.algebra.specs.Expr.{eval};
    ghost use Rattle.residue.specs.Residues.{residues};
    ghost use Rattle.table.specs.Cells.{cells};
    ghost use Rattle.table.specs.CpuStark.{lv_ext_length};

    pub fn new(row: &'a Row<'a>) -> CountedRow<'a>
        ensures { result ≡ row.now }
    {
        CountedRow {
            row,
            ext_length: lv_ext_length(row),
        }
    }

    pub fn row(&self) -> &'a Row<'a>
        ensures { result.now ≡ self.now }
    {
        self.row
    }

    pub fn ext_length(&self) -> Residue
        ensures { result ≡ eval residues (cells [] self.now [] 0 0) lv_ext_length }
    {
        self.ext_length
    }
}
