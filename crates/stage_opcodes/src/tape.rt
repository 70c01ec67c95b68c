// tape.rs: the values of tape.
ghost use Rattle.std.specs.Prelude.{◌≡◌, [], ◌++◌, ◌≤◌, length, drop};
ghost use Rattle.residue.specs.Residues.{residues};
ghost use Rattle.table.specs.Cells.{cells};
ghost use Rattle.table.specs.Entry.{values};
ghost use Rattle.table.specs.Tape.{tape};

use cpu_factors::FactoredRow;
use cpu_tape::tape::*;
use cpu_tp::tp::*;
use parts::put_residues;
use table::Row;

pub fn eval_packed_generic(factored: &FactoredRow, nv: &Row, out: &mut [u64])
    requires { 21 ≤ length out.old }
    ensures { out.new ≡ values residues (cells [] factored.now.row.now nv.now 0 0) tape ++ drop 21 out.old }
{
    fill(factored, nv, &mut out[..21]);
}

// The same, in a buffer of just that length.
#[tactic(auto, unfolding(table::specs::Entry::values, table::specs::Tape::tape, table::specs::Tape::tape_ext_lines, table::specs::Tape::tape_first_ext_line, table::specs::Tape::tape_tp, table::specs::Tape::tape_filter, algebra::specs::Expr::eval))]
fn fill(factored: &FactoredRow, nv: &Row, out: &mut [u64])
    requires { length out.old ≡ 21 }
    ensures { out.new ≡ values residues (cells [] factored.now.row.now nv.now 0 0) tape }
{
    put_residues(&mut out[0..6], &tape_ext_lines(factored, nv));
    put_residues(&mut out[6..11], &tape_first_ext_line(factored, nv));
    put_residues(&mut out[11..17], &tape_tp(factored, nv));
    put_residues(&mut out[17..21], &tape_filter(factored));
}
