// The lengths of ext lines.
ghost use Rattle.std.specs.Prelude.{◌≡◌};
ghost use Rattle.table.specs.CpuStark.{lv_ext_length};
ghost use Rattle.row_values.specs.RowValue.{row_value};
ghost use Rattle.worked.specs.Rows.{tload as tload_row, end as end_row};

use refusals::Refusal;
use table::columns::{COL_IS_ENTRY_SC, COL_OP0, COL_OP1, COL_S_END, COL_S_TLOAD, NUM_CPU_COLS};

// The length of a row's ext lines, printed behind the words.
fn ask(rt: HostRuntime, words: &str, row: &[u64; NUM_CPU_COLS]) -> Result<u64, Refusal>
    ensures { result ≡ row_value lv_ext_length row.now }
{
    let answer = row_values::ext_length(row);
    let _ = match answer {
        Ok(length) => println!(rt; "{words}: length {length}"),
        Err(refusal) => println!(rt; "{words}: {refusal}"),
    };
    answer
}

// The rows of a TLOAD, and of an END.
// Kept: they set other columns, and a function of the columns to set is no shorter and hides their names.
fn tload(op0: u64, op1: u64) -> [u64; NUM_CPU_COLS]
    ensures { result ≡ tload_row op0 op1 }
{
    let mut row = [0u64; NUM_CPU_COLS];
    row[COL_S_TLOAD] = 1;
    row[COL_OP0] = op0;
    row[COL_OP1] = op1;
    row
}

fn end(entry: u64) -> [u64; NUM_CPU_COLS]
    ensures { result ≡ end_row entry }
{
    let mut row = [0u64; NUM_CPU_COLS];
    row[COL_S_END] = 1;
    row[COL_IS_ENTRY_SC] = entry;
    row
}

// "TLOAD lengths: OP0 1, OP1 7 give 7; 0, 7 give 1; 2, 3 give 5. END length: entry 1 gives 0, entry 0 gives 1."
// (document 01)
#[tactic(auto, unfolding(row_values::specs::RowValue::row_value, refusals::specs::Refusal::canonical, algebra::specs::Expr::eval, residue::specs::Residues::add_p, residue::specs::Residues::neg_p, residue::specs::Residues::mul_p, table::specs::CpuStark::lv_ext_length))]
pub fn worked(rt: HostRuntime) {
    check::expect(ask(rt, "TLOAD, OP0 1, OP1 7", &tload(1, 7)) == Ok(7));
    check::expect(ask(rt, "TLOAD, OP0 0, OP1 7", &tload(0, 7)) == Ok(1));
    check::expect(ask(rt, "TLOAD, OP0 2, OP1 3", &tload(2, 3)) == Ok(5));
    check::expect(ask(rt, "END, entry 1", &end(1)) == Ok(0));
    check::expect(ask(rt, "END, entry 0", &end(0)) == Ok(1));
}
