// Values of one row, taken plainly: the core under the record of adjacent rows.
#![tactic(auto)]

ghost use Rattle.std.specs.Prelude.{◌≡◌, IfOk};
ghost use Rattle.refusals.specs.Refusal.{lowest, number_of};
ghost use Rattle.table.specs.CpuStark.{lv_is_ext_inst, lv_ext_length};
ghost use Rattle.row_values.specs.RowValue.{row_conditions, row_value};

use refusals::Refusal;
use table::Row;
use table::columns::NUM_CPU_COLS;

// The row as a type, or why it is turned back.
fn accept(row: &[u64]) -> Result<Row, Refusal>
    ensures number { number_of result ≡ lowest (row_conditions row.now) }
    ensures value { IfOk result (λ accepted. accepted ≡ row.now) }
{
    if row.len() != NUM_CPU_COLS {
        return Err(Refusal::RowLength);
    }
    checks::row(row)
}

// Whether the row's instruction has ext lines.
#[tactic(auto, unfolding(crate::specs::RowValue::row_value))]
pub fn is_ext_inst(row: &[u64]) -> Result<u64, Refusal>
    ensures { result ≡ row_value lv_is_ext_inst row.now }
{
    let row = accept(row)?;
    Ok(cpu_wrapper::wrapper::is_ext_inst(&row).value())
}

// How many ext lines the row's instruction has.
// Kept: the Rust's two computed fields, each a call of its own, with its own expression.
#[tactic(auto, unfolding(crate::specs::RowValue::row_value))]
pub fn ext_length(row: &[u64]) -> Result<u64, Refusal>
    ensures { result ≡ row_value lv_ext_length row.now }
{
    let row = accept(row)?;
    Ok(cpu_wrapper::wrapper::lv_ext_length(&row).value())
}
