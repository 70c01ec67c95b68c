// The entry for the values of a pair of rows.
#![tactic(auto)]

ghost use Rattle.refusals.specs.Refusal.{number_of};
ghost use Rattle.pair_checks.specs.PairValues.{PairValuesCall};

use pair_checks::accept;
use refusals::Refusal;

// Writes the 226 values of a pair of rows to the first places of `out`, each with its weight applied.
#[tactic(auto, unfolding(pair_checks::specs::PairValues::pair_values_buffer))]
pub fn pair_values(
    masks: &[u64],
    lv: &[u64],
    nv: &[u64],
    z_last: u64,
    lagrange_basis_first: u64,
    out: &mut [u64],
) -> Result<(), Refusal>
    ensures { PairValuesCall masks.now lv.now nv.now z_last lagrange_basis_first
        out.old (number_of result) out.new }
{
    let pair = accept(masks, lv, nv, z_last, lagrange_basis_first, out.len())?;
    cpu::stages::eval_packed_generic(&pair, out);
    Ok(())
}
