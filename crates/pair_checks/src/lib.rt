// The tests that a call for the values of a pair of rows has to pass.
#![tactic(auto)]

ghost use Rattle.std.specs.Prelude.{◌≡◌, ◌≤◌, IfOk, OnOk};
ghost use Rattle.refusals.specs.Refusal.{number_of};
ghost use Rattle.pair_checks.specs.PairValues.{pair_values_refusal};

use refusals::Refusal;
use table::{NUM_VALUES, Pair};

// The pair as a type, or why a call for its values, with so many places for them, is turned back.
#[tactic(auto, unfolding(crate::specs::PairValues::pair_values_refusal, refusals::specs::Refusal::canonical))]
pub fn accept<'a>(
    masks: &'a [u64],
    lv: &'a [u64],
    nv: &'a [u64],
    z_last: u64,
    lagrange_basis_first: u64,
    room: usize,
) -> Result<Pair<'a>, Refusal>
    ensures number { number_of result ≡ pair_values_refusal masks.now lv.now nv.now z_last lagrange_basis_first room }
    ensures value { IfOk result (λ pair. pair ≡ record { masks = masks.now; lv = lv.now; nv = nv.now; z_last = z_last; lagrange_basis_first = lagrange_basis_first }) }
    ensures room { OnOk result (226 ≤ room) }
{
    checks::sizes(masks, lv, nv)?;
    if room < NUM_VALUES {
        return Err(Refusal::ValueBuffer);
    }
    let (masks, lv, nv) = checks::lent(masks, lv, nv)?;
    Ok(Pair {
        masks,
        lv,
        nv,
        z_last: checks::residue(z_last)?,
        lagrange_basis_first: checks::residue(lagrange_basis_first)?,
    })
}
