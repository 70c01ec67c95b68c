// The tests that a call for the fold of a pair of rows has to pass.
#![tactic(auto)]

ghost use Rattle.std.specs.Prelude.{◌≡◌, IfOk, OnOk};
ghost use Rattle.refusals.specs.Refusal.{number_of};
ghost use Rattle.pair_fold_checks.specs.PairFold.{Folding, pair_fold_refusal};

use refusals::Refusal;
use residue::Residue;
use table::Pair;

// The pair as a type, or why a call for its fold is turned back.
#[tactic(auto, unfolding(crate::specs::PairFold::pair_fold_refusal, refusals::specs::Refusal::canonical))]
pub fn accept<'a>(
    masks: &'a [u64],
    lv: &'a [u64],
    nv: &'a [u64],
    z_last: u64,
    lagrange_basis_first: u64,
    alphas: &[u64],
    accs: &[u64],
) -> Result<Pair<'a>, Refusal>
    ensures number { number_of result ≡ pair_fold_refusal masks.now lv.now nv.now z_last lagrange_basis_first alphas.now accs.now }
    ensures value { IfOk result (λ pair. pair ≡ record { masks = masks.now; lv = lv.now; nv = nv.now; z_last = z_last; lagrange_basis_first = lagrange_basis_first }) }
    ensures operands { OnOk result (Folding alphas.now accs.now) }
{
    checks::sizes(masks, lv, nv)?;
    checks::alpha_count(alphas.len(), accs.len())?;
    let (masks, lv, nv) = checks::lent(masks, lv, nv)?;
    checks::below_p(&[z_last, lagrange_basis_first], alphas, accs)?;
    Ok(Pair {
        masks,
        lv,
        nv,
        z_last: Residue::new(z_last),
        lagrange_basis_first: Residue::new(lagrange_basis_first),
    })
}
