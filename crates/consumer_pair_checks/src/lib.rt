// The tests that a call has to pass by which a pair of rows is folded into a consumer.
#![tactic(auto)]

ghost use Rattle.std.specs.Prelude.{◌≡◌, ◌+◌, ◌≤◌, length, take, IfOk, OnOk};
ghost use Rattle.refusals.specs.Refusal.{number_of};
ghost use Rattle.pair_fold_checks.specs.PairFold.{Folding};
ghost use Rattle.consumer_pair_checks.specs.PairTaken.{pair_taken_refusal};

use consumer::ConstraintConsumer;
use refusals::Refusal;
use residue::Residue;
use table::{NUM_VALUES, Pair};

// The pair under the consumer's own weights, as a type, or why the call is turned back.
#[tactic(auto, unfolding(crate::specs::PairTaken::pair_taken_refusal))]
pub fn accept<'a>(
    c: &ConstraintConsumer,
    masks: &'a [u64],
    lv: &'a [u64],
    nv: &'a [u64],
) -> Result<Pair<'a>, Refusal>
    ensures number { number_of result ≡ pair_taken_refusal masks.now lv.now nv.now c.now }
    ensures value { IfOk result (λ pair. pair ≡ record { masks = masks.now; lv = lv.now; nv = nv.now; z_last = c.now.z_last; lagrange_basis_first = c.now.lagrange_basis_first }) }
    ensures operands { OnOk result (Folding (take c.now.count c.now.alphas) (take c.now.count c.now.constraint_accs)) }
    ensures count { OnOk result (c.now.count ≤ 8) }
    ensures room { OnOk result (c.now.folded + 226 ≤ 4294967295) }
{
    checks::sizes(masks, lv, nv)?;
    checks::alpha_count(c.count, c.count)?;
    let (masks, lv, nv) = checks::lent(masks, lv, nv)?;
    consumer::below_p(c)?;
    checks::fold_count(c.folded, NUM_VALUES as u64)?;
    Ok(Pair {
        masks,
        lv,
        nv,
        z_last: Residue::new(c.z_last),
        lagrange_basis_first: Residue::new(c.lagrange_basis_first),
    })
}
