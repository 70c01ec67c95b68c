// The entry that folds a pair of rows into a consumer.
#![tactic(auto)]

ghost use Rattle.std.specs.Prelude.{◌≡◌};
ghost use Rattle.consumer_pair_checks.specs.PairTaken.{pair_taken};

use consumer::ConstraintConsumer;
use consumer_pair_checks::accept;
use refusals::Refusal;
use table::NUM_VALUES;

// Folds the 226 values of a pair of rows, in order and each with the consumer's own weight applied: all of
// them, or none.
#[tactic(auto, using(accumulators::proofs::Folds::folds_in_use, rulebook::proofs::Pair::values_count), unfolding(consumer_pair_checks::specs::PairTaken::pair_taken))]
pub fn fold_pair(
    c: ConstraintConsumer,
    masks: &[u64],
    lv: &[u64],
    nv: &[u64],
) -> Result<ConstraintConsumer, Refusal>
    ensures { result ≡ pair_taken masks.now lv.now nv.now c }
{
    let pair = accept(&c, masks, lv, nv)?;
    let mut accs = c.constraint_accs;
    pair_fold::fold_values(&pair, &c.alphas[..c.count], &mut accs[..c.count]);
    Ok(ConstraintConsumer {
        constraint_accs: accs,
        folded: c.folded + NUM_VALUES as u64,
        ..c
    })
}
