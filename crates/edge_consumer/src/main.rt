// The 226 constraints of a pair of rows, yielded one after the other to a lent consumer, against the fold of
// that pair, and against a consumer that takes the pair at once. What each makes of an accumulator is printed, and the
// three are proved equal from the contracts. Then the edges of the count of values.
#![tactic(auto)]

ghost use Rattle.std.specs.Prelude.{◌≡◌};
ghost use Rattle.consumer.specs.Consumer.{taken, lent_after};
ghost use Rattle.consumer_history.specs.Yielded.{taken_all};
ghost use Rattle.pair_fold_checks.specs.PairFold.{pair_fold_refusal, pair_fold_accumulators};
ghost use Rattle.edge_consumer.specs.Calls.{kinds, yielded_by};

use algebra::P;
use consumer::{ConstraintConsumer, Kind};
use edge_residues::lines;
use kinds::KINDS;
use refusals::Refusal;
use table::NUM_VALUES;
use table::columns::NUM_CPU_COLS;
use table::masks::NUM_MASKS;

mod counts;
mod kinds;

// A value to the call of its kind. A call that is turned back leaves the consumer as it was.
fn push(consumer: &mut ConstraintConsumer, kind: Kind, value: u64)
    ensures { consumer.new ≡ lent_after consumer.old (taken kind consumer.old value) }
{
    let _ = match kind {
        Kind::Plain => consumer.constraint(value),
        Kind::Transition => consumer.constraint_transition(value),
        Kind::FirstRow => consumer.constraint_first_row(value),
        Kind::LastRow => consumer.constraint_last_row(value),
    };
}

// Values one after the other, each to the call of its kind.
fn push_all(consumer: &mut ConstraintConsumer, kinds: &[Kind], values: &[u64])
    ensures { consumer.new ≡ taken_all consumer.old (yielded_by kinds.now values.now) }
{
    for (kind, value) in kinds.iter().zip(values) {
        push(consumer, *kind, *value);
    }
}

// The values of the table one after the other, each to the call of its kind.
fn push_table(consumer: &mut ConstraintConsumer, values: &[u64])
    ensures { consumer.new ≡ taken_all consumer.old (yielded_by kinds values.now) }
{
    push_all(consumer, &KINDS, values);
}

// What a consumer leaves of the accumulators that takes the constraints of a pair of rows: with both weights 1
// the values are bare, and the consumer applies its own.
fn by_consumer(
    masks: &[u64],
    lv: &[u64],
    nv: &[u64],
    z_last: u64,
    lagrange_basis_first: u64,
    alphas: &[u64],
    accs: &mut [u64],
) -> Result<(), Refusal>
    requires { pair_fold_refusal masks.now lv.now nv.now z_last lagrange_basis_first alphas.now accs.old ≡ 0 }
    ensures { accs.new ≡ pair_fold_accumulators masks.now lv.now nv.now z_last lagrange_basis_first
        alphas.now accs.old }
{
    let mut values = [0u64; NUM_VALUES];
    pair::pair_values(masks, lv, nv, 1, 1, &mut values)?;
    let mut consumer = ConstraintConsumer::new(alphas, accs, z_last, lagrange_basis_first, 1)?;
    push_table(&mut consumer, &values);
    consumer.accumulators(accs)
}

// What a consumer leaves of the accumulators that takes the pair at once.
fn by_pair(
    masks: &[u64],
    lv: &[u64],
    nv: &[u64],
    z_last: u64,
    lagrange_basis_first: u64,
    alphas: &[u64],
    accs: &mut [u64],
) -> Result<(), Refusal>
    requires { pair_fold_refusal masks.now lv.now nv.now z_last lagrange_basis_first alphas.now accs.old ≡ 0 }
    ensures { accs.new ≡ pair_fold_accumulators masks.now lv.now nv.now z_last lagrange_basis_first
        alphas.now accs.old }
{
    let consumer = ConstraintConsumer::new(alphas, accs, z_last, lagrange_basis_first, 1)?;
    let consumer = consumer_pair::fold_pair(consumer, masks, lv, nv)?;
    consumer.accumulators(accs)
}

// What the fold and what a consumer made of an accumulator.
fn compare(rt: HostRuntime, words: &str, folded: u64, pushed: u64)
    requires { pushed ≡ folded }
{
    let _ = println!(rt; "{words}{folded}, a consumer to {pushed}");
    check::expect(pushed == folded);
}

fn main(rt: HostRuntime) {
    let mut masks = [0u64; NUM_MASKS];
    masks[1] = 1;
    masks[2] = 2;
    masks[3] = 3;
    masks[4] = 4;
    let lv = [7u64; NUM_CPU_COLS];
    let nv = [11u64; NUM_CPU_COLS];
    let alphas = [0u64, 1, P - 2];
    let mut folded = [5u64, 6, P - 1];
    let mut pushed = [5u64, 6, P - 1];
    let mut at_once = [5u64, 6, P - 1];
    let answer = pair_fold::pair_fold(&masks, &lv, &nv, 3, 2, &alphas, &mut folded);
    lines::answer(rt, "three alphas", answer);
    if answer.is_err() {
        return;
    }
    let _ = by_consumer(&masks, &lv, &nv, 3, 2, &alphas, &mut pushed);
    compare(rt, "alpha 0 folds 5 to ", folded[0], pushed[0]);
    compare(rt, "alpha 1 folds 6 to ", folded[1], pushed[1]);
    compare(rt, "alpha p - 2 folds p - 1 to ", folded[2], pushed[2]);
    let _ = by_pair(&masks, &lv, &nv, 3, 2, &alphas, &mut at_once);
    compare(rt, "at once: alpha 0 folds 5 to ", folded[0], at_once[0]);
    compare(rt, "at once: alpha 1 folds 6 to ", folded[1], at_once[1]);
    compare(
        rt,
        "at once: alpha p - 2 folds p - 1 to ",
        folded[2],
        at_once[2],
    );
    counts::values(rt);
    counts::pairs(rt, &masks, &lv, &nv);
}
