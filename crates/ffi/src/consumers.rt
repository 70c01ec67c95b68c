// The consumer for C and Rust: made by value, then lent to each call that alters it. A refused call leaves it as it
// was.
#![tactic(auto)]

ghost use Rattle.std.specs.Prelude.{◌≡◌};
ghost use Rattle.refusals.specs.Refusal.{number_of as number_of_answer};
ghost use Rattle.consumer.specs.declared.Kind.TheVariants.{Plain, Transition, FirstRow, LastRow};
ghost use Rattle.consumer.specs.Consumer.{taken, lent_after, made, accumulators_refusal, accumulators as accumulators_of};
ghost use Rattle.consumer_pair_checks.specs.PairTaken.{pair_taken};
ghost use Rattle.flat.specs.Flat.{flat_outcome};

use consumer::ConstraintConsumer;
use flat::FelmugoOutcome;
use refusals::number_of;

#[unsafe(no_mangle)]
pub extern "C" fn felmugo_consumer_new(
    alphas: &[u64],
    accs: &[u64],
    z_last: u64,
    lagrange_basis_first: u64,
    lagrange_basis_last: u64,
) -> FelmugoOutcome
    ensures { result ≡ flat_outcome (made alphas.now accs.now z_last lagrange_basis_first lagrange_basis_last) }
{
    ConstraintConsumer::new(
        alphas,
        accs,
        z_last,
        lagrange_basis_first,
        lagrange_basis_last,
    )
    .into()
}

#[unsafe(no_mangle)]
pub extern "C" fn felmugo_consumer_constraint(consumer: &mut ConstraintConsumer, value: u64) -> u64
    ensures consumer { consumer.new ≡ lent_after consumer.old (taken Plain consumer.old value) }
    ensures number { result ≡ number_of_answer (taken Plain consumer.old value) }
{
    number_of(consumer.constraint(value))
}

#[unsafe(no_mangle)]
pub extern "C" fn felmugo_consumer_constraint_transition(
    consumer: &mut ConstraintConsumer,
    value: u64,
) -> u64
    ensures consumer { consumer.new ≡ lent_after consumer.old (taken Transition consumer.old value) }
    ensures number { result ≡ number_of_answer (taken Transition consumer.old value) }
{
    number_of(consumer.constraint_transition(value))
}

#[unsafe(no_mangle)]
pub extern "C" fn felmugo_consumer_constraint_first_row(
    consumer: &mut ConstraintConsumer,
    value: u64,
) -> u64
    ensures consumer { consumer.new ≡ lent_after consumer.old (taken FirstRow consumer.old value) }
    ensures number { result ≡ number_of_answer (taken FirstRow consumer.old value) }
{
    number_of(consumer.constraint_first_row(value))
}

#[unsafe(no_mangle)]
pub extern "C" fn felmugo_consumer_constraint_last_row(
    consumer: &mut ConstraintConsumer,
    value: u64,
) -> u64
    ensures consumer { consumer.new ≡ lent_after consumer.old (taken LastRow consumer.old value) }
    ensures number { result ≡ number_of_answer (taken LastRow consumer.old value) }
{
    number_of(consumer.constraint_last_row(value))
}

#[unsafe(no_mangle)]
pub extern "C" fn felmugo_consumer_pair(
    consumer: &mut ConstraintConsumer,
    masks: &[u64],
    lv: &[u64],
    nv: &[u64],
) -> u64
    ensures consumer { consumer.new ≡ lent_after consumer.old (pair_taken masks.now lv.now nv.now consumer.old) }
    ensures number { result ≡ number_of_answer (pair_taken masks.now lv.now nv.now consumer.old) }
{
    match consumer_pair::fold_pair(*consumer, masks, lv, nv) {
        Ok(folded) => {
            *consumer = folded;
            0
        }
        Err(refusal) => refusal.number(),
    }
}

#[unsafe(no_mangle)]
pub extern "C" fn felmugo_consumer_accumulators(
    consumer: &ConstraintConsumer,
    out: &mut [u64],
) -> u64
    ensures number { result ≡ accumulators_refusal consumer.now out.old }
    ensures accumulators { out.new ≡ accumulators_of consumer.now out.old }
{
    number_of(consumer.accumulators(out))
}
