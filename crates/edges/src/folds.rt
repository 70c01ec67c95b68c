// The fold of the zero row's pair.
ghost use Rattle.std.specs.Prelude.{◌≡◌, [], ◌∷◌, ◌≤◌, take, replicate};
ghost use Rattle.refusals.specs.Refusal.{number_of};
ghost use Rattle.pair_fold_checks.specs.PairFold.{pair_fold_refusal};
ghost use Rattle.worked.specs.Rows.{powers, zeros};

use crate::masks::POWERS;
use algebra::P;
use edge_residues::lines;
use refusals::Refusal;
use table::columns::NUM_CPU_COLS;

// One more than the most alphas.
const NINE: usize = 9;

// "That pair folds from 0 to 0 under alpha 0 and 1, and under 2 to 18446673700603314177."   (document 01)
pub fn worked(rt: HostRuntime) {
    let row = [0u64; NUM_CPU_COLS];
    let alphas = [0u64, 1, 2];
    let mut accs = [0u64; 3];
    let _ = pair_fold::pair_fold(&POWERS, &row, &row, 0, 1, &alphas, &mut accs);
    lines::number(rt, "zero row: alpha 0 folds 0 to ", accs[0]);
    lines::number(rt, "zero row: alpha 1 folds 0 to ", accs[1]);
    lines::number(rt, "zero row: alpha 2 folds 0 to ", accs[2]);
    check::expect(accs[0] == 0);
    check::expect(accs[1] == 0);
    check::expect(accs[2] == 18446673700603314177);
}

// Why the fold under these alphas is turned back, if it is, printed behind the words.
fn ask(rt: HostRuntime, words: &str, alphas: &[u64], accs: &mut [u64]) -> Result<(), Refusal>
    ensures { number_of result ≡ pair_fold_refusal powers zeros zeros 0 1 alphas.now accs.old }
{
    let row = [0u64; NUM_CPU_COLS];
    let answer = pair_fold::pair_fold(&POWERS, &row, &row, 0, 1, alphas, accs);
    lines::answer(rt, words, answer);
    answer
}

// With n alphas and as many accumulators, all 0.
fn ask_count(rt: HostRuntime, words: &str, n: usize) -> Result<(), Refusal>
    requires { n ≤ 9 }
    ensures { number_of result ≡ pair_fold_refusal powers zeros zeros 0 1 (take n (replicate 9 0)) (take n (replicate 9 0)) }
{
    let alphas = [0u64; NINE];
    let mut accs = [0u64; NINE];
    ask(rt, words, &alphas[..n], &mut accs[..n])
}

// With one alpha and its accumulator.
fn ask_one(rt: HostRuntime, words: &str, alpha: u64, acc: u64) -> Result<(), Refusal>
    ensures { number_of result ≡ pair_fold_refusal powers zeros zeros 0 1 (alpha ∷ []) (acc ∷ []) }
{
    let alphas = [alpha];
    let mut accs = [acc];
    ask(rt, words, &alphas, &mut accs)
}

// "0, 1, 8, 9 alphas"   (document 01)
#[tactic(auto, using(crate::proofs::Answers::told_by_number), unfolding(pair_fold_checks::specs::PairFold::pair_fold_refusal, refusals::specs::Refusal::canonical, refusals::specs::Refusal::distinct))]
fn counts(rt: HostRuntime) {
    check::expect(ask_count(rt, "0 alphas", 0) == Err(Refusal::AlphaCount));
    check::expect(ask_count(rt, "1 alpha", 1) == Ok(()));
    check::expect(ask_count(rt, "8 alphas", 8) == Ok(()));
    check::expect(ask_count(rt, "9 alphas", 9) == Err(Refusal::AlphaCount));
}

// "p−1 and p"   (document 01)
#[tactic(auto, using(crate::proofs::Answers::told_by_number), unfolding(pair_fold_checks::specs::PairFold::pair_fold_refusal, refusals::specs::Refusal::canonical, refusals::specs::Refusal::distinct))]
fn limits(rt: HostRuntime) {
    check::expect(ask_one(rt, "an alpha p - 1", P - 1, 0) == Ok(()));
    check::expect(ask_one(rt, "an alpha p", P, 0) == Err(Refusal::NotBelowP));
    check::expect(ask_one(rt, "an accumulator p - 1", 0, P - 1) == Ok(()));
    check::expect(ask_one(rt, "an accumulator p", 0, P) == Err(Refusal::NotBelowP));
}

pub fn edges(rt: HostRuntime) {
    counts(rt);
    limits(rt);
}
