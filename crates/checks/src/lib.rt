// Whether a condition of the refusal table holds, of masks and rows that a caller lent.
#![tactic(auto)]

ghost use Rattle.std.specs.Prelude.{◌≡◌, true, [], ◌∷◌, ◌++◌, ◌+◌, ◌≤◌, length, IfOk, OnOk};
ghost use Rattle.refusals.specs.Refusal.{lowest, number_of, sizes as size_conditions, contents as content_conditions, mask_contents, row_contents, not_below_p, alpha_count as alpha_condition, fold_count as fold_condition, canonical as is_canonical, distinct as are_distinct};

use algebra::P;
use refusals::Refusal;
use residue::Residue;
use table::columns::NUM_CPU_COLS;
use table::masks::NUM_MASKS;
use table::{Masks, Row};

// The most values that may be folded since the accumulators were lent.
const MOST_FOLDED: u64 = 4294967295;

// How many numbers are tested at once.
const TESTED: usize = 32;

// Every one of a few numbers is below p. Each is tested, also behind one that is not, so that several are tested at once.
fn each_canonical(numbers: &[u64]) -> bool
    ensures { result ≡ is_canonical numbers.now }
{
    numbers.iter().fold(true, |below, &x| below & (x < P))
}

// Every number is below p. Nothing is read behind the part in which one is not.
pub fn canonical(numbers: &[u64]) -> bool
    ensures { result ≡ is_canonical numbers.now }
{
    let mut rest = numbers;
    while let Some((part, others)) = rest.split_first_chunk::<TESTED>() {
        if !each_canonical(part) {
            return false;
        }
        rest = others;
    }
    each_canonical(rest)
}

// No two numbers are equal.
#[tactic(auto, using(refusals::proofs::Laws::distinct_first), unfolding(refusals::specs::Refusal::distinct))]
fn distinct(numbers: &[u64]) -> bool
    ensures { result ≡ are_distinct numbers.now }
{
    match numbers {
        [] => true,
        [first, rest @ ..] => !rest.contains(first) && distinct(rest),
    }
}

// The lengths of the masks and of a pair of rows are theirs.
pub fn sizes(masks: &[u64], lv: &[u64], nv: &[u64]) -> Result<(), Refusal>
    ensures { number_of result ≡ lowest (size_conditions masks.now lv.now nv.now) }
{
    if lv.len() != NUM_CPU_COLS || nv.len() != NUM_CPU_COLS {
        return Err(Refusal::RowLength);
    }
    if masks.len() != NUM_MASKS {
        return Err(Refusal::MaskCount);
    }
    Ok(())
}

// The contents of 25 masks are theirs.
pub fn mask_contents(masks: &[u64]) -> Result<(), Refusal>
    requires { length masks.now ≡ 25 }
    ensures { number_of result ≡ lowest (mask_contents masks.now ∷ []) }
{
    if !canonical(masks) || !distinct(&masks[0..5]) {
        return Err(Refusal::MaskContents);
    }
    Ok(())
}

// The contents of a row are its own, of any length.
fn row_contents(row: &[u64]) -> Result<(), Refusal>
    ensures { number_of result ≡ lowest (row_contents row.now ∷ []) }
{
    if !canonical(row) {
        return Err(Refusal::RowContents);
    }
    Ok(())
}

// The contents of 25 masks and of a pair of rows, of any length, are theirs.
pub fn contents(masks: &[u64], lv: &[u64], nv: &[u64]) -> Result<(), Refusal>
    requires { length masks.now ≡ 25 }
    ensures { number_of result ≡ lowest (content_conditions masks.now lv.now nv.now) }
{
    mask_contents(masks)?;
    row_contents(lv)?;
    row_contents(nv)
}

// The masks, as a type, of 25 words.
#[tactic(auto, using(refusals::proofs::Laws::below_p))]
pub fn masks(words: &[u64]) -> Result<Masks, Refusal>
    requires { length words.now ≡ 25 }
    ensures number { number_of result ≡ lowest (mask_contents words.now ∷ []) }
    ensures value { IfOk result (λ masks. masks ≡ words.now) }
{
    mask_contents(words)?;
    Ok(Masks::lend(words))
}

// A row, as a type, of 94 words.
#[tactic(auto, using(refusals::proofs::Laws::below_p))]
pub fn row(words: &[u64]) -> Result<Row, Refusal>
    requires { length words.now ≡ 94 }
    ensures number { number_of result ≡ lowest (row_contents words.now ∷ []) }
    ensures value { IfOk result (λ row. row ≡ words.now) }
{
    row_contents(words)?;
    Ok(Row::lend(words))
}

// The masks and a pair of rows, as types, of 25 and 94 words.
#[tactic(auto, using(refusals::proofs::Laws::below_p))]
pub fn lent<'a>(
    masks: &'a [u64],
    lv: &'a [u64],
    nv: &'a [u64],
) -> Result<(Masks<'a>, Row<'a>, Row<'a>), Refusal>
    requires masks { length masks.now ≡ 25 }
    requires local { length lv.now ≡ 94 }
    requires next { length nv.now ≡ 94 }
    ensures number { number_of result ≡ lowest (content_conditions masks.now lv.now nv.now) }
    ensures value { IfOk result (λ accepted. accepted ≡ (masks.now, lv.now, nv.now)) }
{
    contents(masks, lv, nv)?;
    Ok((Masks::lend(masks), Row::lend(lv), Row::lend(nv)))
}

// There are 1 to 8 alphas, and as many accumulators.
pub fn alpha_count(alphas: usize, accs: usize) -> Result<(), Refusal>
    ensures { number_of result ≡ lowest (alpha_condition alphas accs ∷ []) }
{
    if alphas == 0 || alphas > 8 || accs != alphas {
        return Err(Refusal::AlphaCount);
    }
    Ok(())
}

// Weights, alphas and accumulators are below p.
#[tactic(auto, using(refusals::proofs::Laws::appended))]
pub fn below_p(weights: &[u64], alphas: &[u64], accs: &[u64]) -> Result<(), Refusal>
    ensures number { number_of result ≡ lowest (not_below_p (weights.now ++ alphas.now ++ accs.now) ∷ []) }
    ensures weights { OnOk result (is_canonical weights.now ≡ true) }
    ensures alphas { OnOk result (is_canonical alphas.now ≡ true) }
    ensures accumulators { OnOk result (is_canonical accs.now ≡ true) }
{
    if !canonical(weights) || !canonical(alphas) || !canonical(accs) {
        return Err(Refusal::NotBelowP);
    }
    Ok(())
}

// Behind so many folded values more may be folded.
pub fn fold_count(folded: u64, more: u64) -> Result<(), Refusal>
    ensures number { number_of result ≡ lowest (fold_condition folded more ∷ []) }
    ensures room { OnOk result (folded + more ≤ 4294967295) }
{
    if folded > MOST_FOLDED || more > MOST_FOLDED - folded {
        return Err(Refusal::FoldCount);
    }
    Ok(())
}

// A weight, a lone operand or a folded value, as a type.
#[tactic(auto, unfolding(refusals::specs::Refusal::canonical))]
pub fn residue(word: u64) -> Result<Residue, Refusal>
    ensures number { number_of result ≡ lowest (not_below_p (word ∷ []) ∷ []) }
    ensures value { IfOk result (λ residue. residue ≡ word) }
{
    if word < P {
        Ok(Residue::new(word))
    } else {
        Err(Refusal::NotBelowP)
    }
}
