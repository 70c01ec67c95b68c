// The entries for C and Rust: an answer is a number or a flat struct (crate flat), a slice a pointer and then a length.
#![tactic(auto)]

ghost use Rattle.std.specs.Prelude.{◌≡◌};
ghost use Rattle.residue.specs.Residues.{add_p, sub_p, mul_p};
ghost use Rattle.checked_residue.specs.Answer.{checked};
ghost use Rattle.field_signed.specs.Answer.{to_signed, to_residue};
ghost use Rattle.pair_checks.specs.PairValues.{PairValuesCall};
ghost use Rattle.pair_fold_checks.specs.PairFold.{PairFoldCall};
ghost use Rattle.judge.specs.Verdict.{verdict_of};
ghost use Rattle.runs.specs.Report.{report_of};
ghost use Rattle.flat.specs.Flat.{flat_residue, flat_signed, flat_verdict, flat_report};

use flat::{FelmugoReport, FelmugoResidue, FelmugoSigned, FelmugoVerdict};
use refusals::number_of;

mod consumers;

#[unsafe(no_mangle)]
pub extern "C" fn felmugo_add(a: u64, b: u64) -> FelmugoResidue
    ensures { result ≡ flat_residue (checked add_p a b) }
{
    checked_residue::add(a, b).into()
}

#[unsafe(no_mangle)]
pub extern "C" fn felmugo_sub(a: u64, b: u64) -> FelmugoResidue
    ensures { result ≡ flat_residue (checked sub_p a b) }
{
    checked_residue::sub(a, b).into()
}

#[unsafe(no_mangle)]
pub extern "C" fn felmugo_mul(a: u64, b: u64) -> FelmugoResidue
    ensures { result ≡ flat_residue (checked mul_p a b) }
{
    checked_residue::mul(a, b).into()
}

#[unsafe(no_mangle)]
pub extern "C" fn felmugo_signed(residue: u64) -> FelmugoSigned
    ensures { result ≡ flat_signed (to_signed residue) }
{
    field_signed_maps::signed(residue).into()
}

#[unsafe(no_mangle)]
pub extern "C" fn felmugo_unsigned(value: i64) -> FelmugoResidue
    ensures { result ≡ flat_residue (to_residue value) }
{
    field_signed_maps::unsigned(value).into()
}

#[unsafe(no_mangle)]
pub extern "C" fn felmugo_pair_values(
    masks: &[u64],
    lv: &[u64],
    nv: &[u64],
    z_last: u64,
    lagrange_basis_first: u64,
    out: &mut [u64],
) -> u64
    ensures { PairValuesCall masks.now lv.now nv.now z_last lagrange_basis_first
        out.old result out.new }
{
    number_of(adjacent_rows::adjacent_values(masks, lv, nv, z_last, lagrange_basis_first, out))
}

#[unsafe(no_mangle)]
pub extern "C" fn felmugo_pair_fold(
    masks: &[u64],
    lv: &[u64],
    nv: &[u64],
    z_last: u64,
    lagrange_basis_first: u64,
    alphas: &[u64],
    accs: &mut [u64],
) -> u64
    ensures { PairFoldCall masks.now lv.now nv.now z_last lagrange_basis_first
        alphas.now accs.old result accs.new }
{
    number_of(pair_fold::pair_fold(masks, lv, nv, z_last, lagrange_basis_first, alphas, accs))
}

#[unsafe(no_mangle)]
pub extern "C" fn felmugo_pair_judge(
    masks: &[u64],
    lv: &[u64],
    nv: &[u64],
    first: bool,
    last: bool,
) -> FelmugoVerdict
    ensures { result ≡ flat_verdict (verdict_of masks.now lv.now nv.now first last) }
{
    judge::pair_judge(masks, lv, nv, first, last).into()
}

#[unsafe(no_mangle)]
pub extern "C" fn felmugo_run_report(run: &[u64], masks: &[u64]) -> FelmugoReport
    ensures { result ≡ flat_report (report_of run.now masks.now) }
{
    runs::run_report(run, masks).into()
}
