// The judge: whether a pair of rows keeps every rule of the rulebook.
#![tactic(auto)]

ghost use Rattle.std.specs.Prelude.{◌≡◌};
ghost use Rattle.judge.specs.Verdict.{verdict_of};

use answers::Verdict;
use judge_plain::plain_flags;
use judge_rules::keeps;
use refusals::Refusal;

// Whether the pair of rows keeps the rules, for a row that is first, or last; or why the call is turned back.
#[tactic(auto, unfolding(crate::specs::Verdict::judge_refusal, crate::specs::Verdict::verdict_of))]
pub fn pair_judge(
    masks: &[u64],
    lv: &[u64],
    nv: &[u64],
    first: bool,
    last: bool,
) -> Result<Verdict, Refusal>
    ensures { result ≡ verdict_of masks.now lv.now nv.now first last }
{
    checks::sizes(masks, lv, nv)?;
    let (masks, lv, nv) = checks::lent(masks, lv, nv)?;
    if !plain_flags(&lv, &nv) {
        return Err(Refusal::FlagsNotPlain);
    }
    if keeps(&masks, &lv, &nv, first, last) {
        Ok(Verdict::Keeps)
    } else {
        Ok(Verdict::Breaks)
    }
}
