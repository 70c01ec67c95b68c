// The report of a run of rows.
#![tactic(auto)]

ghost use Rattle.std.specs.Prelude.{◌≡◌, Ok};
ghost use Rattle.answers.specs.Report.{told};
ghost use Rattle.run_pairs.specs.Run.{pairs_of};
ghost use Rattle.runs.specs.Report.{reported, report_of};

use answers::{Report, Spot};
use pair_tally::pair_tally;
use refusals::Refusal;
use run_pairs::Run;

// The report of a run that is not turned back.
fn walk(run: Run) -> Report
    ensures { told (Ok result) ≡ reported (pairs_of run.entry.words.now run.entry.masks.now) }
{
    let rows = run.rows();
    let mut failing: u64 = 0;
    let mut spot = Spot::Clean;
    // Kept: the spot names the pair by i, and a `fold` over `0..rows` would carry count and spot in a tuple.
    for i in 0..rows {
        let tally = pair_tally(&run.pair(i));
        if tally.count != 0 {
            if failing == 0 {
                spot = Spot::At(i as u64, tally.lowest);
            }
            failing += 1;
        }
    }
    Report {
        pairs: rows as u64,
        failing,
        spot,
    }
}

// The report of a run, or why it is turned back.
#[tactic(auto, using(crate::proofs::Found::report_refused, crate::proofs::Found::report_done, refusals::proofs::Laws::number_positive))]
pub fn run_report(run: &[u64], masks: &[u64]) -> Result<Report, Refusal>
    ensures { told result ≡ report_of run.now masks.now }
{
    Ok(walk(Run::accept(run, masks)?))
}
