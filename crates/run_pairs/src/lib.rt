// A run of rows: the tests that it has to pass, and its pairs.
#![tactic(auto)]

ghost use Rattle.std.specs.Prelude.{◌≡◌, ◌<◌, IfOk};
ghost use Rattle.refusals.specs.Refusal.{number_of, run_length};
ghost use Rattle.run_pairs.specs.Run.{row_at, row_count, next_row_index, last_weight, first_weight, run_refusal};

use refusals::Refusal;
use residue::Residue;
use table::columns::NUM_CPU_COLS;
use table::masks::NUM_MASKS;
use table::{Masks, Pair, Row};

// The most rows of a run.
pub const MAX_ROWS: usize = 65_536;

// A run that is not turned back, and its masks.
#[derive(Clone, Copy)]
pub struct Run<'a> {
    pub words: &'a [u64],
    pub masks: &'a [u64],
    ghost accepted: { run_refusal words.now masks.now ≡ 0 },
}

// The first-row weight of pair i.
pub fn first_weight(i: usize) -> Residue
    ensures { result ≡ first_weight i }
{
    if i == 0 { Residue::ONE } else { Residue::ZERO }
}

// The run is not 1 to 65,536 whole rows.
fn run_length(run: &[u64]) -> bool
    ensures { result ≡ (run_length run.now).holds }
{
    run.len() % NUM_CPU_COLS != 0 || run.len() == 0 || run.len() / NUM_CPU_COLS > MAX_ROWS
}

impl<'a> Run<'a> {
    // The run as a type, or why it is turned back.
    #[tactic(auto, unfolding(crate::specs::Run::run_refusal))]
    pub fn accept(words: &'a [u64], masks: &'a [u64]) -> Result<Run<'a>, Refusal>
        ensures number { number_of result ≡ run_refusal words.now masks.now }
        ensures value { IfOk result (λ run. (run.words.now ≡ words.now) × (run.masks.now ≡ masks.now)) }
    {
        if run_length(words) {
            return Err(Refusal::RowLength);
        }
        if masks.len() != NUM_MASKS {
            return Err(Refusal::MaskCount);
        }
        checks::mask_contents(masks)?;
        if !checks::canonical(words) {
            return Err(Refusal::RowContents);
        }
        Ok(Run { words, masks })
    }

    // So many rows it has, and so many pairs.
    pub fn rows(self) -> usize
        ensures { result ≡ row_count self.entry.words.now }
    {
        self.words.len() / NUM_CPU_COLS
    }

    fn row(self, i: usize) -> Row<'a>
        requires { i < row_count self.words.now }
        ensures { result ≡ row_at self.entry.words.now i }
    {
        let at = NUM_CPU_COLS * i;
        Row::lend(&self.words[at..at + NUM_CPU_COLS])
    }

    // Pair i: the last one returns to row 0.
    pub fn pair(self, i: usize) -> Pair<'a>
        requires { i < row_count self.words.now }
        ensures { result ≡ record { masks = self.entry.masks.now; lv = row_at self.entry.words.now i; nv = row_at self.entry.words.now (next_row_index (row_count self.entry.words.now) i); z_last = last_weight (row_count self.entry.words.now) i; lagrange_basis_first = first_weight i } }
    {
        let last = i + 1 == self.rows();
        Pair {
            masks: Masks::lend(self.masks),
            lv: self.row(i),
            nv: self.row(if last { 0 } else { i + 1 }),
            z_last: if last { Residue::ZERO } else { Residue::ONE },
            lagrange_basis_first: first_weight(i),
        }
    }
}
