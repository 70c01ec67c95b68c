// Loops over the registers of a row, and writing residues to a buffer.
#![tactic(auto)]

ghost use Rattle.std.specs.Prelude.{◌≡◌, ◌+◌, ◌++◌, ◌≤◌, length, drop, get_or};
ghost use Rattle.residue.specs.Residues.{mul_p};
ghost use Rattle.parts.specs.Parts.{up_to};

use residue::{Residue, mul};

pub mod context;

// Writes the numbers of the residues to the first places; the rest of `out` is kept.
pub fn put_residues(out: &mut [u64], values: &[Residue])
    requires { length values.now ≤ length out.old }
    ensures { out.new ≡ values.now ++ drop (length values.now) out.old }
{
    let out = &mut out[..values.len()];
    // Kept: nothing is known after a loop over `out.iter_mut().zip(values)`, so the index is counted.
    for (i, value) in values.iter().enumerate() {
        out[i] = value.value();
    }
}

// The ten words from the place `from` on, each times f.
// Kept: a place in place of a slice, by which the check finds the columns of the callers' rows.
#[tactic(auto, unfolding(crate::specs::Parts::up_to))]
pub fn scaled(f: u64, words: &[u64], from: usize) -> [Residue; 10]
    requires { from + 10 ≤ length words.now }
    ensures { result ≡ up_to 10 (λ i. mul_p f (get_or words.now (from + i) 0)) }
{
    std::array::from_fn(|i| Residue::new(mul(f, words[from + i])))
}
