// How many values of a pair are not 0, and which is the first.
#![tactic(auto)]

ghost use Rattle.std.specs.Prelude.{◌≡◌};
ghost use Rattle.table.specs.Table.{pair_values};
ghost use Rattle.tally.specs.Tally.{tally_of};

use table::{NUM_VALUES, Pair};
use tally::{Tally, count_nonzero};

// The tally of the values of a pair.
pub fn pair_tally(pair: &Pair) -> Tally
    ensures { result ≡ tally_of (pair_values pair.now.masks pair.now.lv pair.now.nv pair.now.z_last pair.now.lagrange_basis_first) }
{
    let mut values = [0u64; NUM_VALUES];
    cpu::stages::eval_packed_generic(pair, &mut values);
    count_nonzero(&values)
}
