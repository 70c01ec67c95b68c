// How many of some values are not 0, and which is the first.
#![tactic(auto)]

ghost use Rattle.std.specs.Prelude.{◌≡◌};
ghost use Rattle.tally.specs.Tally.{tally_of};

// How many values are not 0, and the number of the first, counted from 1; 0 where there is none.
#[derive(Clone, Copy)]
pub struct Tally {
    pub count: u64,
    // Kept: rowdesk prints it as it is, as "lowest such number or 0" (document 01), so it is no Option.
    pub lowest: u64,
}

// The tally of values.
// Kept: one walk gives the count and the first, where `filter(..).count()` and `position(..)` would be two.
pub fn count_nonzero(values: &[u64]) -> Tally
    ensures { result ≡ tally_of values.now }
{
    let mut count = 0u64;
    let mut lowest = 0u64;
    for (i, value) in values.iter().enumerate() {
        if *value != 0 {
            count += 1;
            if lowest == 0 {
                lowest = i as u64 + 1;
            }
        }
    }
    Tally { count, lowest }
}
