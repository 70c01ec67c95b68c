// The maps between a residue and its signed form.
#![tactic(auto)]

ghost use Rattle.std.specs.Prelude.{◌≡◌, nat_abs};
ghost use Rattle.field_signed.specs.Answer.{to_signed, to_residue};

use algebra::P;
use field_signed::GREATEST;
use refusals::Refusal;

// "A residue up to 9223372034707292160 is printed as it is, a larger one as itself minus p."   (document 02)
#[tactic(auto, unfolding(refusals::specs::Refusal::canonical, field_signed::specs::Signed::signed_of))]
pub fn signed(residue: u64) -> Result<i64, Refusal>
    ensures { result ≡ to_signed residue }
{
    if residue >= P {
        return Err(Refusal::NotBelowP);
    }
    if residue <= GREATEST {
        return Ok(residue as i64);
    }
    Ok(-((P - residue) as i64))
}

// How far a number is from 0.
pub fn distance(value: i64) -> u64
    ensures { result ≡ nat_abs value }
{
    value.unsigned_abs()
}

// "A signed number outside the range is refused with 7."   (document 02)
pub fn unsigned(value: i64) -> Result<u64, Refusal>
    ensures { result ≡ to_residue value }
{
    let n = distance(value);
    if n > GREATEST {
        return Err(Refusal::NotBelowP);
    }
    if value < 0 {
        return Ok(P - n);
    }
    Ok(n)
}
