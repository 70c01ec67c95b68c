// The entries for callers that hand over what they read: an operand that is not below p is refused.
#![tactic(auto)]

ghost use Rattle.std.specs.Prelude.{◌≡◌, [], ◌∷◌, IfOk};
ghost use Rattle.refusals.specs.Refusal.{lowest, number_of, not_below_p};
ghost use Rattle.residue.specs.Residues.{add_p, sub_p, mul_p};
ghost use Rattle.checked_residue.specs.Answer.{checked};

use refusals::Refusal;
use residue::Residue;

// Both operands as residues.
#[tactic(auto, unfolding(refusals::specs::Refusal::canonical))]
fn operands(a: u64, b: u64) -> Result<(Residue, Residue), Refusal>
    ensures number { number_of result ≡ lowest (not_below_p (a ∷ b ∷ []) ∷ []) }
    ensures value { IfOk result (λ operands. operands ≡ (a, b)) }
{
    Ok((checks::residue(a)?, checks::residue(b)?))
}

// Sum, difference and product.
// Kept: ffi and edge_residues take each by its name, and the three share all but the operator.
pub fn add(a: u64, b: u64) -> Result<u64, Refusal>
    ensures { result ≡ checked add_p a b }
{
    let (a, b) = operands(a, b)?;
    Ok((a + b).value())
}

pub fn sub(a: u64, b: u64) -> Result<u64, Refusal>
    ensures { result ≡ checked sub_p a b }
{
    let (a, b) = operands(a, b)?;
    Ok((a - b).value())
}

pub fn mul(a: u64, b: u64) -> Result<u64, Refusal>
    ensures { result ≡ checked mul_p a b }
{
    let (a, b) = operands(a, b)?;
    Ok((a * b).value())
}
