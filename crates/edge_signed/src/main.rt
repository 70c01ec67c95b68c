// The edges of the signed form of a residue, run through the two maps: each answer is printed on a line, and proved
// from its map's contract to be the one that is expected.
#![tactic(auto, unfolding(refusals::specs::Refusal::canonical, field_signed::specs::Signed::signed_of))]

ghost use Rattle.std.specs.Prelude.{◌≡◌, ◌≤◌, ◌<◌, nat_abs, Ok as Gives};
ghost use Rattle.algebra.specs.Prime.{p};
ghost use Rattle.refusals.specs.Refusal.{greatest};
ghost use Rattle.field_signed.specs.Answer.{to_signed, to_residue};

use algebra::P;
use field_signed::GREATEST;
use refusals::Refusal;

// The maps, each with its line printed: "signed residue = value", "unsigned value = residue", or "refused number"
// behind what was asked.
// Kept: one function over both was tried; it isn't known of its print of generic values that it borrows rightly.
fn signed(rt: HostRuntime, residue: u64) -> Result<i64, Refusal>
    ensures { result ≡ to_signed residue }
{
    let answer = field_signed_maps::signed(residue);
    let _ = match answer {
        Ok(value) => println!(rt; "signed {residue} = {value}"),
        Err(refusal) => println!(rt; "signed {residue} {refusal}"),
    };
    answer
}

fn unsigned(rt: HostRuntime, value: i64) -> Result<u64, Refusal>
    ensures { result ≡ to_residue value }
{
    let answer = field_signed_maps::unsigned(value);
    let _ = match answer {
        Ok(residue) => println!(rt; "unsigned {value} = {residue}"),
        Err(refusal) => println!(rt; "unsigned {value} {refusal}"),
    };
    answer
}

// A residue and its signed number: there, and back.
fn both(rt: HostRuntime, residue: u64, value: i64)
    requires { (to_signed residue ≡ Gives value) × (to_residue value ≡ Gives residue) }
{
    check::expect(signed(rt, residue) == Ok(value));
    check::expect(unsigned(rt, value) == Ok(residue));
}

// A number that is not below p is refused, and so is a signed number outside the range.
fn not_below_p(rt: HostRuntime, e: u64)
    requires { p ≤ e }
{
    check::expect(signed(rt, e) == Err(Refusal::NotBelowP));
}

fn outside(rt: HostRuntime, value: i64)
    requires { greatest < nat_abs value }
{
    check::expect(unsigned(rt, value) == Err(Refusal::NotBelowP));
}

fn main(rt: HostRuntime) {
    both(rt, 0, 0);
    both(rt, 1, 1);
    both(rt, GREATEST, 9223372034707292160);
    both(rt, GREATEST + 1, -9223372034707292160);
    both(rt, P - 1, -1);
    not_below_p(rt, P);
    not_below_p(rt, 0xffff_ffff_ffff_ffff);
    outside(rt, 9223372034707292161);
    outside(rt, -9223372034707292161);
    outside(rt, 9223372036854775807);
    outside(rt, -9223372036854775808);
}
