// The residues: worked facts, and operands that are p - 1 or not below p.
#![tactic(auto, unfolding(refusals::specs::Refusal::canonical, residue::specs::Residues::add_p, residue::specs::Residues::neg_p, residue::specs::Residues::sub_p, residue::specs::Residues::mul_p))]

ghost use Rattle.std.specs.Prelude.{◌≡◌, ◌≤◌};
ghost use Rattle.algebra.specs.Prime.{p};
ghost use Rattle.residue.specs.Residues.{add_p, sub_p, mul_p};
ghost use Rattle.checked_residue.specs.Answer.{checked};

use algebra::P;
use refusals::Refusal;

// What an entry answers, printed as "a sign b = value" or "a sign b refused number".
fn ask<F: Fn(u64, u64) -> Result<u64, Refusal>>(
    rt: HostRuntime,
    entry: F,
    a: u64,
    sign: &str,
    b: u64,
) -> Result<u64, Refusal>
    requires { F.pre entry a b }
    ensures { F.post entry a b result }
{
    let answer = entry(a, b);
    let _ = match answer {
        Ok(value) => println!(rt; "{a} {sign} {b} = {value}"),
        Err(refusal) => println!(rt; "{a} {sign} {b} {refusal}"),
    };
    answer
}

// The entries, each with its line printed: the sign of a line is that of the operation that made its answer.
fn add(rt: HostRuntime, a: u64, b: u64) -> Result<u64, Refusal>
    ensures { result ≡ checked add_p a b }
{
    ask(rt, checked_residue::add, a, "+", b)
}

fn sub(rt: HostRuntime, a: u64, b: u64) -> Result<u64, Refusal>
    ensures { result ≡ checked sub_p a b }
{
    ask(rt, checked_residue::sub, a, "-", b)
}

fn mul(rt: HostRuntime, a: u64, b: u64) -> Result<u64, Refusal>
    ensures { result ≡ checked mul_p a b }
{
    ask(rt, checked_residue::mul, a, "*", b)
}

// "p−1 squared is 1. 2^32 squared is 4294967295. 0 − 1 is p−1."   (document 01)
pub fn worked(rt: HostRuntime) {
    check::expect(mul(rt, P - 1, P - 1) == Ok(1));
    check::expect(mul(rt, 4294967296, 4294967296) == Ok(4294967295));
    check::expect(sub(rt, 0, 1) == Ok(P - 1));
}

// p - 1 is accepted in either place; its product is the first of the worked facts.
fn accepted(rt: HostRuntime) {
    check::expect(add(rt, P - 1, P - 1).is_ok());
    check::expect(sub(rt, P - 1, P - 1).is_ok());
}

// A number that is not below p is refused in either place.
fn refused(rt: HostRuntime, e: u64)
    requires { p ≤ e }
{
    check::expect(add(rt, e, 0) == Err(Refusal::NotBelowP));
    check::expect(add(rt, 0, e) == Err(Refusal::NotBelowP));
    check::expect(sub(rt, e, 0) == Err(Refusal::NotBelowP));
    check::expect(sub(rt, 0, e) == Err(Refusal::NotBelowP));
    check::expect(mul(rt, e, 0) == Err(Refusal::NotBelowP));
    check::expect(mul(rt, 0, e) == Err(Refusal::NotBelowP));
}

pub fn edges(rt: HostRuntime) {
    accepted(rt);
    refused(rt, P);
    refused(rt, P + 1);
    refused(rt, 0xffff_ffff_ffff_ffff);
}
