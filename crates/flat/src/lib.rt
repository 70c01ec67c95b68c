// Answers as flat structs, for C and Rust.
// Kept: C has no Result, so a number stands beside the value.
#![tactic(auto)]

use answers::{Report, Spot, Verdict};
use consumer::ConstraintConsumer;
use refusals::Refusal;

// A residue, or the number of the refusal with the value 0.
#[repr(C)]
#[derive(Clone, Copy)]
pub struct FelmugoResidue {
    pub number: u64,
    pub value: u64,
}

impl From<Result<u64, Refusal>> for FelmugoResidue {
    ghost use Rattle.std.specs.Prelude.{◌≡◌};
    ghost use Rattle.flat.specs.Flat.{flat_residue};

    ghost from_gives = { λ answer flat. flat ≡ flat_residue answer };

    fn from(answer: Result<u64, Refusal>) -> FelmugoResidue {
        match answer {
            Ok(residue) => FelmugoResidue {
                number: 0,
                value: residue,
            },
            Err(refusal) => FelmugoResidue {
                number: refusal.number(),
                value: 0,
            },
        }
    }
}

// A signed number, or the number of the refusal with the value 0.
#[repr(C)]
#[derive(Clone, Copy)]
pub struct FelmugoSigned {
    pub number: u64,
    pub value: i64,
}

impl From<Result<i64, Refusal>> for FelmugoSigned {
    ghost use Rattle.std.specs.Prelude.{◌≡◌};
    ghost use Rattle.flat.specs.Flat.{flat_signed};

    ghost from_gives = { λ answer flat. flat ≡ flat_signed answer };

    fn from(answer: Result<i64, Refusal>) -> FelmugoSigned {
        match answer {
            Ok(signed) => FelmugoSigned {
                number: 0,
                value: signed,
            },
            Err(refusal) => FelmugoSigned {
                number: refusal.number(),
                value: 0,
            },
        }
    }
}

// A verdict: keeps 1 for "keeps", else 0; or the number of the refusal.
#[repr(C)]
#[derive(Clone, Copy)]
pub struct FelmugoVerdict {
    pub number: u64,
    pub keeps: u64,
}

impl From<Result<Verdict, Refusal>> for FelmugoVerdict {
    ghost use Rattle.std.specs.Prelude.{◌≡◌};
    ghost use Rattle.flat.specs.Flat.{flat_verdict};

    ghost from_gives = { λ answer flat. flat ≡ flat_verdict answer };

    fn from(answer: Result<Verdict, Refusal>) -> FelmugoVerdict {
        match answer {
            Ok(Verdict::Keeps) => FelmugoVerdict {
                number: 0,
                keeps: 1,
            },
            Ok(Verdict::Breaks) => FelmugoVerdict {
                number: 0,
                keeps: 0,
            },
            Err(refusal) => FelmugoVerdict {
                number: refusal.number(),
                keeps: 0,
            },
        }
    }
}

// The report of a run: found 1 where there is a failing spot, its pair and its value's number; or the number of the
// refusal with zeros.
#[repr(C)]
#[derive(Clone, Copy)]
pub struct FelmugoReport {
    pub number: u64,
    pub pairs: u64,
    pub failing: u64,
    pub found: u64,
    pub pair: u64,
    pub value: u64,
}

impl From<Result<Report, Refusal>> for FelmugoReport {
    ghost use Rattle.std.specs.Prelude.{◌≡◌};
    ghost use Rattle.answers.specs.Report.{told};
    ghost use Rattle.flat.specs.Flat.{flat_report};

    ghost from_gives = { λ answer flat. flat ≡ flat_report (told answer) };

    fn from(answer: Result<Report, Refusal>) -> FelmugoReport {
        let (number, pairs, failing, spot) = match answer {
            Ok(report) => (0, report.pairs, report.failing, report.spot),
            Err(refusal) => (refusal.number(), 0, 0, Spot::Clean),
        };
        let (found, pair, value) = match spot {
            Spot::Clean => (0, 0, 0),
            Spot::At(pair, value) => (1, pair, value),
        };
        FelmugoReport {
            number,
            pairs,
            failing,
            found,
            pair,
            value,
        }
    }
}

// A consumer, or the number of the refusal with a consumer that has no places: every call turns it back.
#[repr(C)]
#[derive(Clone, Copy)]
pub struct FelmugoOutcome {
    pub number: u64,
    pub consumer: ConstraintConsumer,
}

impl From<Result<ConstraintConsumer, Refusal>> for FelmugoOutcome {
    ghost use Rattle.std.specs.Prelude.{◌≡◌};
    ghost use Rattle.flat.specs.Flat.{flat_outcome};

    ghost from_gives = { λ answer flat. flat ≡ flat_outcome answer };

    fn from(answer: Result<ConstraintConsumer, Refusal>) -> FelmugoOutcome {
        match answer {
            Ok(consumer) => FelmugoOutcome {
                number: 0,
                consumer,
            },
            Err(refusal) => FelmugoOutcome {
                number: refusal.number(),
                consumer: ConstraintConsumer {
                    alphas: [0; 8],
                    constraint_accs: [0; 8],
                    count: 0,
                    z_last: 0,
                    lagrange_basis_first: 0,
                    lagrange_basis_last: 0,
                    folded: 0,
                },
            },
        }
    }
}
