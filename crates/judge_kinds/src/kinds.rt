// The kinds of an instruction.
#![tactic(auto, unfolding(crate::specs::Kind::number_of_kind))]

ghost use Rattle.std.specs.Prelude.{◌≡◌, eqb};
ghost use Rattle.judge_kinds.specs.Kind.{kind_number, number_of_kind};

use table::columns::NUM_OP_SELECTOR;

// In the order of the selectors.
#[derive(Clone, Copy, PartialEq, Eq, Debug)]
pub enum Kind {
    SimpleArithmaticOp = 0,
    Mov = 1,
    Jmp = 2,
    Cjmp = 3,
    Call = 4,
    Ret = 5,
    Mload = 6,
    Mstore = 7,
    End = 8,
    Rc = 9,
    Bitwise = 10,
    Not = 11,
    Gte = 12,
    Psdn = 13,
    Sload = 14,
    Sstore = 15,
    Tload = 16,
    Tstore = 17,
    CallSc = 18,
}

impl Kind {
    pub const ALL: [Kind; NUM_OP_SELECTOR] = [
        Kind::SimpleArithmaticOp,
        Kind::Mov,
        Kind::Jmp,
        Kind::Cjmp,
        Kind::Call,
        Kind::Ret,
        Kind::Mload,
        Kind::Mstore,
        Kind::End,
        Kind::Rc,
        Kind::Bitwise,
        Kind::Not,
        Kind::Gte,
        Kind::Psdn,
        Kind::Sload,
        Kind::Sstore,
        Kind::Tload,
        Kind::Tstore,
        Kind::CallSc,
    ];

    // The place of its selector.
    pub fn number(self) -> u64
        ensures { result ≡ kind_number self }
    {
        self as u64
    }

    // Whether it is the kind of a row, which has none where no selector is 1.
    pub fn is(self, kind: Option<Kind>) -> bool
        ensures { result ≡ eqb (number_of_kind kind) (kind_number self) }
    {
        kind == Some(self)
    }
}
