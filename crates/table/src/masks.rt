// The places of the 25 masks that stand in for `OlaOpcode::binary_bit_mask`, in the order of document 01.
// Kept: the masks are lent as a list, so that a name is a place in it, as a column is.
pub const ADD: usize = 0;

pub const MUL: usize = 1;

pub const EQ: usize = 2;

pub const NEQ: usize = 3;

pub const ASSERT: usize = 4;

pub const AND: usize = 5;

pub const OR: usize = 6;

pub const XOR: usize = 7;

pub const MOV: usize = 8;

pub const JMP: usize = 9;

pub const CJMP: usize = 10;

pub const CALL: usize = 11;

pub const RET: usize = 12;

pub const MLOAD: usize = 13;

pub const MSTORE: usize = 14;

pub const END: usize = 15;

pub const RC: usize = 16;

pub const NOT: usize = 17;

pub const GTE: usize = 18;

pub const POSEIDON: usize = 19;

pub const SLOAD: usize = 20;

pub const SSTORE: usize = 21;

pub const TLOAD: usize = 22;

pub const TSTORE: usize = 23;

pub const SCCALL: usize = 24;

pub const NUM_MASKS: usize = 25;
