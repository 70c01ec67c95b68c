// The columns of a row (columns.rs), with the numbers that document 01 sets. A `Range` has its start
// and its end.
pub const REGISTER_NUM: usize = 10;

pub const CTX_REGISTER_NUM: usize = 4;

pub const COL_TX_IDX: usize = 0;

pub const COL_ENV_IDX: usize = 1;

pub const COL_CALL_SC_CNT: usize = 2;

pub const COL_ADDR_STORAGE_RANGE_START: usize = 3;

pub const COL_ADDR_STORAGE_RANGE_END: usize = 7;

pub const COL_ADDR_CODE_RANGE_START: usize = 7;

pub const COL_ADDR_CODE_RANGE_END: usize = 11;

pub const COL_TP: usize = 11;

pub const COL_CLK: usize = 12;

pub const COL_PC: usize = 13;

pub const COL_IS_EXT_LINE: usize = 14;

pub const COL_EXT_CNT: usize = 15;

pub const COL_START_REG: usize = 16;

pub const COL_REGS_START: usize = 16;

pub const COL_REGS_END: usize = 26;

pub const COL_INST: usize = 26;

pub const COL_OP1_IMM: usize = 27;

pub const COL_OPCODE: usize = 28;

pub const COL_IMM_VAL: usize = 29;

pub const COL_OP0: usize = 30;

pub const COL_OP1: usize = 31;

pub const COL_DST: usize = 32;

pub const COL_AUX0: usize = 33;

pub const COL_AUX1: usize = 34;

pub const COL_IDX_STORAGE: usize = 35;

pub const COL_S_OP0_START: usize = 36;

pub const COL_S_OP0_END: usize = 46;

pub const COL_S_OP1_START: usize = 46;

pub const COL_S_OP1_END: usize = 56;

pub const COL_S_DST_START: usize = 56;

pub const COL_S_DST_END: usize = 66;

pub const COL_S_SIMPLE_ARITHMATIC_OP: usize = 66;

pub const COL_S_MOV: usize = 67;

pub const COL_S_JMP: usize = 68;

pub const COL_S_CJMP: usize = 69;

pub const COL_S_CALL: usize = 70;

pub const COL_S_RET: usize = 71;

pub const COL_S_MLOAD: usize = 72;

pub const COL_S_MSTORE: usize = 73;

pub const COL_S_END: usize = 74;

pub const COL_S_RC: usize = 75;

pub const COL_S_BITWISE: usize = 76;

pub const COL_S_NOT: usize = 77;

pub const COL_S_GTE: usize = 78;

pub const COL_S_PSDN: usize = 79;

pub const COL_S_SLOAD: usize = 80;

pub const COL_S_SSTORE: usize = 81;

pub const COL_S_TLOAD: usize = 82;

pub const COL_S_TSTORE: usize = 83;

pub const COL_S_CALL_SC: usize = 84;

pub const NUM_OP_SELECTOR: usize = 19;

pub const COL_IS_ENTRY_SC: usize = 85;

pub const COL_IS_NEXT_LINE_DIFF_INST: usize = 86;

pub const COL_IS_NEXT_LINE_SAME_TX: usize = 87;

pub const COL_FILTER_TAPE_LOOKING: usize = 88;

pub const IS_SCCALL_EXT_LINE: usize = 89;

pub const COL_IS_STORAGE_EXT_LINE: usize = 90;

pub const COL_FILTER_SCCALL_END: usize = 91;

pub const COL_FILTER_LOOKING_PROG_IMM: usize = 92;

pub const COL_IS_PADDING: usize = 93;

pub const NUM_CPU_COLS: usize = 94;
