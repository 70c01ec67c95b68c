// The rules of every group, A to N of the rulebook.
#![tactic(auto)]

ghost use Rattle.std.specs.Prelude.{◌≡◌};
ghost use Rattle.rulebook.specs.Plain.{pair_keeps};

use judge_arithmetic::*;
use judge_call_sc::*;
use judge_environment::*;
use judge_flow::*;
use judge_instruction::*;
use judge_kinds::selected::kind;
use judge_kinds::step::Step;
use judge_tape::*;
use judge_transaction::*;
use table::{Masks, Row};

// Whether the pair keeps every rule.
pub fn keeps(masks: &Masks, lv: &Row, nv: &Row, first: bool, last: bool) -> bool
    ensures { result ≡ pair_keeps masks.now lv.now nv.now first last }
{
    let kind = kind(lv);
    let step = Step { lv, nv, kind };
    keeps_wrapper_cols(&step, last)
        & keeps_tx_init(lv, nv, first, last)
        & keeps_body(&step, last)
        & keeps_ext_lines(&step)
        & keeps_env_idx(&step, last)
        & keeps_opcode_selector(masks, lv, kind)
        & keeps_instruction_encode(lv)
        & keeps_operands(lv, nv)
        & keeps_clk(&step)
        & keeps_pc(&step)
        & keeps_registers(&step, last)
        & keeps_arithmetic(masks, lv, kind)
        & keeps_tape(&step)
        & keeps_call_sc(&step, last)
}
