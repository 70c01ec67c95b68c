// Plain flags.
#![tactic(auto)]

ghost use Rattle.std.specs.Prelude.{◌≡◌};
ghost use Rattle.rulebook.specs.Plain.{pair_plain};

use judge_columns::{all_bits, is_bit, ones};
use table::Row;
use table::columns::*;

// IS_EXT_LINE, entry, diff, same are 0 or 1; IS_EXT_LINE' and pad' too; exactly one next selector is 1,
// others 0.
pub fn plain_flags(lv: &Row, nv: &Row) -> bool
    ensures { result ≡ pair_plain lv.now nv.now }
{
    is_bit(lv.at(COL_IS_EXT_LINE))
        & is_bit(lv.at(COL_IS_ENTRY_SC))
        & is_bit(lv.at(COL_IS_NEXT_LINE_DIFF_INST))
        & is_bit(lv.at(COL_IS_NEXT_LINE_SAME_TX))
        & is_bit(nv.at(COL_IS_EXT_LINE))
        & is_bit(nv.at(COL_IS_PADDING))
        & all_bits(nv, COL_S_SIMPLE_ARITHMATIC_OP, NUM_OP_SELECTOR)
        & (ones(nv.words(), COL_S_SIMPLE_ARITHMATIC_OP, NUM_OP_SELECTOR) == 1)
}
