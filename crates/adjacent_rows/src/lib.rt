// The adjacent rows of cpu_stark.rs: a record that refers to both lent rows, over a core that takes the
// rows plainly (crates row_values and pair).
#![tactic(auto)]

ghost use Rattle.std.specs.Prelude.{◌≡◌};
ghost use Rattle.refusals.specs.Refusal.{number_of};
ghost use Rattle.table.specs.CpuStark.{lv_is_ext_inst, lv_ext_length};
ghost use Rattle.row_values.specs.RowValue.{row_value};
ghost use Rattle.pair_checks.specs.PairValues.{PairValuesCall};

use refusals::Refusal;

#[derive(Clone, Copy)]
pub struct CpuAdjacentRowWrapper<'a, 'b> {
    pub lv: &'a [u64],
    pub nv: &'b [u64],
}

impl<'a, 'b> CpuAdjacentRowWrapper<'a, 'b> {
    // Made once.
    pub fn from_vars(lv: &'a [u64], nv: &'b [u64]) -> CpuAdjacentRowWrapper<'a, 'b>
        ensures { (result.lv ≡ lv.entry) × (result.nv ≡ nv.entry) }
    {
        CpuAdjacentRowWrapper { lv, nv }
    }

    pub fn lv_is_ext_inst(self) -> Result<u64, Refusal>
        ensures { result ≡ row_value lv_is_ext_inst self.entry.lv.now }
    {
        row_values::is_ext_inst(self.lv)
    }

    pub fn lv_ext_length(self) -> Result<u64, Refusal>
        ensures { result ≡ row_value lv_ext_length self.entry.lv.now }
    {
        row_values::ext_length(self.lv)
    }

    // The 226 values of the two rows, as `pair::pair_values` writes them.
    pub fn pair_values(
        self,
        masks: &[u64],
        z_last: u64,
        lagrange_basis_first: u64,
        out: &mut [u64],
    ) -> Result<(), Refusal>
        ensures { PairValuesCall masks.now self.entry.lv.now self.entry.nv.now z_last lagrange_basis_first
            out.old (number_of result) out.new }
    {
        pair::pair_values(masks, self.lv, self.nv, z_last, lagrange_basis_first, out)
    }
}

// Plain parameters, for callers that keep no record: it is made and opened inside.
// Kept: the exported function goes through the record, as document 01 has it, and so not straight to `pair_values`.
pub fn adjacent_values(
    masks: &[u64],
    lv: &[u64],
    nv: &[u64],
    z_last: u64,
    lagrange_basis_first: u64,
    out: &mut [u64],
) -> Result<(), Refusal>
    ensures { PairValuesCall masks.now lv.now nv.now z_last lagrange_basis_first
        out.old (number_of result) out.new }
{
    CpuAdjacentRowWrapper::from_vars(lv, nv).pair_values(masks, z_last, lagrange_basis_first, out)
}
