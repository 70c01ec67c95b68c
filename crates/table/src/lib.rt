// The columns and the masks by name, the number of values, and a pair of rows, for code. The constraint table is
// a definition: specs/Table.antt.
#![tactic(auto)]

use residue::{Residue, Residues};

pub mod columns;
pub mod masks;

pub const NUM_VALUES: usize = 226;

// A row, and the masks, of which each word is canonical.
pub type Row<'a> = Residues<'a, { columns::NUM_CPU_COLS }>;

pub type Masks<'a> = Residues<'a, { masks::NUM_MASKS }>;

// A pair of rows, the current one and the next, with the masks and both weights.
// Kept: a function of the table takes the rows and weights that it reads; a whole pair would ask more of its callers.
#[derive(Drop)]
pub struct Pair<'a> {
    pub masks: Masks<'a>,
    pub lv: Row<'a>,
    pub nv: Row<'a>,
    pub z_last: Residue,
    pub lagrange_basis_first: Residue,
}
