// Products of a row's selectors and flags that several constraints of tape.rs and call_sc.rs (M, N) begin with,
// computed once.
#![tactic(auto)]

ghost use Rattle.std.specs.Prelude.{◌≡◌, []};
ghost use Rattle.algebra.specs.Expr.{eval};
ghost use Rattle.residue.specs.Residues.{residues};
ghost use Rattle.table.specs.Cells.{cells};
ghost use Rattle.cpu_factors.specs.Factors.{call_sc_main_line as call_sc_main_line_of, call_sc_ext_line as call_sc_ext_line_of, after_call_sc as after_call_sc_of, end_ext_line as end_ext_line_of, tape_ext_line as tape_ext_line_of, tstore_main_line as tstore_main_line_of};

use residue::Residue;
use table::Row;
use table::columns::*;

// A row with its products, each of which is a number that the row determines.
#[derive(Clone, Copy)]
pub struct FactoredRow<'a> {
    pub row: &'a Row<'a>,
    pub call_sc_main_line: Residue,
    pub call_sc_ext_line: Residue,
    pub after_call_sc: Residue,
    pub end_ext_line: Residue,
    pub tape_ext_line: Residue,
    pub tstore_main_line: Residue,
    pub ghost call_sc_main_line_is: { call_sc_main_line ≡ eval residues (cells [] row.now [] 0 0) call_sc_main_line_of },
    pub ghost call_sc_ext_line_is: { call_sc_ext_line ≡ eval residues (cells [] row.now [] 0 0) call_sc_ext_line_of },
    pub ghost after_call_sc_is: { after_call_sc ≡ eval residues (cells [] row.now [] 0 0) after_call_sc_of },
    pub ghost end_ext_line_is: { end_ext_line ≡ eval residues (cells [] row.now [] 0 0) end_ext_line_of },
    pub ghost tape_ext_line_is: { tape_ext_line ≡ eval residues (cells [] row.now [] 0 0) tape_ext_line_of },
    pub ghost tstore_main_line_is: { tstore_main_line ≡ eval residues (cells [] row.now [] 0 0) tstore_main_line_of },
}

impl<'a> FactoredRow<'a> {
    #[tactic(auto, unfolding(algebra::specs::Expr::eval, residue::specs::Residues::sub_p))]
    pub fn new(row: &'a Row<'a>) -> FactoredRow<'a>
        ensures { result.row.now ≡ row.now }
    {
        let is_ext_line = row.at(COL_IS_EXT_LINE);
        let is_main_line = Residue::ONE - is_ext_line;
        let s_tstore = row.at(COL_S_TSTORE);
        let s_call_sc = row.at(COL_S_CALL_SC);
        FactoredRow {
            row,
            call_sc_main_line: s_call_sc * is_main_line,
            call_sc_ext_line: s_call_sc * is_ext_line,
            after_call_sc: s_call_sc * row.at(COL_IS_NEXT_LINE_DIFF_INST),
            end_ext_line: row.at(COL_S_END) * is_ext_line,
            tape_ext_line: (s_tstore + row.at(COL_S_TLOAD)) * is_ext_line,
            tstore_main_line: s_tstore * is_main_line,
        }
    }
}
