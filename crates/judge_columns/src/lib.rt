// The words of the rulebook over rows: what a column says, and runs of columns.
#![tactic(auto, unfolding(algebra::specs::Expr::eval, rulebook::specs::Rule::holds))]

ghost use Rattle.std.specs.Prelude.{◌≡◌, not, ◌||◌, [], ◌+◌, ◌%◌, ◌<◌, ◌≤◌, length, get_or, take, drop, zip, eqb};
ghost use Rattle.std.specs.List.{list_all};
ghost use Rattle.algebra.specs.Prime.{p};
ghost use Rattle.algebra.specs.Expr.{eval};
ghost use Rattle.algebra.specs.Lists.{range};
ghost use Rattle.table.specs.Columns.{NUM-CPU-COLS, REGISTER-NUM, COL-REGS-START, COL-S-DST-START};
ghost use Rattle.table.specs.Cells.{cells, lv as lv_of, nv as nv_of};
ghost use Rattle.rulebook.specs.Rule.{◌≐◌, deny, ◌⇒◌, holds};
ghost use Rattle.rulebook.specs.Kind.{ones as ones_of};
ghost use Rattle.rulebook.specs.Plain.{bits as bits_of};
ghost use Rattle.rulebook.specs.Words.{on, off, kept, grows, bit as bit_of, every};
ghost use Rattle.judge_columns.specs.Group.{addresses_kept};

use residue::Residue;
use table::Row;
use table::columns::*;

// The last register is fp.
pub const FP: usize = REGISTER_NUM - 1;

// The tests of words, which may be any. They ask each word, with no branch, so that they are vectorised.
// Kept: each is one expression of its own; one function over a test of a word would be the library's `fold` again.

// Whether a word is 0 or 1.
pub fn bit(x: u64) -> bool
    ensures { result ≡ (eqb x 0 || eqb x 1) }
{
    (x == 0) | (x == 1)
}

// Whether the n words from `start` on are 0.
pub fn zeros(row: &[u64], start: usize, n: usize) -> bool
    requires { start + n ≤ length row.now }
    ensures { result ≡ list_all (λ x. eqb x 0) (take n (drop start row.now)) }
{
    row[start..start + n]
        .iter()
        .fold(true, |all, &x| all & (x == 0))
}

// Whether the n words from `start` on are 0 or 1.
pub fn bits(row: &[u64], start: usize, n: usize) -> bool
    requires { start + n ≤ length row.now }
    ensures { result ≡ list_all (λ x. eqb x 0 || eqb x 1) (take n (drop start row.now)) }
{
    row[start..start + n]
        .iter()
        .fold(true, |all, &x| all & bit(x))
}

// How many of the n words from `start` on are 1.
// A sum: `filter` and `count` compile to a branch for each word, which took 392 ns a pair where a loop took 350.
pub fn ones(row: &[u64], start: usize, n: usize) -> usize
    requires { start + n ≤ length row.now }
    ensures { result ≡ ones_of (λ c. get_or row.now c 0) start n }
{
    row[start..start + n]
        .iter()
        .fold(0, |count, &x| count + (x == 1) as usize)
}

// Whether the n words of `a` from i on equal those of `b` from j on.
pub fn same(a: &[u64], i: usize, b: &[u64], j: usize, n: usize) -> bool
    requires left { i + n ≤ length a.now }
    requires right { j + n ≤ length b.now }
    ensures { result ≡ list_all (λ e. eqb e.0 e.1) (zip (take n (drop i a.now)) (take n (drop j b.now))) }
{
    a[i..i + n]
        .iter()
        .zip(&b[j..j + n])
        .fold(true, |all, (x, y)| all & (x == y))
}

// Of the ten registers of `regs`, those whose selector in `row`, from word s on, is 1 equal word o of `row`.
pub fn chosen(row: &[u64], s: usize, regs: &[u64], o: usize) -> bool
    requires selectors { s + REGISTER-NUM ≤ length row.now }
    requires registers { COL-REGS-START + REGISTER-NUM ≤ length regs.now }
    requires operand { o < length row.now }
    ensures { result ≡ list_all (λ e. not (eqb e.0 1) || eqb e.1 (get_or row.now o 0)) (zip (take REGISTER-NUM (drop s row.now)) (take REGISTER-NUM (drop COL-REGS-START regs.now))) }
{
    let operand = row[o];
    row[s..s + REGISTER_NUM]
        .iter()
        .zip(&regs[COL_REGS_START..COL_REGS_START + REGISTER_NUM])
        .fold(
            true,
            |all, (&selector, &register)| all & ((selector != 1) | (register == operand)),
        )
}

// The words of the rulebook, of rows.
// Kept: each asks that its columns are below 94. The Rust's columns are numbers, which are added to and index words, so
// that a type of columns would be opened at each use.

// Whether two residues are equal; the contract has the form of the rulebook's equations.
pub fn equal(a: Residue, b: Residue) -> bool
    ensures { result ≡ eqb (a % p) (b % p) }
{
    a == b
}

// Whether a residue is 0 or 1.
pub fn is_bit(x: Residue) -> bool
    ensures value { result ≡ (eqb x 0 || eqb x 1) }
    ensures rule { result ≡ (eqb (x % p) 0 || eqb (x % p) 1) }
{
    bit(x.value())
}

// Whether a column is 1.
pub fn on(row: &Row, column: usize) -> bool
    requires { column < NUM-CPU-COLS }
    ensures { result ≡ holds (cells [] row.now [] 0 0) (on column) }
{
    row.at(column) == Residue::ONE
}

// Whether a column is 0.
// Kept: the rulebook says `on` and `off`, and each is one expression.
pub fn off(row: &Row, column: usize) -> bool
    requires { column < NUM-CPU-COLS }
    ensures { result ≡ holds (cells [] row.now [] 0 0) (off column) }
{
    row.at(column) == Residue::ZERO
}

// Whether the next row has what the current row has in a column.
pub fn kept(lv: &Row, nv: &Row, column: usize) -> bool
    requires { column < NUM-CPU-COLS }
    ensures { result ≡ holds (cells [] lv.now nv.now 0 0) (kept column) }
{
    nv.at(column) == lv.at(column)
}

// Whether the next row has n more than the current row in a column.
pub fn grows(lv: &Row, nv: &Row, column: usize, n: u64) -> bool
    requires place { column < NUM-CPU-COLS }
    requires canonical { n < p }
    ensures { result ≡ holds (cells [] lv.now nv.now 0 0) (grows column n) }
{
    equal(nv.at(column), lv.at(column) + Residue::new(n))
}

// Whether the next row has in column `to` what the current row has in column `from`.
pub fn carried<'a>(lv: &Row<'a>, from: usize, nv: &Row<'a>, to: usize) -> bool
    requires current { from < NUM-CPU-COLS }
    requires next { to < NUM-CPU-COLS }
    ensures { result ≡ holds (cells [] lv.now nv.now 0 0) (nv_of to ≐ lv_of from) }
{
    nv.at(to) == lv.at(from)
}

// Whether the n columns from `start` on are 0.
pub fn all_off(row: &Row, start: usize, n: usize) -> bool
    requires { start + n ≤ NUM-CPU-COLS }
    ensures { result ≡ holds (cells [] row.now [] 0 0) (every (range start n) off) }
{
    zeros(row.words(), start, n)
}

// Whether the n columns from `start` on are 0 or 1.
pub fn all_bits(row: &Row, start: usize, n: usize) -> bool
    requires { start + n ≤ NUM-CPU-COLS }
    ensures value { result ≡ bits_of (λ c. get_or row.now c 0) (range start n) }
    ensures rule { result ≡ holds (cells [] row.now [] 0 0) (every (range start n) (λ c. bit_of (lv_of c))) }
{
    bits(row.words(), start, n)
}

// Whether the next row has in the n columns from `to` on what the current row has in those from `from` on.
pub fn all_carried<'a>(lv: &Row<'a>, from: usize, nv: &Row<'a>, to: usize, n: usize) -> bool
    requires current { from + n ≤ NUM-CPU-COLS }
    requires next { to + n ≤ NUM-CPU-COLS }
    ensures { result ≡ holds (cells [] lv.now nv.now 0 0) (every (range 0 n) (λ t. nv_of (to + t) ≐ lv_of (from + t))) }
{
    same(nv.words(), to, lv.words(), from, n)
}

// Both addresses are kept.
pub fn addresses_kept(lv: &Row, nv: &Row) -> bool
    ensures { result ≡ holds (cells [] lv.now nv.now 0 0) addresses_kept }
{
    let storage = COL_ADDR_STORAGE_RANGE_START;
    let code = COL_ADDR_CODE_RANGE_START;
    all_carried(lv, storage, nv, storage, CTX_REGISTER_NUM)
        & all_carried(lv, code, nv, code, CTX_REGISTER_NUM)
}

// Of the ten registers of `regs`, those whose selector of `row`, from column s on, is 1 equal column o of `row`.
pub fn chosen_equal<'a>(row: &Row<'a>, s: usize, regs: &Row<'a>, o: usize) -> bool
    requires selectors { s + REGISTER-NUM ≤ NUM-CPU-COLS }
    requires operand { o < NUM-CPU-COLS }
    ensures next { result ≡ holds (cells [] row.now regs.now 0 0) (every (range 0 REGISTER-NUM) (λ i. on (s + i) ⇒ nv_of (COL-REGS-START + i) ≐ lv_of o)) }
    ensures current { regs.now ≡ row.now → result ≡ holds (cells [] row.now [] 0 0) (every (range 0 REGISTER-NUM) (λ i. on (s + i) ⇒ lv_of (COL-REGS-START + i) ≐ lv_of o)) }
{
    chosen(row.words(), s, regs.words(), o)
}

// Registers 0 to 8 are kept where their selector as dst is not 1.
// Kept: over places, since selectors beside the registers of both rows would be two `zip` of three slices, no plainer.
pub fn kept_unless_dst(lv: &Row, nv: &Row) -> bool
    ensures { result ≡ holds (cells [] lv.now nv.now 0 0) (every (range 0 9) (λ i. deny (on (COL-S-DST-START + i)) ⇒ kept (COL-REGS-START + i))) }
{
    (0..FP).fold(
        true,
        |all, i| all & (on(lv, COL_S_DST_START + i) | kept(lv, nv, COL_REGS_START + i)),
    )
}
