// Trusts and cells as values, and as the words of the row space. Each promise is an equation with the definitions of `tsparql`,
// by `trust_in` and `cell_in` of specs/Words.antt. A signed number is used here only: other crates see trusts, cells and words.
#![tactic(auto)]

ghost use Rattle.std.specs.Prelude.{◌≡◌, ◌≤◌};
ghost use Rattle.tsparql.specs.Values.{same_trust, same_cell};
ghost use Rattle.tsparql.specs.Evaluate.{trust_word};
ghost use Rattle.cells.specs.Words.{shift, trust_in, cell_in, word_trust, word_cell, NumberInRange, InRange, CellInRange};

// A trust in thousandths, from -1000 to 1000, or unknown.
#[derive(Clone, Copy, Debug)]
pub enum Trust {
    Known(i16),
    Unknown,
}

// What a row has for a variable.
#[derive(Clone, Copy, Debug)]
pub enum Cell {
    Free,
    Term(u32),
    Trusted(Trust),
}

// The least word of a cell that holds a trust.
pub const FIRST_TRUST: u32 = 1048576;

// The trust plus 1000, from 0 to 2000; a number out of range counts as the nearest in range, so that no caller has to show a range.
fn shifted(t: i16) -> u32
    ensures { result ≡ shift t }
{
    (t.clamp(-1000, 1000) + 1000) as u32
}

// The trust whose shifted number is `w`.
fn unshifted(w: u32) -> i16
    requires { w ≤ 2000 }
    ensures number { shift result ≡ w }
    ensures in_range { NumberInRange result }
{
    (w as i16) - 1000
}

// The word of a trust: the trust plus 1000, or 2001 for unknown.
pub fn trust_word(t: Trust) -> u32
    ensures { result ≡ trust_word (trust_in t) }
{
    match t {
        Trust::Known(z) => shifted(z),
        Trust::Unknown => 2001,
    }
}

// The trust of a word: unknown above 2000.
fn word_trust(w: u32) -> Trust
    ensures trust { trust_in result ≡ word_trust w }
    ensures in_range { InRange result }
{
    if w <= 2000 {
        Trust::Known(unshifted(w))
    } else {
        Trust::Unknown
    }
}

// The cell of a word: 0 is free, a word below 1,048,576 a term, any other a trust.
pub fn word_cell(w: u32) -> Cell
    ensures cell { cell_in result ≡ word_cell w }
    ensures in_range { CellInRange result }
{
    match w {
        0 => Cell::Free,
        1..FIRST_TRUST => Cell::Term(w),
        _ => Cell::Trusted(word_trust(w - FIRST_TRUST)),
    }
}

// Whether two trusts are the same: two unknown ones are.
fn same_trust(a: Trust, b: Trust) -> bool
    ensures { result ≡ same_trust (trust_in a) (trust_in b) }
{
    match (a, b) {
        (Trust::Known(x), Trust::Known(y)) => shifted(x) == shifted(y),
        (Trust::Unknown, Trust::Unknown) => true,
        _ => false,
    }
}

// Whether two cells are the same.
pub fn same_cell(a: Cell, b: Cell) -> bool
    ensures { result ≡ same_cell (cell_in a) (cell_in b) }
{
    match (a, b) {
        (Cell::Free, Cell::Free) => true,
        (Cell::Term(m), Cell::Term(n)) => m == n,
        (Cell::Trusted(s), Cell::Trusted(t)) => same_trust(s, t),
        _ => false,
    }
}
