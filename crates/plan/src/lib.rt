// What a fold is about: its table's variables and its point's coordinates, its side, its weight and its scale.
//
//     row y    | a b c | a b c | ..      with columns a, b, c: c words for each of the 2^(n - k) places of a row,
//              place 0  place 1          and c 2^n words in the 2^k rows of the table
#![tactic(auto)]

ghost use Rattle.std.specs.Prelude.{◌≡◌, ◌-◌, ◌*◌, ◌≤◌, length};
ghost use Rattle.table.specs.Refusals.{most, most_columns};
ghost use Rattle.plan.specs.Plan.{padded, most_on, rows, places, width, capacity};
ghost use Rattle.plan.specs.Sound.{Sound};
ghost use Rattle.plan.specs.Section.{section_of};

use field::Element;
use multilinear::{Side, Weight};
use point::Point;
pub use point::WORDS;

// Contracts say what is sound (`Sound`), and not the type: the definitions of the ledger make a plan of what a call gives, before its tests.
#[derive(Clone, Copy, Debug, PartialEq, Eq)]
pub struct Plan {
    pub n: usize,
    pub k: usize,
    pub columns: usize,
    pub side: Side,
    pub weight: Weight,
    pub scale: Element,
    pub coordinates: [u32; WORDS],
}

impl Plan {
    // The rows of the table: 2^k.
    pub fn rows(&self) -> usize
        requires { self.now.k ≤ most }
        ensures { result ≡ rows self.now }
    {
        table::rows(self.k)
    }

    // The places of a row: 2^(n - k).
    pub fn places(&self) -> usize
        requires { (self.now.k ≤ self.now.n) × (self.now.n - self.now.k ≤ most) }
        ensures { result ≡ places self.now }
    {
        table::rows(self.n - self.k)
    }

    // The words of a row, and the elements of out: c 2^(n - k).
    pub fn width(&self) -> usize
        requires { (self.now.k ≤ self.now.n) × (self.now.n - self.now.k ≤ most) × (self.now.columns ≤ most_columns) }
        ensures { result ≡ width self.now }
    {
        self.places() * self.columns
    }

    // The words of the table: c 2^n.
    pub fn words(&self) -> usize
        requires { (self.now.n ≤ most) × (self.now.columns ≤ most_columns) }
        ensures { result ≡ capacity self.now }
    {
        self.columns * table::rows(self.n)
    }

    // The point of the plan's coordinates.
    pub fn point(&self) -> Point<'_>
        requires { Sound self.now }
        ensures words { result.words.now ≡ self.now.coordinates }
        ensures count { result.count ≡ self.now.k }
    {
        Point {
            words: &self.coordinates,
            count: self.k,
        }
    }

    // The plan of 2^held places of the fold.
    pub fn section(self, held: usize) -> Plan
        requires { Sound self × (held ≤ self.n - self.k) }
        ensures { result ≡ section_of self held }
    {
        Plan {
            n: self.k + held,
            ..self
        }
    }
}

// The most columns of a table: on the suffix side it has one.
pub fn most_on(side: Side) -> usize
    ensures { result ≡ most_on side }
{
    match side {
        Side::Prefix => table::MOST_COLUMNS,
        Side::Suffix => 1,
    }
}

// A plan's coordinates: the words of a point, and zeros behind them.
pub fn padded(point: &[u32]) -> [u32; WORDS]
    requires { length point.now ≤ 4 * most }
    ensures { result ≡ padded point.now }
{
    let mut words = [0u32; WORDS];
    words[..point.len()].copy_from_slice(point);
    words
}
