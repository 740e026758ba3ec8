// Points: equality at a vertex and in tables, and the selection polynomial beside them.
//
// Coordinate 0 goes with the highest bit of a row number:
//
//     eq[y] = prod_i (z_i if bit_i(y) = 1 else 1 - z_i),   y = bit_0 bit_1 .. bit_{k-1} in binary
#![tactic(auto)]

mod blocks;
pub mod equality;
pub mod select;

ghost use Rattle.std.specs.Prelude.{◌≡◌, ◌-◌, ◌*◌, ◌≤◌, ◌<◌, drop};
ghost use Rattle.field.specs.Field.{Holds};
ghost use Rattle.table.specs.Table.{element_at, entries};
ghost use Rattle.point.specs.Coordinates.{Coordinates};

use field::Element;

// The words of the most coordinates.
pub const WORDS: usize = 4 * table::MOST;

// A point's coordinates in words, as the functions that compute with them take it: so many at the front of the words, and below the modulus.
// The count stands beside the words: of words that are cut to their coordinates it would be `words.len() / 4` at each use and in each
// contract, and a plan's coordinates, and a column of `eq_batch`, are arrays of `WORDS` words, of which fewer may be coordinates.
#[derive(Clone, Copy)]
pub struct Point<'a> {
    pub words: &'a [u32],
    pub count: usize,
    pub ghost tested: { Coordinates count words.now },
}

impl<'a> Point<'a> {
    // All coordinates of words that were tested.
    pub fn of(words: &'a [u32]) -> Point<'a>
        requires { Coordinates (entries words.now) words.now }
        ensures words { result.words.now ≡ words.now }
        ensures count { result.count ≡ entries words.now }
    {
        Point {
            words,
            count: words.len() / 4,
        }
    }

    // Coordinate j.
    pub fn read(self, j: usize) -> Element
        requires { j < self.count }
        ensures { Holds result (element_at self.entry.words.now j) }
    {
        table::read(self.words, j)
    }

    // The first k coordinates.
    pub fn first(self, k: usize) -> Point<'a>
        requires { k ≤ self.count }
        ensures words { result.words.now ≡ self.entry.words.now }
        ensures count { result.count ≡ k }
    {
        Point {
            words: self.words,
            count: k,
        }
    }

    // The coordinates that follow the first k.
    pub fn after(self, k: usize) -> Point<'a>
        requires { k ≤ self.count }
        ensures words { result.words.now ≡ drop (4 * k) self.entry.words.now }
        ensures count { result.count ≡ self.entry.count - k }
    {
        let skipped = 4 * k;
        Point {
            words: &self.words[skipped..],
            count: self.count - k,
        }
    }
}
