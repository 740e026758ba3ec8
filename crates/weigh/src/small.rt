// The value of a table of few variables, by halves down to a pair, the count of variables falling by one at each call.
//
// A coordinate is a factor of as many products as there are tables to split at it. So what a product by it needs beside its words, the
// words of the coordinate times X^4, is made once (`multiplier`).
ghost use Rattle.std.specs.Prelude.{◌≡◌, ◌≤◌, ◌<◌};
ghost use Rattle.multilinear.specs.Beside.{line};
ghost use Rattle.field.specs.Field.{field, from_words, Reduced, Holds};
ghost use Rattle.table.specs.Table.{element_at};
ghost use Rattle.weigh.specs.Entries.{WholeTable, table_value};
ghost use Rattle.weigh.specs.Weigh.{block_variables, Raised, Rest};

use crate::entries::Entries;
use field::Element;
use point::Point;

// The words of the coordinates of the largest table that this module takes.
const RAISED_WORDS: usize = 4 * crate::BLOCK;

// A point, and its coordinates times X^4.
#[derive(Clone, Copy)]
pub struct Prepared<'a> {
    pub point: Point<'a>,
    pub raised: &'a [u32],
    pub ghost raised_is: { Raised point.count point.words.now raised.now },
}

// The coordinates times X^4.
pub fn raised(point: Point) -> [u32; RAISED_WORDS]
    requires { point.count ≤ block_variables }
    ensures { Raised point.entry.count point.entry.words.now result }
{
    let mut out = [0u32; RAISED_WORDS];
    // By number: of an element that `chunks_exact_mut` lent only its length is known after the loop.
    for j in 0..point.count {
        let r = point.read(j);
        table::put(&mut out, j, r.mul_base(Element::FACTOR));
    }
    out
}

impl<'a> Prepared<'a> {
    // The coordinates after the first.
    fn rest(&self) -> Prepared<'a>
        requires { 0 < self.now.point.count }
        ensures { Rest 1 self.now.point result.point }
    {
        Prepared {
            point: self.point.after(1),
            raised: &self.raised[4..],
        }
    }

    // The value of a table. By reference: both halves have one copy of what is left. A pair, or two, cost less than the calls for them would.
    pub fn halves<T: Entries>(&self, table: &[u32]) -> Element
        requires { WholeTable T.WIDTH self.now.point.count table.now }
        ensures { Holds result (table_value T.entry self.now.point table.now) }
    {
        if self.point.count == 0 {
            T::read(table, 0)
        } else if self.point.count == 1 {
            self.pair::<T>(table)
        } else if self.point.count == 2 {
            self.two_pairs::<T>(table)
        } else {
            let half = T::WIDTH * table::rows(self.point.count - 1);
            let rest = self.rest();
            let at0 = rest.halves::<T>(&table[..half]);
            let at1 = rest.halves::<T>(&table[half..]);
            self.line_at(at0, at1)
        }
    }

    // The same of two pairs.
    fn two_pairs<T: Entries>(self, table: &[u32]) -> Element
        requires { (self.point.count ≡ 2) × WholeTable T.WIDTH 2 table.now }
        ensures { Holds result (table_value T.entry self.entry.point table.now) }
    {
        let half = T::WIDTH * 2;
        let rest = self.rest();
        let at0 = rest.pair::<T>(&table[..half]);
        let at1 = rest.pair::<T>(&table[half..]);
        self.line_at(at0, at1)
    }

    // The same of a pair.
    fn pair<T: Entries>(self, table: &[u32]) -> Element
        requires { (self.point.count ≡ 1) × WholeTable T.WIDTH 1 table.now }
        ensures { Holds result (table_value T.entry self.entry.point table.now) }
    {
        let at0 = T::read(table, 0);
        let at1 = T::read(table, 1);
        self.line_at(at0, at1)
    }

    // The line through a at 0 and b at 1, at the first coordinate.
    fn line_at(self, a: Element, b: Element) -> Element
        requires { (Reduced a × Reduced b) × (0 < self.point.count) }
        ensures { Holds result
            (line field (from_words a) (from_words b) (element_at self.entry.point.words.now 0)) }
    {
        let r = self.point.read(0);
        let t = table::get(self.raised, 0);
        multiplier::plus_by(a, b.sub(a), r, t)
    }
}
