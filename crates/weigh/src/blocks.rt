// Sums of words, or of elements, against eq: at the high coordinates by halves, and block by block against a table of eq of the low ones.
ghost use Rattle.std.specs.Prelude.{◌≡◌, false, ◌+◌, ◌*◌, ◌%◌, ◌^◌, ◌≤◌, ◌<◌, length, take, drop, ltb};
ghost use Rattle.algebra.specs.Ring.{Ops};
ghost use Rattle.algebra.specs.Words.{unreduced};
ghost use Rattle.multilinear.specs.Beside.{line};
ghost use Rattle.field.specs.Field.{p, field, from_words, Reduced, Holds};
ghost use Rattle.table.specs.Refusals.{most};
ghost use Rattle.dots.specs.Dots.{Spread};
ghost use Rattle.weigh.specs.Entries.{WholeTable};
ghost use Rattle.weigh.specs.Weigh.{block_variables, BlockRoom, Summed};

use dots::Block;
use field::Element;
use point::Point;

// Words of a table that stand at its rows from `from` on. A row that has none counts as 0.
#[derive(Clone, Copy)]
pub struct Piece<'a> {
    pub words: &'a [u32],
    pub from: usize,
    pub ghost below: { unreduced p words.now ≡ false },
}

impl<'a> Piece<'a> {
    ghost use Rattle.weigh.specs.Blocks.{Halves};

    // The words of the first `half` rows, and those of the rows after them.
    fn halves(self, half: usize) -> (Piece<'a>, Piece<'a>)
        ensures { Halves half self.entry result.0 result.1 }
    {
        let from = self.from.min(half);
        let cut = self.words.len().min(half - from);
        let low = Piece {
            words: &self.words[..cut],
            from,
        };
        let high = Piece {
            words: &self.words[cut..],
            from: self.from - from,
        };
        (low, high)
    }
}

// A point that is split before its last `low` coordinates, which are a block's: the high ones, and the table of eq of the low ones.
#[derive(Clone, Copy)]
pub struct SplitPoint<'a, const WORDS: usize> {
    pub high: Point<'a>,
    pub low: usize,
    pub block: Block<'a, WORDS>,
    pub ghost summed: { Summed high.count low block.table.now },
}

impl<'a, const WORDS: usize> SplitPoint<'a, WORDS> {
    ghost use Rattle.weigh.specs.Blocks.{Cut, After, Halved, HalvedTable, Fits, Together, InRow, part_value, part_value_ext};

    // A point's coordinates, the last `low` of them by the table. The table and its words spread come one by one: a struct that lends both
    // would have one lifetime with the point.
    pub fn of(
        point: Point<'a>,
        low: usize,
        table: &'a [u32],
        spread: &'a [u64],
    ) -> SplitPoint<'a, WORDS>
        requires low { (low ≤ point.count) × (low ≤ block_variables) × BlockRoom low table.now }
        requires spread { Spread WORDS table.now spread.now }
        ensures { Cut point.entry low table.now result }
    {
        SplitPoint {
            high: point.first(point.count - low),
            low,
            block: Block { table, spread },
        }
    }

    // The high coordinates that follow the first k.
    fn after(&self, k: usize) -> SplitPoint<'a, WORDS>
        requires { k ≤ self.now.high.count }
        ensures { After k self.now result }
    {
        SplitPoint {
            high: self.high.after(k),
            low: self.low,
            block: self.block,
        }
    }

    // The value, at the high coordinates, of the sums of the blocks. Few words of one block are summed at once. By reference, as all below: a copy
    // of the split point would be made for each place.
    pub fn part(&self, piece: Piece) -> Element
        requires { Fits self.now piece }
        ensures { Holds result (part_value self.now piece.entry) }
    {
        if self.high.count == 0 {
            if piece.words.len() <= 4 {
                return dots::dot_few(self.weights(piece), piece.words);
            }
        }
        self.trimmed(piece)
    }

    // The same, in the smallest part of the table that has all the words.
    fn trimmed(&self, piece: Piece) -> Element
        requires { Fits self.now piece }
        ensures { Holds result (part_value self.now piece.entry) }
    {
        if piece.words.len() == 0 {
            return Element::zero();
        }
        let own = self.spanned(piece);
        if own == self.high.count {
            return self.halves(piece);
        }
        self.in_row(own, piece)
    }

    // How many of the high coordinates that part has.
    fn spanned(&self, piece: Piece) -> usize
        requires { Fits self.now piece }
        ensures { (result ≤ self.now.high.count) × Together (result + self.now.low) piece.entry }
    {
        let mut own = 0;
        // By `find` no plainer: it would end by `unwrap_or` of the count, a case of its own, which `Fits` decides.
        while crosses(piece.from, piece.words.len(), own + self.low) {
            own += 1;
        }
        own
    }

    // The same of words in a part that has the last `own` high coordinates. It is one row of those before: eq of the row times the part's
    // value.
    fn in_row(&self, own: usize, piece: Piece) -> Element
        requires { Fits self.now piece × InRow own self.now piece }
        ensures { Holds result (part_value self.now piece.entry) }
    {
        let rows = table::rows(own + self.low);
        let before = self.high.count - own;
        let eq = point::equality::at_row(self.high.first(before), piece.from / rows);
        let part = Piece {
            words: piece.words,
            from: piece.from % rows,
        };
        eq.mul(self.after(before).halves(part))
    }

    // What is left after the first of the high coordinates, and the words of both halves.
    fn halved<'p>(&self, piece: Piece<'p>) -> (SplitPoint<'a, WORDS>, Piece<'p>, Piece<'p>)
        requires { Fits self.now piece × (0 < self.now.high.count) }
        ensures { Halved self.now piece.entry result.0 result.1 result.2 }
    {
        let (low, high) = piece.halves(table::rows(self.high.count - 1 + self.low));
        (self.after(1), low, high)
    }

    // The same of a table of elements.
    fn halved_ext<'p>(&self, entries: &'p [u32]) -> (SplitPoint<'a, WORDS>, &'p [u32], &'p [u32])
        requires { WholeTable 4 (self.now.high.count + self.now.low) entries.now × (0 < self.now.high.count) }
        ensures { HalvedTable self.now entries.now result.0 result.1.now result.2.now }
    {
        let half = 4 * table::rows(self.high.count - 1 + self.low);
        (self.after(1), &entries[..half], &entries[half..])
    }

    // The same, by the halves of the words. By reference: both halves have one copy of what is left.
    fn halves(&self, piece: Piece) -> Element
        requires { Fits self.now piece }
        ensures { Holds result (part_value self.now piece.entry) }
    {
        if piece.words.len() == 0 {
            Element::zero()
        } else if self.high.count == 0 {
            self.block.dot(piece.from, piece.words)
        } else {
            let (rest, low, high) = self.halved(piece);
            let at0 = rest.halves(low);
            let at1 = rest.halves(high);
            line(at0, at1, self.high.read(0))
        }
    }

    // The same of a table of elements. No plainer as one with `halves`: of words some rows may have none, and they stand from a row on; the
    // elements are all there.
    pub fn halves_ext(&self, entries: &[u32]) -> Element
        requires { WholeTable 4 (self.now.high.count + self.now.low) entries.now }
        ensures { Holds result (part_value_ext self.now entries.now) }
    {
        if self.high.count == 0 {
            dots::dot_ext(self.block.table, entries)
        } else {
            let (rest, low, high) = self.halved_ext(entries);
            let at0 = rest.halves_ext(low);
            let at1 = rest.halves_ext(high);
            line(at0, at1, self.high.read(0))
        }
    }

    // The table's entries for the words of one block.
    fn weights(&self, piece: Piece) -> &'a [u32]
        requires { 4 * piece.from + 4 * length piece.words.now ≤ length self.now.block.table.now }
        ensures { result.now
            ≡ take (4 * length piece.entry.words.now) (drop (4 * piece.entry.from) self.now.block.table.now) }
    {
        let start = 4 * piece.from;
        let end = start + 4 * piece.words.len();
        &self.block.table[start..end]
    }
}

// The words pass the end of the part of 2^n rows that they start in.
fn crosses(from: usize, len: usize, n: usize) -> bool
    requires { (n ≤ most) × (len ≤ 2 ^ most) }
    ensures { result ≡ ltb (2 ^ n) (from % 2 ^ n + len) }
{
    let rows = table::rows(n);
    rows < from % rows + len
}

// The line through a at 0 and b at 1, at r.
fn line(a: Element, b: Element, r: Element) -> Element
    requires { Reduced a × Reduced b × Reduced r }
    ensures { Holds result (line field (from_words a) (from_words b) (from_words r)) }
{
    a.add(b.sub(a).mul(r))
}
