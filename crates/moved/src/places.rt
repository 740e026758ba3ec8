// Place by place, on the suffix side. The places that a piece has words of are whole, but for the first and the last of them.
ghost use Rattle.std.specs.Prelude.{◌≡◌, ◌+◌, ◌*◌, ◌^◌, ◌≤◌, ◌<◌, min, length};
ghost use Rattle.moved.specs.Blocked.{Blocked};

use crate::Piece;
use dots::spread;
use std::ops::Range;
use weigh::blocks::{self, SplitPoint};

// The words from which on a piece is no longer short, then of a middle size, then long. A block's table costs as many products as it has
// rows, and each block one: long pieces are worth large blocks.
const SHORT: usize = 64;

const MIDDLE: usize = 1024;

const LONG: usize = 16384;

// A piece, and what the words of its places are summed against.
#[derive(Clone, Copy)]
struct Blocks<'a, const WORDS: usize> {
    piece: Piece<'a>,
    split: SplitPoint<'a, WORDS>,
    ghost blocked: { Blocked piece split },
}

impl<'a> Piece<'a> {
    ghost use Rattle.multilinear.specs.declared.Side.TheVariants.{Suffix};
    ghost use Rattle.table.specs.Gained.{Gained};
    ghost use Rattle.moved.specs.Moved.{Adds, moved_by};
    ghost use Rattle.moved.specs.Inner.{Served, Cuts};

    // The rows from `skip` on of each place, each by the weight of the row `skip` before.
    pub(crate) fn by_places(&self, out: &mut [u32])
        requires { Adds self.now out.old }
        ensures { Gained 0 self.now.inner (moved_by Suffix self.now) out.old out.new }
    {
        if self.words.len() == 0 {
            return;
        }
        let k = self.point.count;
        let n = self.words.len();
        if n < SHORT {
            self.by_blocks::<{ weigh::SMALL_BLOCK_WORDS }>(k.min(weigh::SMALL_BLOCK), out);
        } else if n < MIDDLE {
            self.by_blocks::<{ weigh::SHORT_BLOCK_WORDS }>(k.min(weigh::SHORT_BLOCK), out);
        } else if n < LONG {
            self.by_blocks::<{ weigh::MIDDLE_BLOCK_WORDS }>(k.min(weigh::MIDDLE_BLOCK), out);
        } else {
            self.by_blocks::<{ weigh::BLOCK_WORDS }>(k.min(weigh::BLOCK), out);
        }
    }

    // The same of a piece that has words, by blocks of `low` variables, each table in an array of WORDS words. It stays a call: its rooms are in no
    // frame of a piece that goes by rows.
    #[inline(never)]
    fn by_blocks<const WORDS: usize>(&self, low: usize, out: &mut [u32])
        requires { (Adds self.now out.old × (0 < length self.now.words.now)) × Served self.now low WORDS }
        ensures { Gained 0 self.now.inner (moved_by Suffix self.now) out.old out.new }
    {
        let table = weigh::block_of::<WORDS>(self.point, low, self.scale);
        let mut spread = [0u64; WORDS];
        spread::fill::<WORDS>(&mut spread, &table);
        let blocks = Blocks {
            piece: *self,
            split: SplitPoint::<WORDS>::of(self.point, low, &table, &spread),
        };
        blocks.add_places(out);
    }

    // The same against a split point that was made before.
    pub(crate) fn by_split<const WORDS: usize>(&self, split: SplitPoint<'a, WORDS>, out: &mut [u32])
        requires { Adds self.now out.old × Blocked self.now split }
        ensures { Gained 0 self.now.inner (moved_by Suffix self.now) out.old out.new }
    {
        if self.words.len() == 0 {
            return;
        }
        let blocks = Blocks {
            piece: *self,
            split,
        };
        blocks.add_places(out);
    }

    // The words from word `start` to before word `stop` of the table: all that are between, but for a place that is cut.
    fn cut(&self, start: usize, stop: usize) -> blocks::Piece<'a>
        requires { (start ≤ stop) × (self.now.taken ≤ stop) }
        ensures { Cuts self.now start stop result }
    {
        let taken = self.taken;
        if taken <= start && stop <= taken + self.words.len() {
            return blocks::Piece {
                words: &self.words[start - taken..stop - taken],
                from: 0,
            };
        }
        let a = self.before(start);
        let b = self.before(stop);
        blocks::Piece {
            words: &self.words[a..b],
            from: taken.saturating_sub(start),
        }
    }
}

impl<'a, const WORDS: usize> Blocks<'a, WORDS> {
    ghost use Rattle.multilinear.specs.declared.Side.TheVariants.{Suffix};
    ghost use Rattle.table.specs.Gained.{Gained};
    ghost use Rattle.moved.specs.Moved.{Adds, moved_by};
    ghost use Rattle.moved.specs.Inner.{Reached, Wholes, GainedIn};

    // The first place, the whole ones after it, and the last.
    fn add_places(&self, out: &mut [u32])
        requires { Adds self.now.piece out.old × (0 < length self.now.piece.words.now) }
        ensures { Gained 0 self.now.piece.inner (moved_by Suffix self.now.piece) out.old out.new }
    {
        let piece = self.piece;
        let rows = table::rows(piece.point.count);
        let first = piece.taken / rows;
        let last = (piece.taken + piece.words.len() - 1) / rows;
        self.add_range(first..first + 1, out);
        if first < last {
            self.add_whole(first + 1..last, out);
            self.add_range(last..last + 1, out);
        }
    }

    // Places that may be cut.
    fn add_range(&self, range: Range<usize>, out: &mut [u32])
        requires { Adds self.now.piece out.old × Reached self.now.piece range.start range.end }
        ensures { GainedIn self.now.piece range.start range.end out.old out.new }
    {
        let rows = table::rows(self.piece.point.count);
        let skip = crate::skip_of(self.piece.weight);
        // By number: of an element that `chunks_exact_mut` lent only its length is known after the loop.
        for i in range.start..range.end {
            let words = self.piece.cut(i * rows + skip, i * rows + rows);
            let sum = self.split.part(words);
            table::put(out, i, table::read(out, i).add(sum));
        }
    }

    // Whole places. Those of two words or four go all together.
    fn add_whole(&self, range: Range<usize>, out: &mut [u32])
        requires { Adds self.now.piece out.old × Wholes self.now.piece range.start range.end }
        ensures { GainedIn self.now.piece range.start range.end out.old out.new }
    {
        match table::rows(self.piece.point.count) {
            2 => self.add_groups::<2>(range, out),
            4 => self.add_groups::<4>(range, out),
            _ => self.add_range(range, out),
        }
    }

    // Whole places of N words, with one division a place and coordinate.
    fn add_groups<const N: usize>(&self, range: Range<usize>, out: &mut [u32])
        requires whole { Adds self.now.piece out.old × Wholes self.now.piece range.start range.end }
        requires rows { 2 ^ self.now.piece.point.count ≡ N }
        requires few { (1 < N) × (N ≤ 4) }
        ensures { GainedIn self.now.piece range.start range.end out.old out.new }
    {
        let skip = crate::skip_of(self.piece.weight);
        let weights = crate::weights_of::<N>(self.split.block.table, skip);
        let a = range.start * table::rows(self.piece.point.count) - self.piece.taken;
        let n = range.end - range.start;
        kernel::gain_groups(out, range.start, &self.piece.words[a..], n, weights);
    }
}
