// Tables of eq of many rows, each row the product of one of its high bits and one of its low bits:
//
//     eq[h 2^LOW + l] = high[h] low[l]        [ high | .. ]  ->  [ high[0] low | high[1] low | .. ]
//
// The table of the low bits stands in a room of its own, and each block of out is written once. That is a product a row, as by doubling, of
// a loop that reads and writes different words.
ghost use Rattle.std.specs.Prelude.{◌≡◌, ◌*◌, ◌^◌, ◌≤◌, ◌<◌, length};
ghost use Rattle.algebra.specs.Ring.{Ops};
ghost use Rattle.field.specs.Field.{field, from_words, Reduced};
ghost use Rattle.table.specs.Table.{table_words, entries};
ghost use Rattle.point.specs.Point.{eq_by};
ghost use Rattle.point.specs.Points.{coordinates};
ghost use Rattle.point.specs.Inner.{low_bits, Halved, Spans, Spanned};

use crate::Point;
use crate::equality::{self, BitOrder};
use field::Element;
use multiplier::Multiplier;

// The low bits.
pub const LOW: usize = 8;

const LOW_WORDS: usize = 4 << LOW;

impl BitOrder {
    // The coordinates of a row's high bits, and those of its LOW low ones.
    fn halves(self, point: Point) -> (Point, Point)
        requires { low_bits ≤ point.count }
        ensures { Halved self point.entry result.0 result.1 }
    {
        let high = point.count - LOW;
        match self {
            BitOrder::Msb => (point.first(high), point.after(high)),
            BitOrder::Lsb => (point.after(LOW), point.first(LOW)),
        }
    }
}

// The table of scale eq in a bit order. It stays a call: its room is in no frame of the callers that fill small tables.
#[inline(never)]
pub fn fill(out: &mut [u32], point: Point, order: BitOrder, scale: Element)
    requires { Reduced scale × (low_bits < point.count) × (length out.old ≡ 4 * 2 ^ point.count) }
    ensures { out.new
        ≡ table_words (2 ^ point.entry.count) (λ y. field.mul (from_words scale) (eq_by order (coordinates point.entry) y)) }
{
    let (high, low) = order.halves(point);
    let mut block = [0u32; LOW_WORDS];
    equality::by_doubling(&mut block, low, order, scale);
    let rows = table::rows(high.count);
    equality::by_doubling(&mut out[..4 * rows], high, order, Element::one());
    span(out, rows, &block);
}

// Each of the n elements at the front of out becomes a block, the element times `block`: the last one first, since a block lies past the
// elements before its own.
fn span(out: &mut [u32], n: usize, block: &[u32])
    requires { Spans n block.now out.old }
    ensures { Spanned 0 n block.now out.old out.new }
{
    let len = block.len() / 4;
    for h in (0..n).rev() {
        let m = Multiplier::new(table::get(out, h));
        m.set(out, h * len, block);
    }
}
