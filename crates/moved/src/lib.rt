// The rows of a piece that are moved on, added to their places: each row from `skip` on by the eq of the row `skip` before it.
//
//     a place gains   scale eq[y - skip] word of row y, over the rows y from `skip` on      `rows`, `places`
//
// No weight is made twice: on the prefix side the weights of a range of rows come from their common part, coordinate by coordinate, and
// on the suffix side a place's words are summed by halves, so that a row costs one product or less, and a piece some k more.
#![tactic(auto)]

mod places;
mod rows;

ghost use Rattle.std.specs.Prelude.{◌≡◌, false, ◌+◌, ◌-◌, ◌*◌, ◌≤◌, ◌<◌, min, length};
ghost use Rattle.algebra.specs.Words.{unreduced};
ghost use Rattle.multilinear.specs.Inner.{skip_of};
ghost use Rattle.field.specs.Field.{p, Reduced, Holds};
ghost use Rattle.moved.specs.Fits.{Fits};
ghost use Rattle.moved.specs.Weighed.{weight_of, Weighed};

use field::Element;
use multilinear::{Side, Weight};
use point::Point;
use weigh::blocks::SplitPoint;

// A piece of a table of 2^k rows of `inner` words, where the point has k coordinates, and what the rows' weights are made of. The words are
// the table's from word `taken` on.
#[derive(Clone, Copy)]
pub struct Piece<'a> {
    pub point: Point<'a>,
    pub weight: Weight,
    pub scale: Element,
    pub inner: usize,
    pub taken: usize,
    pub words: &'a [u32],
    pub ghost fits: { Fits point.count inner taken words.now },
    pub ghost scale_is: { Reduced scale },
    pub ghost below: { unreduced p words.now ≡ false },
}

impl<'a> Piece<'a> {
    ghost use Rattle.table.specs.Gained.{Gained};
    ghost use Rattle.moved.specs.Moved.{Adds, moved_by};
    ghost use Rattle.moved.specs.Blocked.{Blocked};

    // Each row from `skip` on by the eq of the row `skip` before it. With one row, and where a row is one word, both sides are the same.
    pub fn add(&self, side: Side, out: &mut [u32])
        requires { Adds self.now out.old }
        ensures { Gained 0 self.now.inner (moved_by side self.now) out.old out.new }
    {
        if self.point.count == 0 || (side == Side::Prefix && self.inner != 1) {
            self.by_rows(out);
        } else {
            self.by_places(out);
        }
    }

    // The same, where what places are summed against was made before: pieces of one point and scale have the same.
    pub fn add_by<const WORDS: usize>(
        &self,
        side: Side,
        split: SplitPoint<'a, WORDS>,
        out: &mut [u32],
    )
        requires { Adds self.now out.old × Blocked self.now split }
        ensures { Gained 0 self.now.inner (moved_by side self.now) out.old out.new }
    {
        if self.inner == 1 || side == Side::Suffix {
            self.by_split(split, out);
        } else {
            self.by_rows(out);
        }
    }

    // How many of the piece's words come before word t of the table.
    fn before(&self, t: usize) -> usize
        ensures { result ≡ min (length self.now.words.now) (t - self.now.taken) }
    {
        usize::min(self.words.len(), t.saturating_sub(self.taken))
    }
}

// How many rows before its own a row's eq stands.
pub fn skip_of(weight: Weight) -> usize
    ensures { result ≡ skip_of weight }
{
    match weight {
        Weight::Plain => 0,
        Weight::Shifted | Weight::Next | Weight::Cyclic => 1,
    }
}

// The weights of N rows.
pub fn weights_of<const N: usize>(block: &[u32], skip: usize) -> [Element; N]
    requires few { N ≤ 4 }
    requires block { (4 * N ≤ length block.now) × (unreduced p block.now ≡ false) }
    ensures { Weighed N block.now skip result }
{
    std::array::from_fn(|y| weight_of(block, skip, y))
}

// The weight of row y: what the block's table has `skip` rows before.
fn weight_of(block: &[u32], skip: usize, y: usize) -> Element
    requires { (4 * y + 3 < length block.now) × (unreduced p block.now ≡ false) }
    ensures { Holds result (weight_of block.now skip y) }
{
    if y < skip {
        return Element::zero();
    }
    table::read(block, y - skip)
}
