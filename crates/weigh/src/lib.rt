// Sums against eq: what values and folds have in common.
//
// A table is split into halves, one variable at a time, the first variable first:
//
//     f(z0, z1, ..) = f(0, z1, ..) + (f(1, z1, ..) - f(0, z1, ..)) z0
//
// What is left at the last 8 variables, 6 of a smaller table, is summed against their table of eq, which is made once. The value of a table
// of 8 variables or fewer is made by halves alone.
#![tactic(auto)]

pub mod blocks;
pub mod entries;
mod small;

ghost use Rattle.std.specs.Prelude.{◌-◌, ◌*◌, ◌^◌, ◌≤◌};
ghost use Rattle.algebra.specs.Ring.{Ops};
ghost use Rattle.field.specs.Field.{field, from_words, Reduced, Holds};
ghost use Rattle.table.specs.Table.{element_at};
ghost use Rattle.weigh.specs.Entries.{WholeTable, word_at, table_value};
ghost use Rattle.weigh.specs.Weigh.{NearlyWhole, Block, InArray};

use blocks::{Piece, SplitPoint};
use dots::spread;
use entries::Entries;
use field::Element;
use point::Point;
use point::equality::{self, BitOrder};
use small::Prepared;

// The most variables of a block.
pub const BLOCK: usize = 8;

// The most variables of smaller blocks: a table has as many products as rows, and there is less to clear.
pub const MIDDLE_BLOCK: usize = 6;

pub const SHORT_BLOCK: usize = 4;

pub const SMALL_BLOCK: usize = 2;

// The words of their tables.
pub const BLOCK_WORDS: usize = 4 << BLOCK;

pub const MIDDLE_BLOCK_WORDS: usize = 4 << MIDDLE_BLOCK;

pub const SHORT_BLOCK_WORDS: usize = 4 << SHORT_BLOCK;

pub const SMALL_BLOCK_WORDS: usize = 4 << SMALL_BLOCK;

// A table of fewer variables is summed by middle blocks.
const LARGE: usize = 12;

// The value of a table of base words, or of elements.
pub fn value<T: Entries>(table: &[u32], point: Point) -> Element
    requires { WholeTable T.WIDTH point.count table.now }
    ensures { Holds result (table_value T.entry point.entry table.now) }
{
    if point.count <= BLOCK {
        let raised = small::raised(point);
        let prepared = Prepared {
            point,
            raised: &raised,
        };
        prepared.halves::<T>(table)
    } else {
        T::weigh(table, point, Element::one())
    }
}

// scale times the sum of eq[y] words[y] over the rows. The last row's word may be missing, and counts as 0.
pub fn weigh(words: &[u32], point: Point, scale: Element) -> Element
    requires { Reduced scale × NearlyWhole point.count words.now }
    ensures { Holds result (field.mul (from_words scale) (table_value word_at point.entry words.now)) }
{
    if point.count <= SMALL_BLOCK {
        weigh_by::<SMALL_BLOCK_WORDS>(words, point, point.count, scale)
    } else if point.count <= SHORT_BLOCK {
        weigh_by::<SHORT_BLOCK_WORDS>(words, point, point.count, scale)
    } else if point.count < LARGE {
        weigh_by::<MIDDLE_BLOCK_WORDS>(words, point, point.count.min(MIDDLE_BLOCK), scale)
    } else {
        weigh_by::<BLOCK_WORDS>(words, point, BLOCK, scale)
    }
}

// The same, by a block of the last `low` variables, in an array of WORDS words.
fn weigh_by<const WORDS: usize>(words: &[u32], point: Point, low: usize, scale: Element) -> Element
    requires { (Reduced scale × NearlyWhole point.count words.now) × (low ≤ point.count) × InArray low WORDS }
    ensures { Holds result (field.mul (from_words scale) (table_value word_at point.entry words.now)) }
{
    let table = block_of::<WORDS>(point, low, scale);
    let mut spread = [0u64; WORDS];
    spread::fill::<WORDS>(&mut spread, &table);
    SplitPoint::<WORDS>::of(point, low, &table, &spread).part(Piece { words, from: 0 })
}

// The same of a table of elements, each of them there. No plainer as one with `weigh`: of words the last may be missing.
fn weigh_ext(entries: &[u32], point: Point, scale: Element) -> Element
    requires { Reduced scale × WholeTable 4 point.count entries.now }
    ensures { Holds result
        (field.mul (from_words scale) (table_value element_at point.entry entries.now)) }
{
    if point.count < LARGE {
        let low = point.count.min(MIDDLE_BLOCK);
        return weigh_ext_by::<MIDDLE_BLOCK_WORDS>(entries, point, low, scale);
    }
    weigh_ext_by::<BLOCK_WORDS>(entries, point, BLOCK, scale)
}

// The same, by a block of the last `low` variables, in an array of WORDS words.
fn weigh_ext_by<const WORDS: usize>(
    entries: &[u32],
    point: Point,
    low: usize,
    scale: Element,
) -> Element
    requires { (Reduced scale × WholeTable 4 point.count entries.now) × (low ≤ point.count) × InArray low WORDS }
    ensures { Holds result
        (field.mul (from_words scale) (table_value element_at point.entry entries.now)) }
{
    let table = block_of::<WORDS>(point, low, scale);
    let mut spread = [0u64; WORDS];
    spread::fill::<WORDS>(&mut spread, &table);
    SplitPoint::<WORDS>::of(point, low, &table, &spread).halves_ext(entries)
}

// The table of scale eq of a point's last `low` coordinates, in as many words as the caller's block has: of a small one there is less to
// clear. That the point has so many is a clause, here and above: the type of a split point (`blocks`) has the table, which is made here.
pub fn block_of<const WORDS: usize>(point: Point, low: usize, scale: Element) -> [u32; WORDS]
    requires { Reduced scale × (low ≤ point.count) × (4 * 2 ^ low ≤ WORDS) }
    ensures { Block (point.entry.count - low) low point.entry.words.now (from_words scale) result }
{
    let mut block = [0u32; WORDS];
    let words = 4 * table::rows(low);
    equality::fill(
        &mut block[..words],
        point.after(point.count - low),
        BitOrder::Msb,
        scale,
    );
    block
}
