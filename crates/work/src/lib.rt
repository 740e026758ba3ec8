// The work buffer of the split folds: the tables of the two halves of a point, and the weights that they make.
//
//     work     eq0: scale eq of the first half of the coordinates | eq1: eq of the others
//     row y    has the weight eq0[y / n1] eq1[y % n1], n1 being the entries of eq1
#![tactic(auto)]

ghost use Rattle.std.specs.Prelude.{◌≡◌, ◌+◌, ◌^◌, ◌<◌};
ghost use Rattle.algebra.specs.Ring.{Ops};
ghost use Rattle.field.specs.Field.{field, from_words, Reduced, Holds};
ghost use Rattle.work.specs.Work.{work_differs, work_words};
ghost use Rattle.work.specs.Inner.{BothTables, Tables, Apart, row_weight, accumulated, Open};

use field::Element;
use multiplier::Multiplier;
use point::Point;
use point::equality::{self, BitOrder};

// 4: work has not just the words of both tables. No slice has as many as 2^62 elements.
pub fn differs(work: &[u32], k: usize) -> bool
    ensures { result ≡ work_differs work.now k }
{
    let first = k / 2;
    let others = k - first;
    if 61 < others {
        return true;
    }
    work.len() / 4 != (1 << first) + (1 << others)
}

// work becomes both tables of the point; the second is written from the middle of the buffer.
pub fn fill(work: &mut [u32], point: Point, scale: Element)
    requires { Reduced scale × BothTables point.count work.old }
    ensures { work.new ≡ work_words point.entry.count point.entry.words.now (from_words scale) }
{
    let first = point.count / 2;
    let a = 4 * table::rows(first);
    equality::fill(&mut work[..a], point.first(first), BitOrder::Msb, scale);
    equality::fill(
        &mut work[a..],
        point.after(first),
        BitOrder::Msb,
        Element::one(),
    );
}

// The weight of row y: eq0[y / n1] eq1[y % n1]. `(work, k)` goes on to `tables`, here and in `accumulate`; why their fact is a clause:
// `Tables` of specs/Inner.antt.
pub fn weight(work: &[u32], k: usize, y: usize) -> Element
    requires { Tables k work.now × (y < 2 ^ k) }
    ensures { Holds result (row_weight k work.now y) }
{
    let (eq0, eq1) = tables(work, k);
    let n1 = eq1.len() / 4;
    table::read(eq0, y / n1).mul(table::read(eq1, y % n1))
}

// out[y] gains given times the weight of row y: a product a row, and one a block of as many rows as eq1 has.
pub fn accumulate(work: &[u32], k: usize, given: Element, out: &mut [u32])
    requires { (Tables k work.now × Reduced given) × Open k out.old }
    ensures { out.new ≡ accumulated k work.now (from_words given) out.old }
{
    let (eq0, eq1) = tables(work, k);
    let block = eq1.len() / 4;
    for h in 0..eq0.len() / 4 {
        let seed = given.mul(table::read(eq0, h));
        Multiplier::new(seed).gain(out, h * block, eq1);
    }
}

// eq0 and eq1.
fn tables(work: &[u32], k: usize) -> (&[u32], &[u32])
    requires { Tables k work.now }
    ensures { Apart k work.now result.0.now result.1.now }
{
    work.split_at(4 * table::rows(k / 2))
}
