// Equality: at one vertex, and the table of every row.
ghost use Rattle.std.specs.Prelude.{◌≡◌, ◌*◌, ◌^◌, ◌<◌, leb, length};
ghost use Rattle.algebra.specs.Ring.{Ops};
ghost use Rattle.multilinear.specs.declared.Weight.TheVariants.{Plain};
ghost use Rattle.multilinear.specs.Equality.{for_bit, eq_at};
ghost use Rattle.multilinear.specs.Tails.{tail_at};
ghost use Rattle.multilinear.specs.Inner.{tail_step};
ghost use Rattle.field.specs.Field.{field, from_words, Reduced, Holds};
ghost use Rattle.table.specs.Table.{table_words};
ghost use Rattle.table.specs.Refusals.{answer, outcome, verdict};
ghost use Rattle.point.specs.declared.equality.BitOrder.TheVariants.{Msb, Lsb};
ghost use Rattle.point.specs.Point.{vertex_tests, vertex_answer, table_answer, equality_out, eq_by};
ghost use Rattle.point.specs.Inner.{entering, Doubled, Doubles};
ghost use Rattle.point.specs.Points.{coordinates};

use crate::Point;
use crate::blocks::{self, LOW};
use field::Element;
use multiplier::Multiplier;
use table::Refusal;

// Which end of a point goes with the highest bit of a row number.
#[derive(Clone, Copy, Debug, PartialEq, Eq)]
pub enum BitOrder {
    // Coordinate 0 goes with the highest bit.
    Msb,
    // Coordinate 0 goes with the lowest bit.
    Lsb,
}

impl BitOrder {
    // The coordinate that doubles the table at step i of k: the one of the lowest bit first.
    fn entering(self, k: usize, i: usize) -> usize
        requires { i < k }
        ensures { result ≡ entering self k i }
    {
        match self {
            BitOrder::Msb => k - 1 - i,
            BitOrder::Lsb => i,
        }
    }
}

// eq[vertex].
#[tactic(auto, using(table::proofs::Outcomes::outcomes), unfolding(crate::specs::Point::vertex_answer))]
pub fn equality_at_vertex(point: &[u32], vertex: usize) -> Result<Element, Refusal>
    ensures { outcome result ≡ vertex_answer point.now vertex }
{
    test_vertex(point, vertex)?;
    Ok(at_row(Point::of(point), vertex))
}

// out becomes the table of eq.
#[tactic(auto, using(table::proofs::Outcomes::outcomes), unfolding(crate::specs::Point::equality_out))]
pub fn equality_table(point: &[u32], order: BitOrder, out: &mut [u32]) -> Result<(), Refusal>
    ensures result_value { answer result ≡ table_answer point.now out.old }
    ensures out_after { out.new ≡ equality_out order point.now out.old }
{
    test_table(point, out)?;
    fill(out, Point::of(point), order, Element::one());
    Ok(())
}

// Document 01 names an operation for each bit order: this one has coordinate 0 with the highest bit.
pub fn equality_weights_msb(point: &[u32], out: &mut [u32]) -> Result<(), Refusal>
    ensures result_value { answer result ≡ table_answer point.now out.old }
    ensures out_after { out.new ≡ equality_out Msb point.now out.old }
{
    equality_table(point, BitOrder::Msb, out)
}

// Document 01 names an operation for each bit order: this one has coordinate 0 with the lowest bit.
pub fn equality_weights_lsb(point: &[u32], out: &mut [u32]) -> Result<(), Refusal>
    ensures result_value { answer result ≡ table_answer point.now out.old }
    ensures out_after { out.new ≡ equality_out Lsb point.now out.old }
{
    equality_table(point, BitOrder::Lsb, out)
}

#[tactic(auto, using(table::proofs::Verdicts::tests))]
fn test_vertex(point: &[u32], vertex: usize) -> Result<(), Refusal>
    ensures { answer result ≡ verdict (vertex_tests point.now vertex) }
{
    table::refuse_if(table::splits(point), Refusal::Split)?;
    table::refuse_if(table::too_many(point), Refusal::TooMany)?;
    table::refuse_if(field::unreduced(point), Refusal::Unreduced)?;
    table::refuse_if(is_beyond(vertex, point.len() / 4), Refusal::NoVertex)
}

// The tests of every table of a point.
#[tactic(auto, using(table::proofs::Verdicts::tests), unfolding(crate::specs::Point::table_answer))]
pub fn test_table(point: &[u32], out: &[u32]) -> Result<(), Refusal>
    ensures { answer result ≡ table_answer point.now out.now }
{
    table::refuse_if(table::splits(point), Refusal::Split)?;
    table::refuse_if(table::splits(out), Refusal::Split)?;
    table::refuse_if(table::too_many(point), Refusal::TooMany)?;
    table::refuse_if(table::rows_differ(out, point.len() / 4), Refusal::Lengths)?;
    table::refuse_if(field::unreduced(point), Refusal::Unreduced)
}

// The vertex is at or above 2^k.
fn is_beyond(vertex: usize, k: usize) -> bool
    ensures { result ≡ leb (2 ^ k) vertex }
{
    if 63 < k {
        return false;
    }
    1 << k <= vertex
}

// The factor of a coordinate for a bit.
fn for_bit(bit: usize, c: Element) -> Element
    requires { Reduced c }
    ensures { Holds result (for_bit field bit (from_words c)) }
{
    if bit == 0 {
        return Element::one().sub(c);
    }
    c
}

// eq[row], from the last coordinate, which goes with the lowest bit, back to coordinate 0: two coordinates a turn, whose product does not wait
// for those before.
pub fn at_row(point: Point, row: usize) -> Element
    ensures { Holds result (eq_at field (coordinates point.entry) row) }
{
    let mut product = Element::one();
    let mut left = row;
    if point.count % 2 == 1 {
        product = for_bit(left % 2, point.read(point.count - 1));
        left /= 2;
    }
    // By number, from the last pair back: `chunks_exact(8).rev()` would give eight words, to be made elements as `read` does.
    for i in (0..point.count / 2).rev() {
        let low = for_bit(left % 2, point.read(2 * i + 1));
        let high = for_bit(left / 2 % 2, point.read(2 * i));
        product = high.mul(low).mul(product);
        left /= 4;
    }
    product
}

// eq[row] + eq[row + 1] + .. + eq[2^k - 1], by a product a coordinate, from the last coordinate back to coordinate 0.
pub fn from_row(point: Point, row: usize) -> Element
    requires { row < 2 ^ point.count }
    ensures { Holds result (tail_at field Plain (coordinates point.entry) row) }
{
    let mut sum = Element::one();
    let mut left = row;
    // By number, from the last coordinate back: `chunks_exact(4).rev()` would give four words, to be made an element as `read` does.
    for j in (0..point.count).rev() {
        let c = point.read(j);
        sum = tail_step(left % 2, c, sum);
        left /= 2;
    }
    sum
}

// The sum with a coordinate more in front: for a 0 what is left of the lower half and all of the upper one, for a 1 what is left of the
// upper one.
fn tail_step(bit: usize, c: Element, sum: Element) -> Element
    requires { Reduced c × Reduced sum }
    ensures { Holds result (tail_step field bit (from_words c) (from_words sum)) }
{
    if bit == 0 {
        return sum.add(c.mul(Element::one().sub(sum)));
    }
    c.mul(sum)
}

// The table of scale eq in a bit order. One of many rows is made of two (`blocks`), of few by doubling.
pub fn fill(out: &mut [u32], point: Point, order: BitOrder, scale: Element)
    requires { Reduced scale × (length out.old ≡ 4 * 2 ^ point.count) }
    ensures { out.new
        ≡ table_words (2 ^ point.entry.count) (λ y. field.mul (from_words scale) (eq_by order (coordinates point.entry) y)) }
{
    if point.count <= LOW {
        by_doubling(out, point, order, scale);
    } else {
        blocks::fill(out, point, order, scale);
    }
}

// By 2^k - 1 products: each of the k coordinates doubles the table, as a new highest bit.
pub(crate) fn by_doubling(out: &mut [u32], point: Point, order: BitOrder, scale: Element)
    requires { Reduced scale × (length out.old ≡ 4 * 2 ^ point.count) }
    ensures { out.new
        ≡ table_words (2 ^ point.entry.count) (λ y. field.mul (from_words scale) (eq_by order (coordinates point.entry) y)) }
{
    table::put(out, 0, scale);
    let mut len = 1;
    // By number: the order says which coordinate enters at step i.
    for i in 0..point.count {
        let c = point.read(order.entering(point.count, i));
        double(out, len, c);
        len = len * 2;
    }
}

// Doubles the table of n elements at the front of out by the coordinate c:
//
//     [ t ]  ->  [ t (1 - c) | t c ]
fn double(out: &mut [u32], n: usize, c: Element)
    requires { Doubles n c out.old }
    ensures { Doubled n n (from_words c) out.old out.new }
{
    let m = Multiplier::new(c);
    // By number: of an element that `chunks_exact_mut` lent only its length is known after the loop.
    for i in 0..n {
        let v = table::get(out, i);
        let high = m.times(v);
        let low = v.sub(high);
        table::put(out, n + i, high);
        table::put(out, i, low);
    }
}
