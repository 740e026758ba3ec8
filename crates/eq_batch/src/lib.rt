// Sums of equality tables: n rows of w coordinates, column j a point, and a scalar for each.
//
//     out[y] = sum_j scalar_j eq(point_j)[y]
//
// A point's table of the last 8 coordinates, or fewer, is made once, in an array (4 KiB). out gains it block by block, times eq of the
// coordinates before: 2^n products a point, 2^8 more, and at most 12 a block. With n of 8 or fewer there is one block,
// and it is added without a product.
#![tactic(auto)]

ghost use Rattle.std.specs.Prelude.{◌≡◌, true, false, not, ◌*◌, ◌^◌, eqb};
ghost use Rattle.algebra.specs.Words.{unreduced};
ghost use Rattle.field.specs.Field.{p, Reduced};
ghost use Rattle.table.specs.Table.{element_at, entries};
ghost use Rattle.table.specs.Refusals.{answer, verdict};
ghost use Rattle.table.specs.Gained.{Gained};
ghost use Rattle.point.specs.Points.{coordinates};
ghost use Rattle.eq_batch.specs.Batch.{batch_tests, batch_answer, batch_at, set_out, add_out};
ghost use Rattle.eq_batch.specs.Inner.{Elements, Points, Column, Gathered, scaled_at};

use field::Element;
use multiplier::Multiplier;
use point::{Point, WORDS, equality};
use table::Refusal;
use weigh::{BLOCK, BLOCK_WORDS};

// The most points of a batch.
pub const MOST_POINTS: usize = 64;

// out becomes the sum. The parameters are document 01's: a struct of n, points and scalars would stand behind the tests, for `add_points`
// and `gather`.
#[tactic(auto, using(table::proofs::Outcomes::outcomes), unfolding(crate::specs::Batch::batch_answer, crate::specs::Batch::set_out))]
pub fn eval_eq_batch(
    n: usize,
    points: &[u32],
    scalars: &[u32],
    out: &mut [u32],
) -> Result<(), Refusal>
    ensures result_value { answer result ≡ batch_answer false n points.now scalars.now out.old }
    ensures out_after { out.new ≡ set_out n points.now scalars.now out.old }
{
    if scalars.is_empty() {
        return Ok(());
    }
    test_batch::<false>(n, points, scalars, out)?;
    table::clear(out);
    add_points(n, points, scalars, out);
    Ok(())
}

// out gains the sum. The body is that of `eval_eq_batch` without `clear`. One function of both, by a const parameter, would call it under
// an `if`, and its contract would say by a definition more which of `set_out` and `add_out` it is.
#[tactic(auto, using(table::proofs::Outcomes::outcomes), unfolding(crate::specs::Batch::batch_answer, crate::specs::Batch::add_out))]
pub fn eval_eq_batch_add(
    n: usize,
    points: &[u32],
    scalars: &[u32],
    out: &mut [u32],
) -> Result<(), Refusal>
    ensures result_value { answer result ≡ batch_answer true n points.now scalars.now out.old }
    ensures out_after { out.new ≡ add_out n points.now scalars.now out.old }
{
    if scalars.is_empty() {
        return Ok(());
    }
    test_batch::<true>(n, points, scalars, out)?;
    add_points(n, points, scalars, out);
    Ok(())
}

#[tactic(auto, using(table::proofs::Verdicts::tests))]
fn test_batch<const ADDING: bool>(
    n: usize,
    points: &[u32],
    scalars: &[u32],
    out: &[u32],
) -> Result<(), Refusal>
    ensures { answer result ≡ verdict (batch_tests ADDING n points.now scalars.now out.now) }
{
    let w = scalars.len() / 4;
    table::refuse_if(table::splits(points), Refusal::Split)?;
    table::refuse_if(table::splits(scalars), Refusal::Split)?;
    table::refuse_if(table::splits(out), Refusal::Split)?;
    table::refuse_if(table::MOST < n, Refusal::TooMany)?;
    table::refuse_if(MOST_POINTS < w, Refusal::TooMany)?;
    table::refuse_if(is_no_product(points.len() / 4, n, w), Refusal::Lengths)?;
    table::refuse_if(table::rows_differ(out, n), Refusal::Lengths)?;
    table::refuse_if(field::unreduced(points), Refusal::Unreduced)?;
    table::refuse_if(field::unreduced(scalars), Refusal::Unreduced)?;
    table::refuse_if(ADDING && field::unreduced(out), Refusal::Unreduced)
}

// count is not n w. The product is not formed: it may not fit.
fn is_no_product(count: usize, n: usize, w: usize) -> bool
    ensures { result ≡ not (eqb count (n * w)) }
{
    if w == 0 {
        return count != 0;
    }
    if count % w != 0 {
        return true;
    }
    count / w != n
}

// out gains the sum over the points.
fn add_points(n: usize, points: &[u32], scalars: &[u32], out: &mut [u32])
    requires { Points n points.now scalars.now × Elements 0 (2 ^ n) out.old }
    ensures { Gained 0 (2 ^ n) (batch_at n points.now scalars.now)
        out.old out.new }
{
    let w = scalars.len() / 4;
    // By number: column j has an element of each row, so that it is no slice of points.
    for j in 0..w {
        let column = gather(points, n, w, j);
        let point = Point {
            words: &column,
            count: n,
        };
        add_point(point, table::read(scalars, j), out);
    }
}

// Column j of n rows, as the coordinates of a point.
fn gather(points: &[u32], n: usize, w: usize, j: usize) -> [u32; WORDS]
    requires { Column n w j points.now }
    ensures { Gathered n w j points.now result }
{
    let mut point = [0u32; WORDS];
    for (i, row) in points.chunks_exact(4 * w).take(n).enumerate() {
        table::put(&mut point, i, table::read(row, j));
    }
    point
}

// out gains scale eq of the point, block by block: a block for each row of the first coordinates, by the table of the last ones.
// A point without first coordinates has one block, whose table is added as it is.
fn add_point(point: Point, scale: Element, out: &mut [u32])
    requires { Reduced scale × Elements 0 (2 ^ point.count) out.old }
    ensures { Gained 0 (2 ^ point.entry.count) (scaled_at scale (coordinates point.entry))
        out.old out.new }
{
    let low = point.count.min(BLOCK);
    let first = point.first(point.count - low);
    let rows = table::rows(low);
    let room = weigh::block_of::<BLOCK_WORDS>(point, low, scale);
    let block = &room[..4 * rows];
    if first.count == 0 {
        return add_table(out, block);
    }
    for h in 0..table::rows(first.count) {
        let seed = equality::at_row(first, h);
        Multiplier::new(seed).gain(out, h * rows, block);
    }
}

// out gains the rows, each at its own place.
fn add_table(out: &mut [u32], rows: &[u32])
    requires { (unreduced p rows.now ≡ false) × Elements 0 (entries rows.now) out.old }
    ensures { Gained 0 (entries rows.now) (element_at rows.now) out.old out.new }
{
    // By number, as `Multiplier::gain`.
    for i in 0..rows.len() / 4 {
        let sum = table::get(out, i).add(table::read(rows, i));
        table::put(out, i, sum);
    }
}
