// Tables: made from a point, and their values at a point.
#![tactic(auto)]

pub mod value;

ghost use Rattle.std.specs.Prelude.{◌≡◌, ◌-◌, ◌*◌, ◌^◌, ◌<◌, length};
ghost use Rattle.multilinear.specs.Equality.{eq_at};
ghost use Rattle.field.specs.Field.{field, Holds};
ghost use Rattle.poly.specs.Poly.{new_answer, new_out, next_out, cyclic_out};
ghost use Rattle.table.specs.Table.{table_words, element_at, entries};
ghost use Rattle.table.specs.Refusals.{answer};
ghost use Rattle.point.specs.Point.{table_answer};
ghost use Rattle.point.specs.Points.{coordinates};
ghost use Rattle.poly.specs.Inner.{Weights, previous_at, successor_at};

use field::Element;
use point::Point;
use point::equality::{self, BitOrder};
use table::Refusal;

// out becomes the table of scale eq.
#[tactic(auto, using(table::proofs::Outcomes::outcomes), unfolding(crate::specs::Poly::new_out))]
pub fn new_from_point(point: &[u32], scale: Element, out: &mut [u32]) -> Result<(), Refusal>
    ensures result_value { answer result ≡ new_answer point.now scale out.old }
    ensures out_after { out.new ≡ new_out point.now scale out.old }
{
    test_scaled(point, scale, out)?;
    equality::fill(out, Point::of(point), BitOrder::Msb, scale);
    Ok(())
}

// out becomes the table of the next weights: the equality table, each weight a row further, and the last row's once more.
//
//     [ eq0, eq1, .., eq_{N-1} ]  ->  [ 0, eq0, .., eq_{N-2} + eq_{N-1} ]
#[tactic(auto, using(table::proofs::Outcomes::outcomes), unfolding(crate::specs::Poly::weights_out))]
pub fn new_next_from_point(point: &[u32], out: &mut [u32]) -> Result<(), Refusal>
    ensures result_value { answer result ≡ table_answer point.now out.old }
    ensures out_after { out.new ≡ next_out point.now out.old }
{
    equality::test_table(point, out)?;
    let last = out.len() / 4 - 1;
    successors(out, Point::of(point), last);
    Ok(())
}

// out becomes the table of the cyclic weights, the last row being followed by the first.
//
//     [ eq0, eq1, .., eq_{N-1} ]  ->  [ eq_{N-1}, eq0, .., eq_{N-2} ]
#[tactic(auto, using(table::proofs::Outcomes::outcomes), unfolding(crate::specs::Poly::weights_out))]
pub fn new_cyclic_from_point(point: &[u32], out: &mut [u32]) -> Result<(), Refusal>
    ensures result_value { answer result ≡ table_answer point.now out.old }
    ensures out_after { out.new ≡ cyclic_out point.now out.old }
{
    equality::test_table(point, out)?;
    successors(out, Point::of(point), 0);
    Ok(())
}

#[tactic(auto, using(table::proofs::Verdicts::tests), unfolding(crate::specs::Poly::new_answer))]
fn test_scaled(point: &[u32], scale: Element, out: &[u32]) -> Result<(), Refusal>
    ensures { answer result ≡ new_answer point.now scale out.now }
{
    equality::test_table(point, out)?;
    table::refuse_if(field::unreduced(&scale.c), Refusal::Unreduced)
}

// out becomes the table of a point's eq, each a row further, and the last row's once more at row `own`.
fn successors(out: &mut [u32], point: Point, own: usize)
    requires rows { length out.old ≡ 4 * 2 ^ point.count }
    requires own { own < 2 ^ point.count }
    ensures { out.new
        ≡ table_words (2 ^ point.entry.count) (successor_at own (2 ^ point.entry.count) (eq_at field (coordinates point.entry))) }
{
    equality::fill(out, point, BitOrder::Msb, Element::one());
    succeed(out, own);
}

// The weights of out, each a row further, and the last one once more at row `own`.
fn succeed(out: &mut [u32], own: usize)
    requires weights { Weights (entries out.old) out.old }
    requires own { own < entries out.old }
    ensures { out.new
        ≡ table_words (entries out.old) (successor_at own (entries out.old) (element_at out.old)) }
{
    let last = shift(out);
    let kept = table::get(out, own);
    table::put(out, own, kept.add(last));
}

// Each weight of out becomes the one before it, and the first 0. The last one is given back. By a loop: `copy_within` would have
// the archives for C ask for `memmove`.
//
//     [ w0, w1, .., w_{N-1} ]  ->  [ 0, w0, .., w_{N-2} ]  and  w_{N-1}
fn shift(out: &mut [u32]) -> Element
    requires { Weights (entries out.old) out.old }
    ensures last { Holds result (element_at out.old (entries out.old - 1)) }
    ensures moved { out.new ≡ table_words (entries out.old) (previous_at (element_at out.old)) }
{
    let mut before = Element::zero();
    for i in 0..out.len() / 4 {
        let kept = table::get(out, i);
        table::put(out, i, before);
        before = kept;
    }
    before
}
