// Values with a scale.
//
//     eval_base, eval_ext    scale sum_y eq[y] table[y]
//     eval_next_base         scale sum_y next[y] table[y]      next[y] = eq[y - 1], and eq[y] more at the last row
//
// A table of no variable has its constant, and the next value of one variable its entry 1, without the scale.
ghost use Rattle.std.specs.Prelude.{◌≡◌};
ghost use Rattle.multilinear.specs.Folds.{scaled_value_at, scaled_next_value_at};
ghost use Rattle.field.specs.Field.{field, from_words, Reduced, Holds};
ghost use Rattle.table.specs.Refusals.{outcome};
ghost use Rattle.point.specs.Points.{coordinates};
ghost use Rattle.weigh.specs.Entries.{WholeTable};
ghost use Rattle.work.specs.Work.{work_words};
ghost use Rattle.work.specs.Inner.{BothTables};
ghost use Rattle.split_eq.specs.Split.{base_at, base_work, ext_work};
ghost use Rattle.split_eq.specs.Split.{scaled_base_answer, scaled_ext_answer, scaled_next_base_answer};
ghost use Rattle.split_eq.specs.Inner.{Weighed};

use field::Element;
use point::Point;
use table::Refusal;
use weigh::entries::{Elements, Entries, Words};

// scale sum_y eq[y] table[y], of base words. Document 01 names this operation and the next, of elements.
#[tactic(auto, using(table::proofs::Outcomes::outcomes), unfolding(crate::specs::Split::scaled_base_answer, crate::specs::Split::base_work))]
pub fn eval_base(
    table: &[u32],
    point: &[u32],
    scale: Element,
    work: &mut [u32],
) -> Result<Element, Refusal>
    ensures result_value { outcome result ≡ scaled_base_answer table.now point.now scale work.old }
    ensures work_after { work.new ≡ base_work table.now point.now scale work.old }
{
    split_tests::of_base(table, point, scale, work)?;
    Ok(scaled_value::<Words>(table, Point::of(point), scale, work))
}

// scale sum_y eq[y] table[y], of elements.
#[tactic(auto, using(table::proofs::Outcomes::outcomes), unfolding(crate::specs::Split::scaled_ext_answer, crate::specs::Split::ext_work))]
pub fn eval_ext(
    table: &[u32],
    point: &[u32],
    scale: Element,
    work: &mut [u32],
) -> Result<Element, Refusal>
    ensures result_value { outcome result ≡ scaled_ext_answer table.now point.now scale work.old }
    ensures work_after { work.new ≡ ext_work table.now point.now scale work.old }
{
    split_tests::of_ext(table, point, scale, work)?;
    Ok(scaled_value::<Elements>(table, Point::of(point), scale, work))
}

// scale sum_y next[y] table[y], of base words.
#[tactic(auto, using(table::proofs::Outcomes::outcomes), unfolding(crate::specs::Split::scaled_next_base_answer, crate::specs::Split::base_work))]
pub fn eval_next_base(
    table: &[u32],
    point: &[u32],
    scale: Element,
    work: &mut [u32],
) -> Result<Element, Refusal>
    ensures result_value { outcome result ≡ scaled_next_base_answer table.now point.now scale work.old }
    ensures work_after { work.new ≡ base_work table.now point.now scale work.old }
{
    split_tests::of_base(table, point, scale, work)?;
    let point = Point::of(point);
    work::fill(work, point, scale);
    Ok(scaled_next_value(table, point, scale, work))
}

// The value after the tests; work is filled with both tables.
fn scaled_value<T: Entries>(
    table: &[u32],
    point: Point,
    scale: Element,
    work: &mut [u32],
) -> Element
    requires operands { Reduced scale × BothTables point.count work.old }
    requires whole { WholeTable T.WIDTH point.count table.now }
    ensures value { Holds result
        (scaled_value_at field (coordinates point.entry) (from_words scale) (T.entry table.now)) }
    ensures work_after { work.new
        ≡ work_words point.entry.count point.entry.words.now (from_words scale) }
{
    work::fill(work, point, scale);
    if point.count == 0 {
        return T::read(table, 0);
    }
    T::weigh(table, point, scale)
}

// Each row's weight goes to the row after it; the last row has its own once more.
fn scaled_next_value(table: &[u32], point: Point, scale: Element, work: &[u32]) -> Element
    requires operands { Reduced scale × WholeTable 1 point.count table.now }
    requires weighed { Weighed point.count point.words.now scale work.now }
    ensures { Holds result
        (scaled_next_value_at field (coordinates point.entry) (from_words scale) (base_at table.now)) }
{
    let n = point.count;
    if n < 2 {
        return Element::from_base(table[n]);
    }
    let last = table.len() - 1;
    let own = work::weight(work, n, last).mul_base(table[last]);
    weigh::weigh(&table[1..], point, scale).add(own)
}
