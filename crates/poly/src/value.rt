// Values of a table at a point.
ghost use Rattle.std.specs.Prelude.{◌≡◌, ◌<◌, length, get_or};
ghost use Rattle.multilinear.specs.Inner.{own_value_at};
ghost use Rattle.field.specs.Field.{field, base, Holds};
ghost use Rattle.table.specs.Refusals.{answer, outcome, verdict};
ghost use Rattle.point.specs.Points.{coordinates};
ghost use Rattle.poly.specs.Values.{value_tests, eval_base_answer, eval_ext_answer};
ghost use Rattle.poly.specs.Values.{eval_next_base_answer, eval_cyclic_base_answer};
ghost use Rattle.weigh.specs.Entries.{WholeTable};
ghost use Rattle.poly.specs.Inner.{table_tests};

use field::Element;
use point::{Point, equality};
use table::Refusal;
use weigh::entries::{Elements, Words};

// The value of a table of base words.
#[tactic(auto, using(crate::proofs::Widths::words_tested), unfolding(crate::specs::Values::eval_base_answer))]
pub fn eval_base(table: &[u32], point: &[u32]) -> Result<Element, Refusal>
    ensures { outcome result ≡ eval_base_answer table.now point.now }
{
    test_table::<1>(table, point)?;
    Ok(weigh::value::<Words>(table, Point::of(point)))
}

// The value of a table of elements. Document 01 names an operation for each kind of table.
#[tactic(auto, using(table::proofs::Outcomes::outcomes), unfolding(crate::specs::Values::eval_ext_answer))]
pub fn eval_ext(table: &[u32], point: &[u32]) -> Result<Element, Refusal>
    ensures { outcome result ≡ eval_ext_answer table.now point.now }
{
    test_table::<4>(table, point)?;
    Ok(weigh::value::<Elements>(table, Point::of(point)))
}

// The sum of next[y] table[y].
#[tactic(auto, using(crate::proofs::Widths::words_tested), unfolding(crate::specs::Values::eval_next_base_answer))]
pub fn eval_next_base(table: &[u32], point: &[u32]) -> Result<Element, Refusal>
    ensures { outcome result ≡ eval_next_base_answer table.now point.now }
{
    test_table::<1>(table, point)?;
    Ok(successor_value(table, Point::of(point), table.len() - 1))
}

// The sum of cyclic[y] table[y].
#[tactic(auto, using(crate::proofs::Widths::words_tested), unfolding(crate::specs::Values::eval_cyclic_base_answer))]
pub fn eval_cyclic_base(table: &[u32], point: &[u32]) -> Result<Element, Refusal>
    ensures { outcome result ≡ eval_cyclic_base_answer table.now point.now }
{
    test_table::<1>(table, point)?;
    Ok(successor_value(table, Point::of(point), 0))
}

// The tests of an evaluation; an entry of the table has WIDTH words.
#[tactic(auto, using(table::proofs::Verdicts::tests))]
fn test_table<const WIDTH: usize>(table: &[u32], point: &[u32]) -> Result<(), Refusal>
    requires { 0 < WIDTH }
    ensures { answer result ≡ verdict (table_tests WIDTH table.now point.now) }
{
    table::refuse_if(table.len() % WIDTH != 0, Refusal::Split)?;
    table::refuse_if(table::splits(point), Refusal::Split)?;
    test_value(table.len() / WIDTH, table, point)
}

// The tests of an evaluation after 1; the table has `count` entries.
#[tactic(auto, using(table::proofs::Verdicts::tests))]
fn test_value(count: usize, table: &[u32], point: &[u32]) -> Result<(), Refusal>
    ensures { answer result ≡ verdict (value_tests count table.now point.now) }
{
    table::test_entries(count, point)?;
    table::refuse_if(table::variables(count) != point.len() / 4, Refusal::Lengths)?;
    table::refuse_if(field::unreduced(table), Refusal::Unreduced)?;
    table::refuse_if(field::unreduced(point), Refusal::Unreduced)
}

// Each row's weight goes to the row after it, and the last row's to row `own`.
fn successor_value(table: &[u32], point: Point, own: usize) -> Element
    requires whole { WholeTable 1 point.count table.now }
    requires own { own < length table.now }
    ensures { Holds result
        (own_value_at field own (coordinates point.entry) (λ y. base (get_or table.now y 0))) }
{
    let gained = equality::at_row(point, table.len() - 1).mul_base(table[own]);
    weigh::weigh(&table[1..], point, Element::one()).add(gained)
}
