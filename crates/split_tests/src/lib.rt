// The tests of the split folds, the values with a scale and the weights, each list in its order; the first that holds is given. The
// parameters are those of document 01's operations, in their order.
#![tactic(auto, using(table::proofs::Verdicts::tests))]

ghost use Rattle.std.specs.Prelude.{◌≡◌};
ghost use Rattle.table.specs.Refusals.{answer, verdict};
ghost use Rattle.split_tests.specs.SplitTests.{fold_answer, value_tests, base_answer, ext_answer, last_tests, accumulate_answer};
ghost use Rattle.split_tests.specs.Inner.{word_tests};

use field::Element;
use table::Refusal;

// Of a split fold: 1, 2, 3, 4 (also k above n, work, out), 5.
#[tactic(auto, using(table::proofs::Verdicts::tests), unfolding(crate::specs::SplitTests::fold_answer))]
pub fn of_fold(
    table: &[u32],
    point: &[u32],
    scale: Element,
    work: &[u32],
    out: &[u32],
) -> Result<(), Refusal>
    ensures { answer result
        ≡ fold_answer table.now point.now scale work.now out.now }
{
    let n = table::variables(table.len());
    let k = point.len() / 4;
    table::refuse_if(table::splits(point), Refusal::Split)?;
    table::refuse_if(table::splits(work), Refusal::Split)?;
    table::refuse_if(table::splits(out), Refusal::Split)?;
    table::test_entries(table.len(), point)?;
    table::refuse_if(n < k, Refusal::Lengths)?;
    table::refuse_if(work::differs(work, k), Refusal::Lengths)?;
    table::refuse_if(
        table::rows_differ(out, n.saturating_sub(k)),
        Refusal::Lengths,
    )?;
    words(table, point, scale)
}

// Of the value of a table of base words: 1, 2, 3, 4 (also work), 5.
#[tactic(auto, using(table::proofs::Verdicts::tests), unfolding(crate::specs::SplitTests::base_answer))]
pub fn of_base(table: &[u32], point: &[u32], scale: Element, work: &[u32]) -> Result<(), Refusal>
    ensures { answer result ≡ base_answer table.now point.now scale work.now }
{
    table::refuse_if(table::splits(point), Refusal::Split)?;
    table::refuse_if(table::splits(work), Refusal::Split)?;
    value(table.len(), table, point, scale, work)
}

// Of the value of a table of elements: a 1 more, of the table. Each has a list of its own in its contract, so a function by a width, as
// `test_table` of `poly::value`, would stand below both, with a third list and a lemma that joins it to that of `of_base`.
#[tactic(auto, using(table::proofs::Verdicts::tests), unfolding(crate::specs::SplitTests::ext_answer))]
pub fn of_ext(table: &[u32], point: &[u32], scale: Element, work: &[u32]) -> Result<(), Refusal>
    ensures { answer result ≡ ext_answer table.now point.now scale work.now }
{
    table::refuse_if(table::splits(table), Refusal::Split)?;
    table::refuse_if(table::splits(point), Refusal::Split)?;
    table::refuse_if(table::splits(work), Refusal::Split)?;
    value(table.len() / 4, table, point, scale, work)
}

// Of `last_scalar`: 1, 3, 4 (work), 5.
pub fn of_last(point: &[u32], scale: Element, work: &[u32]) -> Result<(), Refusal>
    ensures { answer result ≡ verdict (last_tests point.now scale work.now) }
{
    table::refuse_if(table::splits(point), Refusal::Split)?;
    table::refuse_if(table::splits(work), Refusal::Split)?;
    table::refuse_if(table::too_many(point), Refusal::TooMany)?;
    table::refuse_if(work::differs(work, point.len() / 4), Refusal::Lengths)?;
    table::refuse_if(field::unreduced(point), Refusal::Unreduced)?;
    table::refuse_if(field::unreduced(&scale.c), Refusal::Unreduced)
}

// Of `accumulate_into`: 1, 2, 3, 4 (also work), 5; out is the table, and both scales are input.
#[tactic(auto, using(table::proofs::Verdicts::tests), unfolding(crate::specs::SplitTests::accumulate_answer))]
pub fn of_accumulate(
    point: &[u32],
    scale: Element,
    given: Element,
    work: &[u32],
    out: &[u32],
) -> Result<(), Refusal>
    ensures { answer result
        ≡ accumulate_answer point.now scale given work.now out.now }
{
    table::refuse_if(table::splits(point), Refusal::Split)?;
    table::refuse_if(table::splits(work), Refusal::Split)?;
    table::refuse_if(table::splits(out), Refusal::Split)?;
    value(out.len() / 4, out, point, scale, work)?;
    table::refuse_if(field::unreduced(&given.c), Refusal::Unreduced)
}

// 2, 3, 4, 5 of a table of `count` entries and a point of as many coordinates as it has variables.
fn value(
    count: usize,
    table: &[u32],
    point: &[u32],
    scale: Element,
    work: &[u32],
) -> Result<(), Refusal>
    ensures { answer result ≡ verdict (value_tests count table.now point.now scale work.now) }
{
    let k = point.len() / 4;
    table::test_entries(count, point)?;
    table::refuse_if(table::variables(count) != k, Refusal::Lengths)?;
    table::refuse_if(work::differs(work, k), Refusal::Lengths)?;
    words(table, point, scale)
}

// 5, of a table, a point and a scale.
fn words(table: &[u32], point: &[u32], scale: Element) -> Result<(), Refusal>
    ensures { answer result ≡ verdict (word_tests table.now point.now scale) }
{
    table::refuse_if(field::unreduced(table), Refusal::Unreduced)?;
    table::refuse_if(field::unreduced(point), Refusal::Unreduced)?;
    table::refuse_if(field::unreduced(&scale.c), Refusal::Unreduced)
}
