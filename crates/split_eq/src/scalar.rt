// The weights themselves: the last row's, and all of them added to a table.
ghost use Rattle.std.specs.Prelude.{◌≡◌};
ghost use Rattle.table.specs.Refusals.{answer, outcome};
ghost use Rattle.split_tests.specs.SplitTests.{accumulate_answer};
ghost use Rattle.split_eq.specs.Split.{last_answer, last_work, accumulate_work, accumulate_out};

use field::Element;
use point::Point;
use table::Refusal;

// scale eq[2^k - 1], the last row's.
#[tactic(auto, using(table::proofs::Outcomes::outcomes), unfolding(crate::specs::Split::last_answer, crate::specs::Split::last_work))]
pub fn last_scalar(point: &[u32], scale: Element, work: &mut [u32]) -> Result<Element, Refusal>
    ensures result_value { outcome result ≡ last_answer point.now scale work.old }
    ensures work_after { work.new ≡ last_work point.now scale work.old }
{
    split_tests::of_last(point, scale, work)?;
    let point = Point::of(point);
    work::fill(work, point, scale);
    Ok(work::weight(work, point.count, table::rows(point.count) - 1))
}

// out[y] gains scale given eq[y].
#[tactic(auto, using(table::proofs::Outcomes::outcomes), unfolding(crate::specs::Split::accumulate_work, crate::specs::Split::accumulate_out))]
pub fn accumulate_into(
    point: &[u32],
    scale: Element,
    given: Element,
    work: &mut [u32],
    out: &mut [u32],
) -> Result<(), Refusal>
    ensures result_value { answer result
        ≡ accumulate_answer point.now scale given work.old out.old }
    ensures work_after { work.new
        ≡ accumulate_work point.now scale given work.old out.old }
    ensures out_after { out.new
        ≡ accumulate_out point.now scale given work.old out.old }
{
    split_tests::of_accumulate(point, scale, given, work, out)?;
    let point = Point::of(point);
    work::fill(work, point, scale);
    work::accumulate(work, point.count, given, out);
    Ok(())
}
