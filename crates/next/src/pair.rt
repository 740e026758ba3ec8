// Two points that were tested together: as many coordinates in one as in the other.
ghost use Rattle.std.specs.Prelude.{◌≡◌, IfOk};
ghost use Rattle.table.specs.Table.{point_of};
ghost use Rattle.table.specs.Refusals.{answer, verdict};
ghost use Rattle.point.specs.Points.{coordinates};
ghost use Rattle.next.specs.Next.{pair_tests};

use point::Point;
use table::Refusal;

#[derive(Clone, Copy)]
pub struct Pair<'a> {
    pub point: Point<'a>,
    pub other: Point<'a>,
    pub ghost counts: { point.count ≡ other.count },
}

impl<'a> Pair<'a> {
    // Both points of words, or what the words are refused for.
    pub fn of(point: &'a [u32], other: &'a [u32]) -> Result<Pair<'a>, Refusal>
        ensures number { answer result ≡ verdict (pair_tests point.now other.now) }
        ensures points { IfOk result (λ pair. (coordinates pair.point ≡ point_of point.now)
            × (coordinates pair.other ≡ point_of other.now)) }
    {
        test(point, other)?;
        Ok(Pair {
            point: Point::of(point),
            other: Point::of(other),
        })
    }
}

#[tactic(auto, using(table::proofs::Verdicts::tests))]
fn test(point: &[u32], other: &[u32]) -> Result<(), Refusal>
    ensures { answer result ≡ verdict (pair_tests point.now other.now) }
{
    table::refuse_if(table::splits(point), Refusal::Split)?;
    table::refuse_if(table::splits(other), Refusal::Split)?;
    table::refuse_if(table::too_many(point), Refusal::TooMany)?;
    table::refuse_if(table::too_many(other), Refusal::TooMany)?;
    table::refuse_if(table::lengths_differ(point, other), Refusal::Lengths)?;
    table::refuse_if(field::unreduced(point), Refusal::Unreduced)?;
    table::refuse_if(field::unreduced(other), Refusal::Unreduced)
}
