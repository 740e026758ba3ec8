// A piece of a table, added to its places as a fold's plan has them. The piece's words are the table's from word `taken` on.
//
//     a place gains   scale eq[y - skip] word of row y, over the rows y from `skip` on      `moved`
//              and    scale eq of the last row times the own row's word, where it has one   `own`
#![tactic(auto)]

pub mod few_rows;
mod own;
mod sections;

ghost use Rattle.std.specs.Prelude.{◌≡◌, false, ◌+◌, ◌≤◌, length};
ghost use Rattle.algebra.specs.Words.{unreduced};
ghost use Rattle.field.specs.Field.{p};
ghost use Rattle.point.specs.Points.{coordinates};
ghost use Rattle.plan.specs.Plan.{width, capacity, coordinates_of, fold_of, gained_by};
ghost use Rattle.plan.specs.Sound.{Sound, Takes, Fills};
ghost use Rattle.piece.specs.Against.{Against};

use moved::Piece;
use multilinear::Side;
use plan::Plan;
pub use sections::HELD;
use weigh::blocks::SplitPoint;

// out gains scale weight word at each word's place. It stays a call: copied into a caller that goes line by line, it copies the plan more often.
#[inline(never)]
pub fn add(plan: &Plan, taken: usize, piece: &[u32], out: &mut [u32])
    requires { Takes plan.now taken piece.now out.old }
    ensures { out.new ≡ gained_by plan.now taken piece.now out.old }
{
    let piece = piece_of(plan, taken, piece);
    let side = plan.side;
    piece.add(side, out);
    own::add_own(side, &piece, out);
}

// The same, where what places are summed against was made before: pieces of one plan have the same.
#[inline(never)]
pub fn add_by<const WORDS: usize>(
    plan: &Plan,
    split: SplitPoint<WORDS>,
    taken: usize,
    piece: &[u32],
    out: &mut [u32],
)
    requires takes { Takes plan.now taken piece.now out.old }
    requires against { Against plan.now split }
    ensures { out.new ≡ gained_by plan.now taken piece.now out.old }
{
    let piece = piece_of(plan, taken, piece);
    let side = plan.side;
    piece.add_by(side, split, out);
    own::add_own(side, &piece, out);
}

// A piece of a plan's table, whose rows have c words for each place.
fn piece_of<'a>(plan: &'a Plan, taken: usize, words: &'a [u32]) -> Piece<'a>
    requires sound { Sound plan.now }
    requires within { taken + length words.now ≤ capacity plan.now }
    requires below { unreduced p words.now ≡ false }
    ensures point_words { result.point.words.now ≡ plan.now.coordinates }
    ensures point_count { result.point.count ≡ plan.now.k }
    ensures point { coordinates result.point ≡ coordinates_of plan.now }
    ensures weight { result.weight ≡ plan.now.weight }
    ensures scale { result.scale ≡ plan.now.scale }
    ensures inner { result.inner ≡ width plan.now }
    ensures taken { result.taken ≡ taken }
    ensures words { result.words.now ≡ words.now }
{
    Piece {
        point: plan.point(),
        weight: plan.weight,
        scale: plan.scale,
        inner: plan.width(),
        taken,
        words,
    }
}

// out becomes the fold of the whole table. Two rows or four go by their weights at once; else all goes at once on the prefix side, and
// section by section on the suffix side, so that each is filled while it is in the cache.
pub fn fold(plan: Plan, table: &[u32], out: &mut [u32])
    requires { Fills plan table.now out.old }
    ensures { out.new ≡ fold_of plan table.now }
{
    match plan.k {
        1 => few_rows::by_weights::<2>(&plan, table, out),
        2 => few_rows::by_weights::<4>(&plan, table, out),
        _ => match plan.side {
            Side::Prefix => fold_whole(&plan, table, out),
            Side::Suffix => sections::by_sections(&plan, table, out),
        },
    }
}

// All places at once.
fn fold_whole(plan: &Plan, table: &[u32], out: &mut [u32])
    requires { Fills plan.now table.now out.old }
    ensures { out.new ≡ fold_of plan.now table.now }
{
    table::clear(out);
    add(plan, 0, table, out);
}
