// The last row stands for the missing ones: the last word of each place is kept while words come, and when no more come each place gains
// that word once for all of its missing rows.
//
//     rows      w w w w        with 7 words of rows of 4: places 0 to 2 lack the rows from 2 on,
//               w w w .        place 3 those from 1 on
//               . . . .
#![tactic(auto)]

ghost use Rattle.std.specs.Prelude.{◌≡◌, ◌+◌, ◌-◌, ◌%◌, ◌<◌, get_or};
ghost use Rattle.algebra.specs.Ring.{Ops};
ghost use Rattle.multilinear.specs.declared.Side.TheVariants.{Prefix};
ghost use Rattle.multilinear.specs.Tails.{tail_at};
ghost use Rattle.field.specs.Field.{field, base, from_words, Holds};
ghost use Rattle.table.specs.Gained.{Gained};
ghost use Rattle.plan.specs.Plan.{width, gained_by};
ghost use Rattle.point.specs.Points.{coordinates};
ghost use Rattle.padding.specs.Last.{kept, kept_on, missing_words, Keeps, Pads};
ghost use Rattle.padding.specs.Inner.{Spreads, Rows};

use field::Element;
use multilinear::{Side, Weight};
use plan::Plan;
use point::{Point, equality};

// Words come from word `taken` on: on the prefix side last keeps the last one of each place. On the other side no row is repeated.
pub fn keep(plan: &Plan, taken: usize, words: &[u32], last: &mut [u32])
    requires { Keeps plan.now last.old }
    ensures { last.new ≡ kept_on plan.now.side (width plan.now) taken words.now last.old }
{
    match plan.side {
        Side::Prefix => keep_row(plan.width(), taken, words, last),
        Side::Suffix => {}
    }
}

// In rows of `inner`.
fn keep_row(inner: usize, taken: usize, words: &[u32], last: &mut [u32])
    requires { Rows inner last.old }
    ensures { last.new ≡ kept inner taken words.now last.old }
{
    // The place is counted on: `(taken + i) % inner` would be a division a word.
    let mut place = taken % inner;
    for word in words {
        last[place] = *word;
        place = following(place, inner);
    }
}

// The place after a place: after the last comes the first.
fn following(place: usize, inner: usize) -> usize
    requires { place < inner }
    ensures { result ≡ (place + 1) % inner }
{
    if place + 1 == inner {
        return 0;
    }
    place + 1
}

// out gains the missing words, where so many came: on the prefix side, once one whole row has come, the last word of each place.
// The plan comes by value: by reference, `foldframes` took 449 to 453 million instructions for a table, and not 445.
pub fn pad(plan: Plan, taken: usize, last: &[u32], out: &mut [u32])
    requires { Pads plan taken last.now out.old }
    ensures { out.new ≡ gained_by plan taken (missing_words plan taken last.now) out.old }
{
    match plan.side {
        Side::Prefix => repeat_row(plan, taken, last, out),
        Side::Suffix => {}
    }
}

// On the prefix side. The places before `part` have a word more than the others.
fn repeat_row(plan: Plan, taken: usize, last: &[u32], out: &mut [u32])
    requires { Pads plan taken last.now out.old × (plan.side ≡ Prefix) }
    ensures { out.new ≡ gained_by plan taken (missing_words plan taken last.now) out.old }
{
    let inner = plan.width();
    if taken < inner {
        return;
    }
    let row = taken / inner;
    let part = taken % inner;
    let point = plan.point();
    let scale = plan.scale;
    let weight = plan.weight;
    spread(last, 0, part, scale.mul(tail(point, weight, row + 1)), out);
    spread(last, part, inner, scale.mul(tail(point, weight, row)), out);
}

// The places from `from` to `to` gain their last word times the weight.
fn spread(last: &[u32], from: usize, to: usize, weight: Element, out: &mut [u32])
    requires { Spreads from to last.now weight out.old }
    ensures { Gained from (to - from) (λ i. field.mul (from_words weight) (base (get_or last.now (from + i) 0)))
        out.old out.new }
{
    // The place is counted: out has four words for each of last, and of what `chunks_exact_mut` lent only its length is known after the loop.
    for (i, word) in last[from..to].iter().enumerate() {
        let place = from + i;
        let gain = weight.mul_base(*word);
        table::put(out, place, table::read(out, place).add(gain));
    }
}

// weight[row] + weight[row + 1] + .. + weight[2^k - 1], from a row on that is not the first: cyclic weights are there the shifted ones.
#[tactic(auto, using(crate::proofs::Weights::none_left))]
fn tail(point: Point, weight: Weight, row: usize) -> Element
    requires { 0 < row }
    ensures { Holds result (tail_at field weight (coordinates point.entry) row) }
{
    if table::rows(point.count) <= row {
        return Element::zero();
    }
    match weight {
        Weight::Plain => equality::from_row(point, row),
        Weight::Shifted | Weight::Cyclic => {
            let sum = equality::from_row(point, row - 1);
            sum.sub(equality::at_row(point, table::rows(point.count) - 1))
        }
        Weight::Next => equality::from_row(point, row - 1),
    }
}
