// Words in short rows, scattered over their places: the last coordinates are put off. Rows are taken together, as many as have up to a
// thousand words, and scattered by the coordinates before, into a sum for each word of them. Then the sums are folded by the last
// coordinates, once however many the words are, and each place gains what is left.
//
//     words    r0 r1 r2 r3 | r4 r5 r6 r7 | ..      rows, four together: two coordinates are put off
//     sums     s0 s1 s2 s3                         s0 is r0, r4, .. by eq of the coordinates before, s1 is r1, r5, .., and so on
//     out                                          gains s0, .. s3 by eq of the last two
#![tactic(auto)]

ghost use Rattle.std.specs.Prelude.{◌≡◌, ◌*◌, ◌^◌, ◌≤◌, ◌<◌};
ghost use Rattle.algebra.specs.Ring.{Ops};
ghost use Rattle.multilinear.specs.declared.Side.TheVariants.{Prefix};
ghost use Rattle.multilinear.specs.declared.Weight.TheVariants.{Plain};
ghost use Rattle.multilinear.specs.Folds.{fold_at};
ghost use Rattle.field.specs.Field.{field, from_words};
ghost use Rattle.table.specs.Table.{element_at, entries};
ghost use Rattle.table.specs.Gained.{Gained};
ghost use Rattle.point.specs.Points.{coordinates};
ghost use Rattle.scatter.specs.Scatter.{Scatters, Scattered};
ghost use Rattle.short_rows.specs.ShortRows.{most_sums, PutOff, Rows, Halves, Front, joined};

use field::Element;
use multiplier::Multiplier;
use point::Point;

// The most words of a short row: of longer ones the weights take little beside the words.
const SHORT: usize = 256;

// With fewer words a place none is put off: to clear the room would take longer.
const FEW: usize = 64;

// The most sums.
const MOST_SUMS: usize = 1024;

// The words of so many elements, and of the sums of a piece of up to 4,096 words, as the folds of bytes have them: their calls take less room.
const SUM_WORDS: usize = 4096;

const FEW_SUM_WORDS: usize = 256;

// As `scatter::scatter`.
pub fn scatter(words: &[u32], at: usize, rest: Point, weight: Element, out: &mut [u32])
    requires { Scatters at rest weight words.now out.old }
    ensures { Scattered at rest.entry weight words.now out.old out.new }
{
    let late = put_off(out.len() / 4, words.len(), rest.count);
    if late == 0 {
        scatter::scatter(words, at, rest, weight, out);
        return;
    }
    if 4 * (table::rows(late) * (out.len() / 4)) <= FEW_SUM_WORDS {
        by_sums::<FEW_SUM_WORDS>(words, at, rest, late, weight, out);
    } else {
        by_sums::<SUM_WORDS>(words, at, rest, late, weight, out);
    }
}

// How many of so many coordinates are put off: none where rows are long or words few. One more halves what the weights of the rows take,
// and doubles the sums: that pays while the sums' square is below half of the words.
fn put_off(inner: usize, words: usize, count: usize) -> usize
    ensures { PutOff inner count result }
{
    if SHORT < inner || words < FEW * inner {
        return 0;
    }
    let mut sums = inner;
    let mut late = 0;
    while late < count && 2 * sums <= MOST_SUMS && 2 * sums * sums <= words {
        sums *= 2;
        late += 1;
    }
    late
}

// The last `late` coordinates put off. It stays a call: its room is in no frame of `scatter`, which may go another way.
#[inline(never)]
fn by_sums<const WORDS: usize>(
    words: &[u32],
    at: usize,
    rest: Point,
    late: usize,
    weight: Element,
    out: &mut [u32],
)
    requires rows { Scatters at rest weight words.now out.old }
    requires late { PutOff (entries out.old) rest.count late × (0 < late) }
    requires room { (4 * (2 ^ late * entries out.old) ≤ WORDS) × (WORDS ≤ 4 * most_sums) }
    ensures { Scattered at rest.entry weight words.now out.old out.new }
{
    let early = rest.count - late;
    let mut room = [0u32; WORDS];
    let sums = &mut room[..4 * (table::rows(late) * (out.len() / 4))];
    scatter::scatter(words, at, rest.first(early), weight, sums);
    add_rows(sums, rest.after(early), out);
}

// out gains the rows of sums, each by eq of the row: coordinate by coordinate the second half of the rows comes to the first.
fn add_rows(sums: &mut [u32], last: Point, out: &mut [u32])
    requires { Rows last sums.old out.old }
    ensures { Gained 0 (entries out.old)
        (fold_at field Prefix Plain (entries out.old) (coordinates last.entry) field.one (element_at sums.old))
        out.old out.new }
{
    let inner = out.len() / 4;
    // By number: a turn takes a coordinate, and the count of those after it.
    for j in 0..last.count {
        let half = table::rows(last.count - 1 - j) * inner;
        join_halves(sums, half, last.read(j));
    }
    add(sums, out);
}

// Two halves of elements by a coordinate:
//
//     [ s | t ]  ->  [ s + (t - s) z | t ]
fn join_halves(sums: &mut [u32], half: usize, z: Element)
    requires { Halves half z sums.old }
    ensures { Gained 0 half (joined (element_at sums.old) half (from_words z)) sums.old sums.new }
{
    let m = Multiplier::new(z);
    // By number: a turn takes an element of each half.
    for i in 0..half {
        let low = table::read(sums, i);
        let high = table::read(sums, half + i);
        table::put(sums, i, m.plus(low, high.sub(low)));
    }
}

// out gains the elements at the front.
fn add(sums: &[u32], out: &mut [u32])
    requires { Front sums.now out.old }
    ensures { Gained 0 (entries out.old) (element_at sums.now) out.old out.new }
{
    // By number: of an element that `chunks_exact_mut` lent only its length is known after the loop.
    for i in 0..out.len() / 4 {
        let sum = table::read(out, i).add(table::read(sums, i));
        table::put(out, i, sum);
    }
}
