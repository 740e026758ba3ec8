// Words in rows, scattered over their places: each place gains its words, each by the weight of its row.
#![tactic(auto)]

ghost use Rattle.std.specs.Prelude.{◌≡◌, false, ◌^◌, ◌≤◌};
ghost use Rattle.algebra.specs.Sum.{sum_to};
ghost use Rattle.algebra.specs.Words.{unreduced};
ghost use Rattle.field.specs.Field.{p, field, Reduced};
ghost use Rattle.table.specs.Table.{entries};
ghost use Rattle.table.specs.Gained.{Gained};
ghost use Rattle.kernel.specs.Kernel.{Groups, row_term};
ghost use Rattle.scatter.specs.Scatter.{Scatters, Scattered, whole_rows, Weighs};

use field::Element;
use point::Point;
use point::equality::BitOrder;

// The words of the weights of a block: four for each of its thirty-two rows.
const BLOCK_WORDS: usize = 128;

// The fewest words of a long row. With shorter ones `kernel::places` gains no more than the room for its sums takes.
const LONG: usize = 64;

// The words of the weights of long rows: four for each of up to 256 rows.
const LONG_WORDS: usize = 1024;

// The words stand in rows of as many words as out has elements, from word `at` on. The rows' weights, `weight` times eq of the
// coordinates that are left, come from it coordinate by coordinate:
//
//     weight  ->  weight (1 - z) for the rows of the low half, weight z for those of the high half
//
// and whole rows of the last coordinates go by a table of their weights: long ones of the last eight or so, up to 256 at a time, shorter ones
// of the last five, thirty-two at a time, a block.
pub fn scatter(words: &[u32], at: usize, rest: Point, weight: Element, out: &mut [u32])
    requires { Scatters at rest weight words.now out.old }
    ensures { Scattered at rest.entry weight words.now out.old out.new }
{
    let left = rest.count;
    let inner = out.len() / 4;
    if words.len() == 0 {
        return;
    }
    if left == 0 {
        kernel::gain_rows(out, at, words, words.len(), [weight]);
        return;
    }
    if left == 2 && words.len() == 4 * inner {
        four_rows(words, rest, weight, out);
        return;
    }
    if 5 <= left && left <= 8 && words.len() == table::rows(left) * inner {
        if LONG <= inner {
            long_rows(words, rest, weight, out);
            return;
        }
        if left == 5 {
            block_rows(words, rest, weight, out);
            return;
        }
    }
    let high = weight.mul(rest.read(0));
    let low = weight.sub(high);
    if left == 1 && words.len() == 2 * inner {
        kernel::gain_rows(out, 0, words, inner, [low, high]);
        return;
    }
    let half = table::rows(left - 1) * inner;
    let at0 = usize::min(at, half);
    let cut = usize::min(words.len(), half - at0);
    let others = rest.after(1);
    scatter(&words[..cut], at0, others, low, out);
    scatter(&words[cut..], at - at0, others, high, out);
}

// Four whole rows, with one reduction a place and coordinate.
fn four_rows(words: &[u32], rest: Point, weight: Element, out: &mut [u32])
    requires two { (rest.count ≡ 2) × Reduced weight }
    requires rows { Groups 4 0 (entries out.old) out.old words.now × (unreduced p out.old ≡ false) }
    ensures { Gained 0 (entries out.old)
        (whole_rows rest.entry weight (entries out.old) words.now)
        out.old out.new }
{
    let z = rest.read(1);
    let high = weight.mul(rest.read(0));
    let low = weight.sub(high);
    let w1 = low.mul(z);
    let w3 = high.mul(z);
    let weights = [low.sub(w1), w1, high.sub(w3), w3];
    kernel::gain_rows(out, 0, words, out.len() / 4, weights);
}

// Long whole rows of five to eight coordinates, by the table of their weights times 2^64. It stays a call: its room is in no frame of `scatter`.
#[inline(never)]
fn long_rows(words: &[u32], rest: Point, weight: Element, out: &mut [u32])
    requires some { (5 ≤ rest.count) × (rest.count ≤ 8) × Reduced weight }
    requires rows { Groups (2 ^ rest.count) 0 (entries out.old) out.old words.now × (unreduced p out.old ≡ false) }
    ensures { Gained 0 (entries out.old)
        (whole_rows rest.entry weight (entries out.old) words.now)
        out.old out.new }
{
    let mut room = [0u32; LONG_WORDS];
    let weights = &mut room[..4 * table::rows(rest.count)];
    let raised = lowering::raise(lowering::raise(weight));
    point::equality::fill(weights, rest, BitOrder::Msb, raised);
    kernel::places::gain_table(out, words, weights);
}

// A block of thirty-two whole rows, by the table of their weights. It stays a call too: copied into `scatter`, its loop makes that so long that
// each call clears the room of what it may pass on.
#[inline(never)]
fn block_rows(words: &[u32], rest: Point, weight: Element, out: &mut [u32])
    requires five { (rest.count ≡ 5) × Reduced weight }
    requires rows { Groups 32 0 (entries out.old) out.old words.now × (unreduced p out.old ≡ false) }
    ensures { Gained 0 (entries out.old)
        (whole_rows rest.entry weight (entries out.old) words.now)
        out.old out.new }
{
    let mut weights = [0u32; BLOCK_WORDS];
    point::equality::fill(&mut weights, rest, BitOrder::Msb, weight);
    by_table(words, &weights, out);
}

// Thirty-two rows, each by its element of the table, four at a time.
fn by_table(words: &[u32], weights: &[u32], out: &mut [u32])
    requires { Weighs weights.now words.now out.old }
    ensures { Gained 0 (entries out.old)
        (λ i. sum_to field 32 (row_term weights.now (entries out.old) words.now i))
        out.old out.new }
{
    let inner = out.len() / 4;
    // By number: a turn takes four elements of the table, and four rows. `chunks_exact(4 * inner)` asks that inner is not 0: a field more
    // of `Weighs`, and a clause more of `block_rows`, which gives it.
    for j in 0..8 {
        let y = 4 * j;
        let start = y * inner;
        let four = [
            table::read(weights, y),
            table::read(weights, y + 1),
            table::read(weights, y + 2),
            table::read(weights, y + 3),
        ];
        kernel::gain_rows(out, 0, &words[start..], inner, four);
    }
}
