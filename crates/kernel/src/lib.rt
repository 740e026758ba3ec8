// Weighted words that are added to out, or that it is set to: with one residue a coordinate, or, four long rows and what out is set to, by
// division by 2^32. There are four weights or fewer; of a table of more, rows are added in `places`.
#![tactic(auto)]

pub mod places;
mod residues;
pub mod steps;

ghost use Rattle.std.specs.Prelude.{◌≡◌, false, ◌-◌, ◌*◌, length};
ghost use Rattle.algebra.specs.Words.{unreduced};
ghost use Rattle.field.specs.Field.{p, Reduced};
ghost use Rattle.table.specs.Gained.{Gained};
ghost use Rattle.table.specs.Table.{entries, table_words};
ghost use Rattle.kernel.specs.Kernel.{Groups, Row, Weights, rows_at, row_at, words_at};

use field::Element;
use std::ops::Range;
use steps::Strided;

// The places from which on four rows are long. The weights' sixteen products with 2^32 cost a call what some ten places spare.
const LONG: usize = 16;

// out[from + y] gains the sum of weights[t] words[t n + y] over the N rows t, for each y below n.
#[inline(always)]
pub fn gain_rows<const N: usize>(
    out: &mut [u32],
    from: usize,
    words: &[u32],
    n: usize,
    weights: [Element; N],
)
    requires rows { Groups N from n out.old words.now }
    requires reduced { Weights N weights }
    requires below { unreduced p out.old ≡ false }
    ensures { Gained from n (rows_at N weights.entry n words.now) out.old out.new }
{
    if N == 4 && LONG <= n {
        gain_long_rows(out, from, words, n, weights);
    } else {
        gain_short_rows(out, from, words, n, weights);
    }
}

// `gain_rows` with one division a coordinate. It stays a call: copied into `scatter`, which calls itself for each coordinate, its loop takes
// the registers of what `scatter` does each time.
#[inline(never)]
fn gain_short_rows<const N: usize>(
    out: &mut [u32],
    from: usize,
    words: &[u32],
    n: usize,
    weights: [Element; N],
)
    requires rows { Groups N from n out.old words.now }
    requires reduced { Weights N weights }
    ensures { Gained from n (rows_at N weights.entry n words.now) out.old out.new }
{
    // By number: a turn reads words that stand n apart, and of an element that `chunks_exact_mut` lent only its length is known after the loop.
    for y in 0..n {
        let column = Strided { first: y, apart: n };
        let sum = steps::step(table::get(out, from + y), weights, words, column);
        table::put(out, from + y, sum);
    }
}

// `gain_rows` with no division: the weights are multiplied by 2^32 before, and each sum is divided by it. The compiler makes vectors of
// that, over four places, and none of a division by p. It stays a call too.
#[inline(never)]
fn gain_long_rows<const N: usize>(
    out: &mut [u32],
    from: usize,
    words: &[u32],
    n: usize,
    weights: [Element; N],
)
    requires rows { Groups N from n out.old words.now }
    requires reduced { Weights N weights }
    requires below { unreduced p out.old ≡ false }
    ensures { Gained from n (rows_at N weights.entry n words.now) out.old out.new }
{
    let raised = steps::raised(weights);
    // By number, as `gain_short_rows`.
    for y in 0..n {
        let column = Strided { first: y, apart: n };
        let sum = steps::lowered(raised, words, column);
        table::put(out, from + y, steps::gained(table::get(out, from + y), sum));
    }
}

// out[from + i] gains the sum of weights[t] words[N i + t] over t, for each i below n. `gain_short_rows` differs in where a place's words
// stand alone: two loops of two lines, and one over a closure that names the words is no shorter.
pub fn gain_groups<const N: usize>(
    out: &mut [u32],
    from: usize,
    words: &[u32],
    n: usize,
    weights: [Element; N],
)
    requires groups { Groups N from n out.old words.now }
    requires reduced { Weights N weights }
    ensures { Gained from n (words_at N weights.entry words.now) out.old out.new }
{
    // By number: of an element that `chunks_exact_mut` lent only its length is known after the loop.
    for i in 0..n {
        let group = Strided {
            first: N * i,
            apart: 1,
        };
        let sum = steps::step(table::get(out, from + i), weights, words, group);
        table::put(out, from + i, sum);
    }
}

// out[start + i] gains weight words[i apart], for each i below end - start: one row, whose words stand `apart` from each other.
pub fn gain_row(out: &mut [u32], places: Range<usize>, words: &[u32], apart: usize, weight: Element)
    requires row { Row apart places.start places.end out.old words.now }
    requires reduced { Reduced weight }
    ensures { Gained places.start (places.end - places.start) (row_at weight apart words.now) out.old out.new }
{
    let from = places.start;
    // By number, as `gain_groups`.
    for i in 0..places.end - from {
        let word = Strided {
            first: i * apart,
            apart: 0,
        };
        let sum = steps::step(table::get(out, from + i), [weight], words, word);
        table::put(out, from + i, sum);
    }
}

// out[i] becomes the sum of weights[t] words[N i + t] over t, for each i. It is not read. The weights are multiplied by 2^32
// before, and each sum is divided by it.
pub fn set_groups<const N: usize>(out: &mut [u32], words: &[u32], weights: [Element; N])
    requires groups { Groups N 0 (entries out.old) out.old words.now × (length out.old ≡ 4 * entries out.old) }
    requires reduced { Weights N weights }
    ensures { out.new ≡ table_words (entries out.old) (words_at N weights.entry words.now) }
{
    let raised = steps::raised_apart(weights);
    // By number, as `gain_groups`.
    for i in 0..out.len() / 4 {
        let group = Strided {
            first: N * i,
            apart: 1,
        };
        table::put(out, i, steps::lowered(raised, words, group));
    }
}

// out[i] becomes the sum of weights[t] words[t n + i] over the N rows t, for each of the n elements i. `set_groups` differs in where a
// place's words stand alone: two loops of two lines, as above.
pub fn set_rows<const N: usize>(out: &mut [u32], words: &[u32], weights: [Element; N])
    requires groups { Groups N 0 (entries out.old) out.old words.now × (length out.old ≡ 4 * entries out.old) }
    requires reduced { Weights N weights }
    ensures { out.new ≡ table_words (entries out.old) (rows_at N weights.entry (entries out.old) words.now) }
{
    let raised = steps::raised_apart(weights);
    let n = out.len() / 4;
    // By number, as `gain_short_rows`.
    for i in 0..n {
        let column = Strided { first: i, apart: n };
        table::put(out, i, steps::lowered(raised, words, column));
    }
}
