// Rows by a table of their weights, added to out: the sums of a block of places stand in one array over all rows, and each place is divided
// once. For each of the four coordinates the array has two runs, of the sums modulo 2^64 and of their high halves (`dots::halves`), so that the
// compiler makes vectors over places:
//
//     all 0 | hi 0 | all 1 | hi 1 | .. | hi 3
ghost use Rattle.std.specs.Prelude.{◌≡◌, false, ◌+◌, ◌-◌, ◌*◌, ◌/◌, ◌<◌, ◌≤◌, length};
ghost use Rattle.algebra.specs.Words.{unreduced};
ghost use Rattle.field.specs.Field.{p, Holds};
ghost use Rattle.table.specs.Table.{entries};
ghost use Rattle.table.specs.Gained.{Gained};
ghost use Rattle.dots.specs.Inner.{Within, most_gains};
ghost use Rattle.kernel.specs.Kernel.{Weights, Tabled, row_sum};
ghost use Rattle.kernel.specs.Inner.{There, word_at, products, block, cell, GrownCell, GrownPlace, GrownPlaces, Open, Space, Columns, Rows, Totals, Cleared, four_products, brought};

use crate::steps::{self, Strided};
use dots::halves::Halves;
use field::Element;
use std::ops::Range;

// The places of a block.
const BLOCK: usize = 256;

// How far the runs are apart: not by a power of two, or they would share lines of the first cache.
const STRIDE: usize = BLOCK + 2;

const ROOM: usize = 8 * STRIDE;

// out[i] gains the sum of table[y] words[y n + i] over the rows y, divided by 2^64: out has n elements, and the rows are as many as the
// table has weights, a multiple of four. The weights are multiplied by 2^64 before. It stays a call: its sums are in no frame of `scatter`.
#[inline(never)]
pub fn gain_table(out: &mut [u32], words: &[u32], table: &[u32])
    requires { Tabled table.now words.now out.old }
    ensures { Gained 0 (entries out.old) (row_sum table.now (entries out.old) words.now) out.old out.new }
{
    let n = out.len() / 4;
    let mut from = 0;
    while from < n {
        let end = usize::min(from + BLOCK, n);
        gain_places(out, from..end, words, table);
        from = end;
    }
}

// The same for a block of places alone.
fn gain_places(out: &mut [u32], places: Range<usize>, words: &[u32], table: &[u32])
    requires rows { Tabled table.now words.now out.old }
    requires block { (places.start ≤ places.end) × (places.end ≤ entries out.old) × (places.end - places.start ≤ block) }
    ensures { Gained places.start (places.end - places.start)
        (λ i. row_sum table.now (entries out.old) words.now (places.start + i))
        out.old out.new }
{
    let from = places.start;
    let count = places.end - from;
    let mut sums = [0u64; ROOM];
    add_rows(&mut sums, count, &words[from..], out.len() / 4, table);
    settle(&sums, out, from, count);
}

// The sums over all rows of `count` places, the first words of the rows.
fn add_rows(sums: &mut [u64; ROOM], count: usize, words: &[u32], n: usize, table: &[u32])
    requires rows { Rows count n words.now table.now }
    requires none { Cleared sums.old }
    ensures { Totals count n words.now table.now (length table.now / 16) sums.new }
{
    // By number: a turn takes four elements of the table, and four rows.
    for j in 0..table.len() / 16 {
        let y = 4 * j;
        let start = y * n;
        let four = [
            table::get(table, y),
            table::get(table, y + 1),
            table::get(table, y + 2),
            table::get(table, y + 3),
        ];
        add_four(sums, count, &words[start..], n, four);
    }
}

// The sums of `count` places with the products of four rows.
fn add_four(sums: &mut [u64; ROOM], count: usize, words: &[u32], n: usize, weights: [Element; 4])
    requires weights { Weights 4 weights }
    requires words { Columns count n words.now }
    requires room { Space count sums.old }
    ensures { GrownPlaces count (four_products weights n words.now) sums.old sums.new }
{
    // By number: a turn reads words that stand n apart, and sums that stand a run apart.
    for i in 0..count {
        let column = Strided { first: i, apart: n };
        add_place(sums, i, words, column, weights);
    }
}

// The sums of one place, coordinate by coordinate.
fn add_place(sums: &mut [u64; ROOM], i: usize, words: &[u32], at: Strided, weights: [Element; 4])
    requires weights { Weights 4 weights }
    requires words { There 4 words.now at }
    requires room { Open i sums.old }
    ensures { GrownPlace 4 i (λ k. products weights k (word_at words.now at) 4) sums.old sums.new }
{
    for k in 0..4 {
        raise(sums, i, k, steps::products(0, weights, words, at, k));
    }
}

// The sum of coordinate k of place i with x.
fn raise(sums: &mut [u64; ROOM], i: usize, k: usize, x: u64)
    requires place { (i < block) × (k < 4) }
    requires room { Within most_gains (cell sums.old k i) }
    ensures { GrownCell k i x sums.old sums.new }
{
    let h = at(sums, i, k).gain(x);
    let a = 2 * STRIDE * k + i;
    sums[a] = h.all;
    sums[a + STRIDE] = h.hi;
}

// The sum of coordinate k of place i.
#[tactic(auto, unfolding(crate::specs::Inner::cell))]
fn at(sums: &[u64; ROOM], i: usize, k: usize) -> Halves
    requires { (i < block) × (k < 4) }
    ensures { result ≡ cell sums.now k i }
{
    let a = 2 * STRIDE * k + i;
    Halves {
        all: sums[a],
        hi: sums[a + STRIDE],
    }
}

// out[from + i] gains what place i of the sums brings.
fn settle(sums: &[u64; ROOM], out: &mut [u32], from: usize, count: usize)
    requires room { Space count sums.now }
    requires there { 4 * (from + count) ≤ length out.old }
    requires below { unreduced p out.old ≡ false }
    ensures { Gained from count (brought sums.now) out.old out.new }
{
    // By number: of an element that `chunks_exact_mut` lent only its length is known after the loop.
    for i in 0..count {
        let sum = lowered(sums, i);
        table::put(out, from + i, steps::gained(table::get(out, from + i), sum));
    }
}

// The element of place i.
fn lowered(sums: &[u64; ROOM], i: usize) -> Element
    requires { Open i sums.now }
    ensures { Holds result (brought sums.now i) }
{
    // Four lines, as in `steps::step`.
    Element {
        c: [
            at(sums, i, 0).lowered(),
            at(sums, i, 1).lowered(),
            at(sums, i, 2).lowered(),
            at(sums, i, 3).lowered(),
        ],
    }
}
