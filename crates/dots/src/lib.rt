// Sums of products, with few divisions.
#![tactic(auto)]

pub mod halves;
mod powers;
mod products;
mod quarters;
pub mod spread;

ghost use Rattle.std.specs.Prelude.{◌≡◌, false, ◌+◌, ◌/◌, ◌%◌, ◌^◌, ◌≤◌, ◌<◌, length, get_or, slice_index};
ghost use Rattle.algebra.specs.Ring.{Ops};
ghost use Rattle.algebra.specs.Sum.{sum_to};
ghost use Rattle.algebra.specs.Words.{unreduced};
ghost use Rattle.field.specs.Field.{p, field, base, Holds};
ghost use Rattle.table.specs.Table.{element_at};
ghost use Rattle.dots.specs.Dots.{Dots, Pairs, Spread};
ghost use Rattle.dots.specs.Inner.{Room, settled, value, Within, most_gains, at};

use field::{Element, word};
use halves::Halves;
use quarters::Span;

// The most words whose products fit a u64 all together.
pub const FEW: usize = 4;

// A table of weights, of four words each, and its words with each coordinate on its own: coordinate c of weight y at c n + y, of n weights.
#[derive(Clone, Copy)]
pub struct Block<'a, const WORDS: usize> {
    pub table: &'a [u32],
    pub spread: &'a [u64],
    pub ghost same: { Spread WORDS table.now spread.now },
}

impl<'a, const WORDS: usize> Block<'a, WORDS> {
    // The sum of weight from + y times words[y].
    pub fn dot(&self, from: usize, words: &[u32]) -> Element
        requires there { from + length words.now ≤ WORDS / 4 }
        requires below { unreduced p words.now ≡ false }
        ensures { Holds result (sum_to field (length words.now)
            (λ y. field.mul (element_at self.now.table.now (from + y)) (base (get_or words.now y 0)))) }
    {
        if words.len() <= FEW {
            let start = 4 * from;
            return dot_few(&self.table[start..start + 4 * words.len()], words);
        }
        let span = Span::<WORDS> {
            spread: self.spread,
            from,
            words,
        };
        let q = words.len() / 4;
        let fours = span.sums::<4>(halves::none(), 0, q);
        let all = span.sums::<1>(fours, 4 * q, words.len() % 4);
        settle(all)
    }
}

// The sum of weights[y] words[y], of at most four words: the products of a coordinate fit a u64, and are divided once.
pub fn dot_few(weights: &[u32], words: &[u32]) -> Element
    requires { Dots weights.now words.now × (length words.now ≤ 4) }
    ensures { Holds result (sum_to field (length words.now)
        (λ y. field.mul (element_at weights.now y) (base (get_or words.now y 0)))) }
{
    let mut sums = [0u64; 4];
    // By number: `gains` takes a place in both slices.
    for i in 0..words.len() {
        let gains = products::gains(weights, words, i);
        let more = std::array::from_fn(
            |k|
                requires { (k < 4) × (slice_index sums k + slice_index gains k < 2 ^ 64) }
                ensures { result ≡ slice_index sums k + slice_index gains k }
            { sums[k] + gains[k] },
        );
        sums = more;
    }
    Element {
        c: std::array::from_fn(
            |k|
                requires { k < 4 }
                ensures { result ≡ slice_index sums k % p }
            { word::residue(sums[k]) },
        ),
    }
}

// The sum of weights[y] entries[y] over the entries of a table of elements, divided at the end alone. Not one with `dot`: a product of two
// elements gains seven sums (`powers`), and one by a word four.
pub fn dot_ext(weights: &[u32], entries: &[u32]) -> Element
    requires { Pairs (length entries.now / 4) weights.now entries.now }
    ensures { Holds result (sum_to field (length entries.now / 4)
        (λ y. field.mul (element_at weights.now y) (element_at entries.now y))) }
{
    let mut sums = halves::none();
    // By number: `table::read` takes a place, here of both slices.
    for y in 0..entries.len() / 4 {
        let x = table::read(weights, y);
        let more = powers::gain(sums, x, table::read(entries, y));
        sums = more;
    }
    powers::settle(sums)
}

// The element of the sums' residues.
#[tactic(auto, unfolding(crate::specs::Inner::settled))]
fn settle(sums: [Halves; 4]) -> Element
    requires { Room 4 sums }
    ensures { result ≡ settled sums }
{
    Element {
        c: std::array::from_fn(
            |k|
                requires { (k < 4) × Within most_gains (at sums k) }
                ensures { result ≡ value (at sums k) % p }
            { sums[k].settle() },
        ),
    }
}
