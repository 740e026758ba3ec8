// The products of weights and words, a quarter of the words apart, before they are divided: a form of which the compiler makes vectors.
ghost use Rattle.std.specs.Prelude.{◌≡◌, ◌+◌, ◌-◌, ◌*◌, ◌<◌, ◌≤◌, length, slice_index};
ghost use Rattle.field.specs.Field.{p};
ghost use Rattle.dots.specs.Spans.{Spans};

use crate::halves::{self, Halves};
use field::word;

// Words, and the weights for them: those from weight `from` on, of a spread table of WORDS words.
#[derive(Clone, Copy)]
pub struct Span<'a, const WORDS: usize> {
    pub spread: &'a [u64],
    pub from: usize,
    pub words: &'a [u32],
    pub ghost spans: { Spans WORDS spread.now from words.now },
}

impl<'a, const WORDS: usize> Span<'a, WORDS> {
    ghost use Rattle.dots.specs.Inner.{Spanned, Apart, EachApart, apart, products};

    // The four coordinates' sums over M parts of q words each, from word `start` on, from those over the words before.
    pub fn sums<const M: usize>(self, before: [Halves; 4], start: usize, q: usize) -> [Halves; 4]
        requires parts { (0 < M) × (M ≤ 4) }
        requires there { start + M * q ≤ length self.words.now }
        requires spanned { Spanned (products self) start before }
        ensures { Spanned (products self.entry) (start + M * q) result }
    {
        let mut all = before;
        for j in 0..q {
            let more = halves::gain(all, self.gains::<M>(start + j, q));
            all = more;
        }
        all
    }

    // What each coordinate gains by word i and those q apart from it, M words in all.
    fn gains<const M: usize>(self, i: usize, q: usize) -> [u64; 4]
        requires few { M ≤ 4 }
        requires there { Apart M q i (length self.words.now) }
        ensures { EachApart (products self.entry) M q i result }
    {
        std::array::from_fn(
            |k|
                requires { ((M ≤ 4) × (k < 4)) × Apart M q i (length self.words.now) }
                ensures { result ≡ apart (products self.entry k) q i M }
            { self.gain::<M>(i, q, k) },
        )
    }

    // The same of coordinate k: four products fit a u64.
    fn gain<const M: usize>(self, i: usize, q: usize, k: usize) -> u64
        requires few { (M ≤ 4) × (k < 4) }
        requires there { Apart M q i (length self.words.now) }
        ensures { result ≡ apart (products self.entry k) q i M }
    {
        let at = k * (WORDS / 4) + self.from;
        let mut sum = 0u64;
        for t in 0..M {
            sum += product(self.spread[at + (i + q * t)], self.words[i + q * t]);
        }
        sum
    }
}

// w times x. The remainder costs nothing, and tells the compiler that w has 32 bits.
fn product(w: u64, x: u32) -> u64
    requires { (w < p) × (x < p) }
    ensures { (result ≡ w * x) × (result ≤ (p - 1) * (p - 1)) }
{
    w % word::UNIT * (x as u64)
}
