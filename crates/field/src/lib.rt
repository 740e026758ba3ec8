// The extension field of p = 2013265921 by a root X of X^4 = 11.
//
//     c = [c0, c1, c2, c3]   is   c0 + c1 X + c2 X^2 + c3 X^3
//
// Words are below p. The operations ask that of their operands and keep it; `unreduced` is the test.
#![tactic(auto)]

pub mod product;
pub mod sums;
pub mod word;

ghost use Rattle.std.specs.Prelude.{◌≡◌, ◌<◌, slice_index};
ghost use Rattle.algebra.specs.Ring.{Ops, minus};
ghost use Rattle.algebra.specs.Words.{unreduced};
ghost use Rattle.field.specs.Field.{p, Reduced, field, base, at, from_words, Holds, ByWord};

use std::fmt;

// Words below the modulus, the coordinate of 1 first. Contracts say that they are (`Reduced`), and not the type: callers hand in elements of
// any words, to some of which 5 is the answer, and the definitions read elements of any words of a slice. A second type, of reduced elements
// alone, is no plainer: each operation would turn one into the other, and each definition would have both.
#[derive(Clone, Copy, Debug, PartialEq, Eq)]
pub struct Element {
    pub c: [u32; 4],
}

impl Element {
    pub const MODULUS: u32 = 2013265921;

    // X^4.
    pub const FACTOR: u32 = 11;

    #[tactic(auto, using(crate::proofs::Laws::holds, crate::proofs::Laws::zero_law))]
    pub fn zero() -> Self
        ensures { Holds result field.zero }
    {
        Element { c: [0, 0, 0, 0] }
    }

    #[tactic(auto, using(crate::proofs::Laws::holds, crate::proofs::Laws::one_law))]
    pub fn one() -> Self
        ensures { Holds result field.one }
    {
        Element { c: [1, 0, 0, 0] }
    }

    // The base word as an element.
    pub fn from_base(word: u32) -> Self
        requires { word < p }
        ensures { Holds result (base word) }
    {
        Element { c: [word, 0, 0, 0] }
    }

    #[tactic(auto, using(crate::proofs::Laws::word_below))]
    pub fn add(self, other: Element) -> Self
        requires { Reduced self × Reduced other }
        ensures { Holds result (field.add (from_words self) (from_words other)) }
    {
        self.zip_with(other, |a, b| word::add(a, b))
    }

    #[tactic(auto, using(crate::proofs::Laws::word_below))]
    pub fn sub(self, other: Element) -> Self
        requires { Reduced self × Reduced other }
        ensures { Holds result (minus field (from_words self) (from_words other)) }
    {
        self.zip_with(other, |a, b| word::sub(a, b))
    }

    #[tactic(auto, using(crate::proofs::Laws::word_below))]
    pub fn neg(self) -> Self
        requires { Reduced self }
        ensures { Holds result (field.neg (from_words self)) }
    {
        self.map(|a| word::neg(a))
    }

    pub fn double(self) -> Self
        requires { Reduced self }
        ensures { Holds result (field.add (from_words self) (from_words self)) }
    {
        self.add(self)
    }

    // The product, as sixteen lines: `product` has them.
    pub fn mul(self, other: Element) -> Self
        requires { Reduced self × Reduced other }
        ensures { Holds result (field.mul (from_words self) (from_words other)) }
    {
        Element {
            c: [
                product::lines::<0>(self, other, other).coordinate(),
                product::lines::<1>(self, other, other).coordinate(),
                product::lines::<2>(self, other, other).coordinate(),
                product::lines::<3>(self, other, other).coordinate(),
            ],
        }
    }

    // The product with a base word, by four divisions.
    #[tactic(auto, using(crate::proofs::Laws::word_below))]
    pub fn mul_base(self, word: u32) -> Self
        requires { Reduced self × (word < p) }
        ensures { Holds result (field.mul (from_words self) (base word)) }
    {
        self.map(|a| word::mul(a, word))
    }

    // f's answer at each word.
    pub fn map<F: Fn(u32) -> u32>(self, f: F) -> Self
        requires below { Reduced self }
        requires callable { (w : _) → w < p → F.pre f w }
        ensures { ByWord (λ i w. F.post f (at self i) w) result }
    {
        Element {
            c: std::array::from_fn(
                |i|
                    requires { (i < 4) × F.pre f (slice_index self.c i) }
                    ensures { F.post f (slice_index self.c i) result }
                { f(self.c[i]) },
            ),
        }
    }

    // f's answer at each pair of words.
    #[tactic(auto, using(crate::proofs::Mapping::serves_index, crate::proofs::Laws::word_below))]
    fn zip_with<F: Fn(u32, u32) -> u32>(self, other: Element, f: F) -> Self
        requires below { Reduced self × Reduced other }
        requires callable { (v w : _) → v < p → w < p → F.pre f v w }
        ensures { ByWord (λ i w. F.post f (at self i) (at other i) w) result }
    {
        Element {
            c: std::array::from_fn(
                |i|
                    requires { (i < 4) × F.pre f (slice_index self.c i) (slice_index other.c i) }
                    ensures { F.post f (slice_index self.c i) (slice_index other.c i) result }
                { f(self.c[i], other.c[i]) },
            ),
        }
    }
}

// The words of an element, that of 1 first; they are to be below the modulus.
impl From<[u32; 4]> for Element {
    ghost from_gives = { λ words e. e.c ≡ words };

    fn from(words: [u32; 4]) -> Element {
        Element { c: words }
    }
}

// The word of 1 alone where the others are 0, and else all four with a blank between.
impl fmt::Display for Element {
    fn fmt<W: fmt::Write>(&self, f: &mut fmt::Formatter<W>) -> fmt::Result {
        let [c0, c1, c2, c3] = self.c;
        if c1 == 0 && c2 == 0 && c3 == 0 {
            write!(f, "{c0}")
        } else {
            write!(f, "{c0} {c1} {c2} {c3}")
        }
    }
}

// Refusal 5's test: a word of ws is not below the modulus. By the largest word, which a loop of vectors finds with two instructions for four.
pub fn unreduced(ws: &[u32]) -> bool
    ensures { result ≡ unreduced p ws.now }
{
    let largest = ws.iter().fold(0, |most, w| u32::max(most, *w));
    Element::MODULUS <= largest
}
