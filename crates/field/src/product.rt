// The product of two elements, as sixteen lines: one for each pair of powers of X, by the rule X^4 = FACTOR. A line
//
//     .line::<2, 3>(x, y, FACTOR, X1)
//
// says that X^2 X^3 = FACTOR X^1, and takes x's word at X^2 times y's word at X^3 to the coordinate of X^1. The contract of `line` asks that
// the line is so, and the prover asks it of each of the sixteen. In `lines` they stand by the power that they give, each time for the powers
// X^0, X^1, X^2 and X^3 of x.
//
// What becomes of a line's product: of the four lines that give a power, the products with factor 1 make one sum and those with FACTOR
// another (`Sums`). A u64 holds all four. `coordinate` adds the first sum and FACTOR times the second, and divides by p.
//
// In a line with FACTOR `back` stands for y. For a product it is y. Where y is a factor of many products it may be y times FACTOR, made
// once, and a coordinate is then the sum of both sums (`multiplier`).
ghost use Rattle.std.specs.Prelude.{◌≡◌, ◌+◌, ◌-◌, ◌*◌, ◌%◌, ◌<◌, ◌≤◌};
ghost use Rattle.field.specs.Field.{p, factor, at, Reduced};
ghost use Rattle.field.specs.Product.{ProductOfPowers, Lined, Gathered};

use crate::sums::Sums;
use crate::{Element, word};

// The powers that a line gives.
const X0: usize = 0;

const X1: usize = 1;

const X2: usize = 2;

const X3: usize = 3;

// The factors of lines.
const ONE: u32 = 1;

const FACTOR: u32 = Element::FACTOR;

// The lines that give X^K.
#[tactic(auto, using(crate::proofs::Lining::line_once, crate::proofs::Lining::line_back))]
pub fn lines<const K: usize>(x: Element, y: Element, back: Element) -> Sums
    requires power { K < 4 }
    requires below { Reduced x × Reduced y × Reduced back }
    ensures { Gathered x y back K result }
{
    let none = Sums { once: 0, back: 0 };
    match K {
        X0 => none
            .line::<0, 0>(x, y, ONE, X0)
            .line::<1, 3>(x, back, FACTOR, X0)
            .line::<2, 2>(x, back, FACTOR, X0)
            .line::<3, 1>(x, back, FACTOR, X0),
        X1 => none
            .line::<0, 1>(x, y, ONE, X1)
            .line::<1, 0>(x, y, ONE, X1)
            .line::<2, 3>(x, back, FACTOR, X1)
            .line::<3, 2>(x, back, FACTOR, X1),
        X2 => none
            .line::<0, 2>(x, y, ONE, X2)
            .line::<1, 1>(x, y, ONE, X2)
            .line::<2, 0>(x, y, ONE, X2)
            .line::<3, 3>(x, back, FACTOR, X2),
        _ => none
            .line::<0, 3>(x, y, ONE, X3)
            .line::<1, 2>(x, y, ONE, X3)
            .line::<2, 1>(x, y, ONE, X3)
            .line::<3, 0>(x, y, ONE, X3),
    }
}

impl Sums {
    // The line X^I X^J = factor X^power, of the words of x and y at those powers.
    #[tactic(auto, using(crate::proofs::Laws::word_below))]
    fn line<const I: usize, const J: usize>(
        self,
        x: Element,
        y: Element,
        factor: u32,
        power: usize,
    ) -> Self
        requires product_of_powers { ProductOfPowers I J factor power }
        requires powers { (I < 4) × (J < 4) }
        requires below { Reduced x × Reduced y }
        requires room { self.once + self.back ≤ 3 * ((p - 1) * (p - 1)) }
        ensures value { Lined (at x I * at y J) factor self result }
        ensures few { result.once + result.back ≤ self.once + self.back + (p - 1) * (p - 1) }
    {
        let product = word::wide(x.c[I], y.c[J]);
        if factor == ONE {
            Sums {
                once: self.once + product,
                back: self.back,
            }
        } else {
            Sums {
                once: self.once,
                back: self.back + product,
            }
        }
    }

    // The coordinate: the residue of once + FACTOR back. `back`, shrunk, has room for the factor.
    pub fn coordinate(self) -> u32
        ensures { result ≡ (self.once + factor * (self.back % p)) % p }
    {
        word::residue(self.once + (FACTOR as u64) * word::shrink(self.back))
    }
}
