// Products by one factor r, many times: the sixteen lines of `field::product`, with what they take of r made ready. Read by the power that
// they give, the lines of x r are the rows of a matrix. With t = r times the field's factor,
//
//     1     | r0 t3 t2 t1 |   | x0 |
//     X     | r1 r0 t3 t2 |   | x1 |
//     X^2   | r2 r1 r0 t3 |   | x2 |
//     X^3   | r3 r2 r1 r0 |   | x3 |
//
// A row's four products fit a u64. A `Multiplier` has r and t times 2^32, and each row's sum is divided by 2^32 (`lowering`), of which the
// compiler makes vectors; `plus_by` takes r and t as they are, and divides by p.
#![tactic(auto)]

mod tables;

ghost use Rattle.std.specs.Prelude.{◌≡◌, ◌+◌, ◌*◌, ◌%◌, ◌<◌};
ghost use Rattle.algebra.specs.Ring.{Ops};
ghost use Rattle.field.specs.Field.{p, factor, Reduced, field, base, from_words, Holds};
ghost use Rattle.multiplier.specs.Ready.{Ready, product_word};

use field::sums::Sums;
use field::{Element, product, word};

// The factor r, made ready.
#[derive(Clone, Copy, Debug, PartialEq, Eq)]
pub struct Multiplier {
    pub r: Element,
    // r 2^32.
    pub y: Element,
    // r 2^32 times the field's factor.
    pub back: Element,
    pub ghost ready: { Ready r y back },
}

impl Multiplier {
    pub fn new(r: Element) -> Self
        requires { Reduced r }
        ensures { result.r ≡ r }
    {
        let y = lowering::raise(r);
        Multiplier {
            r,
            y,
            back: lowering::times_factor(y),
        }
    }

    // x r.
    #[inline(always)]
    pub fn times(self, x: Element) -> Element
        requires { Reduced x }
        ensures { Holds result (field.mul (from_words x) (from_words self.r)) }
    {
        Element {
            c: [
                self.coordinate::<0>(x),
                self.coordinate::<1>(x),
                self.coordinate::<2>(x),
                self.coordinate::<3>(x),
            ],
        }
    }

    // old + x r. Copied into each loop that calls it: as a call it would keep the loop from becoming vectors.
    #[inline(always)]
    pub fn plus(self, old: Element, x: Element) -> Element
        requires { Reduced x × Reduced old }
        ensures { Holds result (field.add (from_words old) (field.mul (from_words x) (from_words self.r))) }
    {
        old.add(self.times(x))
    }

    // The coordinate of X^K of x r: its row's sum, divided by 2^32.
    pub fn coordinate<const K: usize>(self, x: Element) -> u32
        requires { (K < 4) × Reduced x }
        ensures { result ≡ product_word x self.r K }
    {
        let s = product::lines::<K>(x, self.y, self.back);
        lowering::lower(s.once + s.back)
    }
}

// old + x r, of a factor of which r and t are kept alone.
pub fn plus_by(old: Element, x: Element, r: Element, t: Element) -> Element
    requires { (Reduced x × Reduced r) × Holds t (field.mul (from_words r) (base factor)) }
    ensures { Holds result (field.add (from_words old) (field.mul (from_words x) (from_words r))) }
{
    Element {
        c: [
            added(old.c[0], product::lines::<0>(x, r, t)),
            added(old.c[1], product::lines::<1>(x, r, t)),
            added(old.c[2], product::lines::<2>(x, r, t)),
            added(old.c[3], product::lines::<3>(x, r, t)),
        ],
    }
}

// A row's sum added to a word, divided by p: a u64 holds a word and four products.
fn added(old: u32, s: Sums) -> u32
    ensures { result ≡ (old + (s.once + s.back)) % p }
{
    word::residue((old as u64) + (s.once + s.back))
}
