// A sum of products of elements before it is divided, by the lines of `field::product`: at 1, X, X^2 and X^3 those with factor 1, and at
// X^4, X^5 and X^6 those that come back.
ghost use Rattle.std.specs.Prelude.{◌≡◌};
ghost use Rattle.field.specs.Field.{Reduced};
ghost use Rattle.dots.specs.Inner.{Within, most_gains, Room, EachGrown, coefficients, folded_halves, settled_powers};

use crate::halves::Halves;
use field::{Element, product, word};

// The sums with x y. Line by line, in an order in which the loop of `dot_ext` has the fewest instructions: tried by `halves::gain`,
// slower by a tenth.
pub fn gain(sums: [Halves; 7], x: Element, y: Element) -> [Halves; 7]
    requires { Room 7 sums × Reduced x × Reduced y }
    ensures { EachGrown 7 sums (coefficients x y) result }
{
    let at0 = product::lines::<0>(x, y, y);
    let s0 = sums[0].gain(at0.once);
    let s4 = sums[4].gain(at0.back);
    let at3 = product::lines::<3>(x, y, y);
    let s3 = sums[3].gain(at3.once);
    let at2 = product::lines::<2>(x, y, y);
    let s2 = sums[2].gain(at2.once);
    let s6 = sums[6].gain(at2.back);
    let at1 = product::lines::<1>(x, y, y);
    let s1 = sums[1].gain(at1.once);
    let s5 = sums[5].gain(at1.back);
    [s0, s1, s2, s3, s4, s5, s6]
}

// The element: what stands at X^4, X^5 and X^6 comes back at 1, X and X^2, times the factor.
#[tactic(auto, unfolding(crate::specs::Inner::settled_powers))]
pub fn settle(sums: [Halves; 7]) -> Element
    requires { Room 7 sums }
    ensures { result ≡ settled_powers sums }
{
    Element {
        c: [
            with_high(sums[0], sums[4]),
            with_high(sums[1], sums[5]),
            with_high(sums[2], sums[6]),
            sums[3].settle(),
        ],
    }
}

// The residue of low + factor high.
fn with_high(low: Halves, high: Halves) -> u32
    requires { Within most_gains low × Within most_gains high }
    ensures { result ≡ folded_halves low high }
{
    word::residue((low.settle() as u64) + (Element::FACTOR as u64) * (high.settle() as u64))
}
