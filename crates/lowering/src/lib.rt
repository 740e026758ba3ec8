// Division by 2^32 modulo p, which takes no division of the machine's: by products, and by what stands above 2^32 (Montgomery's
// reduction). A loop whose weights were multiplied by 2^32 before it divides each sum so, and the compiler makes vectors of that.
#![tactic(auto)]

ghost use Rattle.std.specs.Prelude.{◌≡◌, ◌+◌, ◌-◌, ◌*◌, ◌%◌, ◌<◌, ◌≤◌};
ghost use Rattle.algebra.specs.Ring.{Ops};
ghost use Rattle.field.specs.Field.{p, factor, field, base, from_words, Reduced, Holds};
ghost use Rattle.field.specs.Inner.{unit};
ghost use Rattle.lowering.specs.Lowering.{unit_inverse};

use field::{Element, word};

// The inverse of p modulo 2^32.
const INVERSE: u64 = 2281701377;

// 2^64 modulo p.
const SQUARE: u32 = 1172168163;

// The field's factor times 2^32, modulo p.
const RAISED_FACTOR: u32 = 939524073;

// w 2^32: w 2^64, divided by 2^32. What `lower` gives is seen to be a word, so that a product with it is one of words in vectors too.
pub fn raise(w: Element) -> Element
    requires { Reduced w }
    ensures { Holds result (field.mul (from_words w) (base unit)) }
{
    product(w, SQUARE)
}

// w times the field's factor: w times that and 2^32, divided by 2^32.
pub fn times_factor(w: Element) -> Element
    requires { Reduced w }
    ensures { Holds result (field.mul (from_words w) (base factor)) }
{
    product(w, RAISED_FACTOR)
}

// w times a base word, divided by 2^32.
fn product(w: Element, constant: u32) -> Element
    requires { Reduced w × (constant < p) }
    ensures { Holds result (field.mul (from_words w) (base (constant * unit_inverse))) }
{
    w.map(
        |a|
            requires { (a < p) × (constant < p) }
            ensures { result ≡ a * (constant * unit_inverse) % p }
        { lower(word::wide(a, constant)) },
    )
}

// n / 2^32 modulo p, where n is four products or fewer. m p ends as n does, so n - m p is what stands above 2^32 in both, times 2^32.
pub fn lower(n: u64) -> u32
    requires { n ≤ 4 * ((p - 1) * (p - 1)) }
    ensures { result ≡ n * unit_inverse % p }
{
    let m = n % word::UNIT * INVERSE % word::UNIT;
    let h = m * (Element::MODULUS as u64) / word::UNIT;
    word::less(
        word::less((n / word::UNIT) as u32, Element::MODULUS),
        h as u32,
    )
}
