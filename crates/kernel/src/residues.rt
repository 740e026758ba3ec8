// Residues modulo p of what an element gains.
ghost use Rattle.std.specs.Prelude.{◌≡◌, ◌+◌, ◌-◌, ◌*◌, ◌%◌, ◌^◌, ◌<◌};
ghost use Rattle.field.specs.Field.{p};

use field::{Element, word};

// 2^62 / p.
const RECIPROCAL: u64 = 2290649223;

// 2^30, which times 2^32 is 2^62.
const LOW: u64 = 1073741824;

// 2^31: what is below 0, wrapped, is not below it.
const SIGN: u32 = 2147483648;

// Of a word and N products. One product leaves room for a quotient by products.
pub fn residue<const N: usize>(sum: u64) -> u32
    requires { sum < 2 ^ 32 + N * ((p - 1) * (p - 1)) }
    ensures { result ≡ sum % p }
{
    if N == 1 {
        by_products(sum)
    } else {
        word::residue(sum)
    }
}

// Of two words below p, by no test: what is below 0, wrapped, is above the word that it was. The compiler has an instruction for it, for four.
pub fn gained(old: u32, gain: u32) -> u32
    requires { (old < p) × (gain < p) }
    ensures { result ≡ (old + gain) % p }
{
    let sum = old + gain;
    u32::min(sum, sum.wrapping_sub(Element::MODULUS))
}

// By no division: what n has above 2^30, times 2^62 / p and over 2^32, is the quotient or one less. The compiler makes vectors of that, since
// the remainder by 2^32, which changes nothing, tells it that it multiplies words.
fn by_products(n: u64) -> u32
    requires { n < 2 ^ 62 }
    ensures { result ≡ n % p }
{
    let quotient = n / LOW % word::UNIT * RECIPROCAL / word::UNIT;
    let left = n - quotient * (Element::MODULUS as u64);
    once(left as u32)
}

// Of a word below 2 p, by its highest bit less p: of this test the compiler makes vectors over places, and of the lesser of two only over
// coordinates.
fn once(a: u32) -> u32
    requires { a < 2 * p }
    ensures { result ≡ a % p }
{
    let s = a.wrapping_sub(Element::MODULUS);
    if s < SIGN {
        s
    } else {
        s.wrapping_add(Element::MODULUS)
    }
}
