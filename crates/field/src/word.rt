// Base words: numbers below the modulus, and their sums, differences and products modulo it. Words widen by `as`, which the check shows to
// lose nothing.
//
// Each contract asks that a word is below the modulus, and no type says it: tables and `Element` have plain words, so that a type of such
// a word would be made of them at each call, and opened again to store what the call gives.
ghost use Rattle.std.specs.Prelude.{◌≡◌, ◌+◌, ◌-◌, ◌*◌, ◌%◌, ◌<◌, ◌≤◌};
ghost use Rattle.field.specs.Field.{p};
ghost use Rattle.field.specs.Inner.{unit};

use crate::Element;

// 2^32.
pub const UNIT: u64 = 4294967296;

// 2^32 modulo p.
const UNIT_RESIDUE: u64 = 268435454;

pub fn add(a: u32, b: u32) -> u32
    requires { (a < p) × (b < p) }
    ensures { result ≡ (a + b) % p }
{
    less(a + b, Element::MODULUS)
}

pub fn sub(a: u32, b: u32) -> u32
    requires { (a < p) × (b < p) }
    ensures { result ≡ (a + (p - b % p)) % p }
{
    less(a, b)
}

// a - b modulo p, where the difference is at least -p and below p. By no test: what is below 0, wrapped, is above what it is with p added. The
// compiler has an instruction for the lesser of words, for four.
pub fn less(a: u32, b: u32) -> u32
    requires { (a < b + p) × (b ≤ a + p) }
    ensures { (result < p) × ((result + b) % p ≡ a % p) }
{
    let s = a.wrapping_sub(b);
    u32::min(s, s.wrapping_add(Element::MODULUS))
}

pub fn neg(a: u32) -> u32
    requires { a < p }
    ensures { result ≡ (p - a % p) % p }
{
    if a == 0 { 0 } else { Element::MODULUS - a }
}

pub fn mul(a: u32, b: u32) -> u32
    requires { (a < p) × (b < p) }
    ensures { result ≡ (a * b) % p }
{
    residue(wide(a, b))
}

// The product before it is reduced: four of these fit a u64.
pub fn wide(a: u32, b: u32) -> u64
    requires { (a < p) × (b < p) }
    ensures { (result ≡ a * b) × (result ≤ (p - 1) * (p - 1)) }
{
    (a as u64) * (b as u64)
}

// A smaller number of the same residue, by no division: what stands above 2^32 comes back with the residue of 2^32.
pub fn shrink(n: u64) -> u64
    ensures { (result % p ≡ n % p) × (16 * result ≤ n + 16 * unit) }
{
    n % UNIT + n / UNIT * UNIT_RESIDUE
}

pub fn residue(n: u64) -> u32
    ensures { result ≡ n % p }
{
    (n % (Element::MODULUS as u64)) as u32
}
