// What one element gains or is, with one residue a coordinate or divided by 2^32.
ghost use Rattle.std.specs.Prelude.{◌≡◌, ◌+◌, ◌-◌, ◌*◌, ◌%◌, ◌<◌, ◌≤◌, length};
ghost use Rattle.algebra.specs.Ring.{Ops};
ghost use Rattle.field.specs.Field.{p, field, base, from_words, Reduced, Holds};
ghost use Rattle.field.specs.Inner.{unit};
ghost use Rattle.lowering.specs.Lowering.{unit_inverse};
ghost use Rattle.kernel.specs.Kernel.{Weights, weighed};
ghost use Rattle.kernel.specs.Inner.{There, word_at, products, Raised};

use crate::residues;
use field::{Element, word};

// Where the words of a sum stand: the first, and how far they are apart.
#[derive(Clone, Copy)]
pub struct Strided {
    pub first: usize,
    pub apart: usize,
}

// old, and the sum of the words, each times its weight. Weights, words and `at` go together here and below: `at` differs from turn to
// turn, and a struct of the three would be made at each, with a copy of the weights.
pub fn step<const N: usize>(
    old: Element,
    weights: [Element; N],
    words: &[u32],
    at: Strided,
) -> Element
    requires weights { Weights N weights }
    requires words { There N words.now at }
    ensures { Holds result (field.add (from_words old) (weighed N weights.entry (word_at words.now at))) }
{
    // Four lines: `from_fn` would take a closure with two clauses (`dots`), no plainer.
    Element {
        c: [
            residues::residue::<N>(products(old.c[0], weights, words, at, 0)),
            residues::residue::<N>(products(old.c[1], weights, words, at, 1)),
            residues::residue::<N>(products(old.c[2], weights, words, at, 2)),
            residues::residue::<N>(products(old.c[3], weights, words, at, 3)),
        ],
    }
}

// The sum of the words, each times its weight, divided by 2^32, by no division. Copied into the loops: with two callers it would be a call for
// each place, and nothing a vector over places.
#[inline(always)]
pub fn lowered<const N: usize>(weights: [Element; N], words: &[u32], at: Strided) -> Element
    requires weights { Weights N weights }
    requires words { There N words.now at }
    ensures { Holds result (field.mul (weighed N weights.entry (word_at words.now at)) (base unit_inverse)) }
{
    // Four lines, as in `step`.
    Element {
        c: [
            lowering::lower(products(0, weights, words, at, 0)),
            lowering::lower(products(0, weights, words, at, 1)),
            lowering::lower(products(0, weights, words, at, 2)),
            lowering::lower(products(0, weights, words, at, 3)),
        ],
    }
}

// old, and what it gains.
#[tactic(auto, using(field::proofs::Laws::word_below))]
pub fn gained(old: Element, gain: Element) -> Element
    requires { Reduced old × Reduced gain }
    ensures { Holds result (field.add (from_words old) (from_words gain)) }
{
    // Four lines, as in `step`.
    Element {
        c: [
            residues::gained(old.c[0], gain.c[0]),
            residues::gained(old.c[1], gain.c[1]),
            residues::gained(old.c[2], gain.c[2]),
            residues::gained(old.c[3], gain.c[3]),
        ],
    }
}

// old, and coordinate k of each weight times its word. Four products and a word fit a u64.
pub fn products<const N: usize>(
    old: u32,
    weights: [Element; N],
    words: &[u32],
    at: Strided,
    k: usize,
) -> u64
    requires weights { Weights N weights }
    requires words { There N words.now at }
    requires coordinate { k < 4 }
    ensures value { result ≡ old + products weights.entry k (word_at words.now at) N }
    ensures few { result ≤ old + N * ((p - 1) * (p - 1)) }
{
    let mut sum = old as u64;
    // By number: a place's words stand `apart` from each other. By `step_by` no plainer: that `apart` is not 0 would be a field of `There`,
    // given by its three callers.
    for t in 0..N {
        sum += word::wide(weights[t].c[k], words[t * at.apart + at.first]);
    }
    sum
}

// The weights times 2^32.
pub fn raised<const N: usize>(weights: [Element; N]) -> [Element; N]
    requires weights { Weights N weights }
    ensures { Raised N weights.entry result }
{
    weights.map(lowering::raise)
}

// The same for `set_groups` and `set_rows`, by a map of its own: a map that two functions call is copied into neither, and `gain_long_rows` is
// called more often.
pub fn raised_apart<const N: usize>(weights: [Element; N]) -> [Element; N]
    requires weights { Weights N weights }
    ensures { Raised N weights.entry result }
{
    weights.map(
        |w|
            requires { Reduced w }
            ensures { Holds result (field.mul (from_words w) (base unit)) }
        { lowering::raise(w) },
    )
}
