// The steps of fixing: which two entries become one, and what of the two r multiplies before it is added to the first.
ghost use Rattle.std.specs.Prelude.{◌≡◌, refl, ◌<◌};
ghost use Rattle.algebra.specs.Ring.{Ops};
ghost use Rattle.field.specs.Field.{Ext, field, from_words, Reduced, Holds};
ghost use Rattle.fixing.specs.Fixing.{Rule, Prefix, Suffix, Monomial};
ghost use Rattle.fixing.specs.Inner.{pair_of, taken, combined};

use field::Element;

pub trait Step {
    ghost rule: { Rule };

    // Whether many entries go part by part. Where r multiplies an entry as it is, one loop is as fast.
    const IN_PARTS: bool;

    // The pair of entry i of h.
    fn pair(h: usize, i: usize) -> (usize, usize)
        requires { (h < 2305843009213693952) × (i < h) }
        ensures { result ≡ pair_of rule h i };

    // What r multiplies.
    fn taken(a0: Element, a1: Element) -> Element
        requires { Reduced a0 × Reduced a1 }
        ensures { Holds result (taken rule (from_words a0) (from_words a1)) };

    ghost makes: { (a0 a1 r : Ext) → field.add a0 (field.mul (taken rule a0 a1) r) ≡ combined rule a0 a1 r };
}

pub struct PrefixStep;

pub struct SuffixStep;

pub struct MonomialStep;

impl Step for PrefixStep {
    ghost rule = { Prefix };

    const IN_PARTS: bool = true;

    fn pair(h: usize, i: usize) -> (usize, usize) {
        crate::halves(h, i)
    }

    fn taken(a0: Element, a1: Element) -> Element {
        a1.sub(a0)
    }

    ghost makes = { λ a0 a1 r. refl };
}

impl Step for SuffixStep {
    ghost rule = { Suffix };

    const IN_PARTS: bool = true;

    fn pair(_h: usize, i: usize) -> (usize, usize) {
        (2 * i, 2 * i + 1)
    }

    fn taken(a0: Element, a1: Element) -> Element {
        a1.sub(a0)
    }

    ghost makes = { λ a0 a1 r. refl };
}

impl Step for MonomialStep {
    ghost rule = { Monomial };

    const IN_PARTS: bool = false;

    fn pair(h: usize, i: usize) -> (usize, usize) {
        crate::halves(h, i)
    }

    fn taken(_a0: Element, a1: Element) -> Element {
        a1
    }

    ghost makes = { λ a0 a1 r. refl };
}
