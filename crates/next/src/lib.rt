// Two points: eq of the first extended to the second, and the first's successor tables at the second.
#![tactic(auto)]

mod pair;
mod parts;

ghost use Rattle.std.specs.Prelude.{◌≡◌};
ghost use Rattle.algebra.specs.Ring.{Ops, minus};
ghost use Rattle.multilinear.specs.Equality.{agreement};
ghost use Rattle.multilinear.specs.Successors.{eval_next, done_step};
ghost use Rattle.multilinear.specs.Beside.{eval_eq};
ghost use Rattle.field.specs.Field.{field, from_words, Reduced, Holds};
ghost use Rattle.table.specs.Refusals.{outcome};
ghost use Rattle.point.specs.Points.{coordinates};
ghost use Rattle.next.specs.Next.{eval_eq_answer, eval_next_answer, next_outcome};
ghost use Rattle.next.specs.Inner.{Paired, HoldParts};

use field::Element;
use pair::Pair;
pub use parts::Parts;
use table::Refusal;

// The product of 2pq - p - q + 1 over the pairs of coordinates.
#[tactic(auto, using(table::proofs::Outcomes::outcomes), unfolding(crate::specs::Next::eval_eq_answer))]
pub fn eval_eq(point: &[u32], other: &[u32]) -> Result<Element, Refusal>
    ensures { outcome result ≡ eval_eq_answer point.now other.now }
{
    let pair = Pair::of(point, other)?;
    Ok(agreements(pair))
}

// carry, done and omega of two points.
#[tactic(auto, using(crate::proofs::Answers::next_outcomes), unfolding(crate::specs::Next::eval_next_answer))]
pub fn eval_next(point: &[u32], other: &[u32]) -> Result<Parts, Refusal>
    ensures { next_outcome result ≡ eval_next_answer point.now other.now }
{
    let pair = Pair::of(point, other)?;
    Ok(next_parts(pair))
}

fn agreements(pair: Pair) -> Element
    ensures { Holds result (eval_eq field (coordinates pair.entry.point) (coordinates pair.entry.other)) }
{
    let mut product = Element::one();
    // By number, from the last pair back: a `zip` of both would give twice four words, to be made elements as `read` does.
    for j in (0..pair.point.count).rev() {
        let s = pair.point.read(j);
        let t = pair.other.read(j);
        product = agree(s, t, s.mul(t)).mul(product);
    }
    product
}

// From the last pair, which goes with the lowest bit, back to coordinate 0. The product st of a pair serves every step: five products a
// pair.
#[tactic(auto, using(crate::proofs::Pairs::four))]
fn next_parts(pair: Pair) -> Parts
    ensures { HoldParts result (eval_next field (coordinates pair.entry.point) (coordinates pair.entry.other)) }
{
    let mut carry = Element::one();
    let mut done = Element::zero();
    let mut omega = Element::one();
    // By number, from the last pair back: a `zip` of both would give twice four words, to be made elements as `read` does.
    for j in (0..pair.point.count).rev() {
        let s = pair.point.read(j);
        let t = pair.other.read(j);
        let both = s.mul(t);
        done = done_step(s, t, both, done, carry);
        carry = carry_step(s, both, carry);
        omega = both.mul(omega);
    }
    Parts { carry, done, omega }
}

// 2st - s - t + 1, where both is st.
#[tactic(auto, using(field::proofs::Laws::read_as))]
fn agree(s: Element, t: Element, both: Element) -> Element
    requires { Paired s t both }
    ensures { Holds result (agreement field (from_words s) (from_words t)) }
{
    both.double().sub(s).sub(t).add(Element::one())
}

// (2st - s - t + 1) done + (t - st) carry, where both is st.
#[tactic(auto, using(field::proofs::Laws::read_as, crate::proofs::Pairs::settled_by))]
fn done_step(s: Element, t: Element, both: Element, done: Element, carry: Element) -> Element
    requires { Paired s t both × (Reduced done × Reduced carry) }
    ensures { Holds result (done_step field (from_words s) (from_words t) (from_words done) (from_words carry)) }
{
    let kept = agree(s, t, both).mul(done);
    kept.add(t.sub(both).mul(carry))
}

// (s - st) carry, where both is st.
#[tactic(auto, using(field::proofs::Laws::read_as))]
fn carry_step(s: Element, both: Element, carry: Element) -> Element
    requires { (Reduced s × Reduced both) × Reduced carry }
    ensures { Holds result (field.mul (minus field (from_words s) (from_words both)) (from_words carry)) }
{
    s.sub(both).mul(carry)
}

#[cfg(test)]
mod tests;
