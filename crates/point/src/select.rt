// The selection polynomial of a point at the powers of a base word.
ghost use Rattle.std.specs.Prelude.{◌≡◌, ◌<◌};
ghost use Rattle.algebra.specs.Ring.{Ops, minus};
ghost use Rattle.multilinear.specs.Beside.{eval_select};
ghost use Rattle.field.specs.Field.{p, field, base, from_words, Reduced, Holds};
ghost use Rattle.table.specs.Refusals.{answer, outcome, verdict};
ghost use Rattle.point.specs.Point.{select_tests, eval_select_answer};
ghost use Rattle.point.specs.Points.{coordinates};

use crate::Point;
use field::Element;
use table::Refusal;

// The sum of eq[y] var^y.
#[tactic(auto, using(table::proofs::Outcomes::outcomes), unfolding(crate::specs::Point::eval_select_answer))]
pub fn eval_select(var: u32, point: &[u32]) -> Result<Element, Refusal>
    ensures { outcome result ≡ eval_select_answer var point.now }
{
    test_select(var, point)?;
    Ok(selection(var, Point::of(point)))
}

#[tactic(auto, using(table::proofs::Verdicts::tests))]
fn test_select(var: u32, point: &[u32]) -> Result<(), Refusal>
    ensures { answer result ≡ verdict (select_tests var point.now) }
{
    table::refuse_if(table::splits(point), Refusal::Split)?;
    table::refuse_if(table::too_many(point), Refusal::TooMany)?;
    table::refuse_if(field::unreduced(point), Refusal::Unreduced)?;
    table::refuse_if(Element::MODULUS <= var, Refusal::Unreduced)
}

// A factor for each coordinate, from the last back to coordinate 0, while var is squared.
fn selection(var: u32, point: Point) -> Element
    requires { var < p }
    ensures { Holds result (eval_select field (base var) (coordinates point.entry)) }
{
    let mut product = Element::one();
    let mut power = var;
    // By number, from the last coordinate back: `chunks_exact(4).rev()` would give four words, to be made an element as `read` does.
    for j in (0..point.count).rev() {
        let f = select_factor(power, point.read(j));
        product = f.mul(product);
        power = field::word::mul(power, power);
    }
    product
}

// c (power - 1) + 1.
fn select_factor(power: u32, c: Element) -> Element
    requires { (power < p) × Reduced c }
    ensures { Holds result (field.add (field.mul (from_words c) (minus field (base power) field.one)) field.one) }
{
    c.mul_base(power).sub(c).add(Element::one())
}
