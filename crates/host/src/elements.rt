// Element operations on the words of elements.
ghost use Rattle.std.specs.Prelude.{◌≡◌};
ghost use Rattle.algebra.specs.Ring.{Ops};
ghost use Rattle.multilinear.specs.Beside.{power};
ghost use Rattle.field.specs.Field.{field, from_words, Reduced, Holds};
ghost use Rattle.table.specs.Refusals.{answer, outcome, verdict, evaluated};
ghost use Rattle.host.specs.Elements.{operated, element_answer, element_out};
ghost use Rattle.host.specs.Inner.{operand_tests};

use field::Element;
use table::Refusal;

// The steps behind the tests. Tried: closures in place of this switch, with which the loop of `chain` is slower by 7 to 12 in 100.
#[derive(Clone, Copy, Debug, PartialEq, Eq)]
pub enum Operation {
    Add,
    Sub,
    Mul,
    Neg,
    Double,
    MulBase,
    FromBase,
    MulRepeat(u64),
}

// The operation on the words x and y: out becomes its element's words.
pub fn apply(operation: Operation, x: &[u32; 4], y: &[u32; 4], out: &mut [u32; 4]) -> u32
    ensures value { result ≡ element_answer x.now y.now }
    ensures out_after { out.new ≡ element_out operation x.now y.now out.old }
{
    host_answers::give_words(operate(operation, x, y), out)
}

fn operate(operation: Operation, x: &[u32; 4], y: &[u32; 4]) -> Result<Element, Refusal>
    ensures { outcome result
        ≡ evaluated (element_answer x.now y.now)
        (operated operation (record { c = x.now }) (record { c = y.now })) }
{
    test(x, y)?;
    Ok(element(operation, Element { c: *x }, Element { c: *y }))
}

// 5.
#[tactic(auto, using(table::proofs::Verdicts::tests))]
fn test(x: &[u32; 4], y: &[u32; 4]) -> Result<(), Refusal>
    ensures { answer result ≡ verdict (operand_tests x.now y.now) }
{
    table::refuse_if(field::unreduced(x), Refusal::Unreduced)?;
    table::refuse_if(field::unreduced(y), Refusal::Unreduced)
}

#[tactic(auto, using(field::proofs::Laws::word_below))]
fn element(operation: Operation, x: Element, y: Element) -> Element
    requires { Reduced x × Reduced y }
    ensures { Holds result (operated operation x y) }
{
    match operation {
        Operation::Add => x.add(y),
        Operation::Sub => x.sub(y),
        Operation::Mul => x.mul(y),
        Operation::Neg => x.neg(),
        Operation::Double => x.double(),
        Operation::MulBase => x.mul_base(y.c[0]),
        Operation::FromBase => Element::from_base(y.c[0]),
        Operation::MulRepeat(times) => chain(x, y, times),
    }
}

// x y^times.
#[tactic(auto, using(crate::proofs::Chaining::start, crate::proofs::Chaining::turn))]
fn chain(x: Element, y: Element, times: u64) -> Element
    requires { Reduced x × Reduced y }
    ensures { Holds result (field.mul (from_words x) (power field (from_words y) times)) }
{
    let mut product = x;
    for _ in 0..times {
        product = product.mul(y);
    }
    product
}
