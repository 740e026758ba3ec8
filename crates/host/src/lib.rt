// The operations for a host program that compares and measures them: words in slices, and 0 or the refusal's number. A scale is
// four numbers, as in the ward's calls; an operand or an answer that is one element is an array of four words. A
// function for each operation, with its numbers one by one: the C interface needs it.
#![tactic(auto)]

mod answers;
mod elements;
pub mod sessions;

ghost use Rattle.std.specs.Prelude.{◌≡◌, true, false};
ghost use Rattle.point.specs.declared.equality.BitOrder.TheVariants.{Msb, Lsb};
ghost use Rattle.point.specs.Point.{vertex_answer, table_answer, equality_out, eval_select_answer};
ghost use Rattle.next.specs.Next.{eval_eq_answer, eval_next_answer};
ghost use Rattle.poly.specs.Poly.{new_answer, new_out, next_out, cyclic_out};
ghost use Rattle.eq_batch.specs.Batch.{batch_answer, set_out, add_out};
ghost use Rattle.host_answers.specs.Host.{element_of, answered, shown};
ghost use Rattle.host.specs.declared.elements.Operation.TheVariants.{Add, Sub, Mul, Neg, Double};
ghost use Rattle.host.specs.declared.elements.Operation.TheVariants.{MulBase, FromBase, MulRepeat};
ghost use Rattle.host.specs.Elements.{single, element_answer, element_out};

use elements::Operation;
use field::Element;

#[unsafe(no_mangle)]
pub extern "C" fn host_add(x: &[u32; 4], y: &[u32; 4], out: &mut [u32; 4]) -> u32
    ensures value { result ≡ element_answer x.now y.now }
    ensures out_after { out.new ≡ element_out Add x.now y.now out.old }
{
    elements::apply(Operation::Add, x, y, out)
}

#[unsafe(no_mangle)]
pub extern "C" fn host_sub(x: &[u32; 4], y: &[u32; 4], out: &mut [u32; 4]) -> u32
    ensures value { result ≡ element_answer x.now y.now }
    ensures out_after { out.new ≡ element_out Sub x.now y.now out.old }
{
    elements::apply(Operation::Sub, x, y, out)
}

#[unsafe(no_mangle)]
pub extern "C" fn host_mul(x: &[u32; 4], y: &[u32; 4], out: &mut [u32; 4]) -> u32
    ensures value { result ≡ element_answer x.now y.now }
    ensures out_after { out.new ≡ element_out Mul x.now y.now out.old }
{
    elements::apply(Operation::Mul, x, y, out)
}

#[unsafe(no_mangle)]
pub extern "C" fn host_neg(x: &[u32; 4], out: &mut [u32; 4]) -> u32
    ensures value { result ≡ element_answer x.now x.now }
    ensures out_after { out.new ≡ element_out Neg x.now x.now out.old }
{
    elements::apply(Operation::Neg, x, x, out)
}

#[unsafe(no_mangle)]
pub extern "C" fn host_double(x: &[u32; 4], out: &mut [u32; 4]) -> u32
    ensures value { result ≡ element_answer x.now x.now }
    ensures out_after { out.new ≡ element_out Double x.now x.now out.old }
{
    elements::apply(Operation::Double, x, x, out)
}

#[unsafe(no_mangle)]
pub extern "C" fn host_mul_base(x: &[u32; 4], word: u32, out: &mut [u32; 4]) -> u32
    ensures value { result ≡ element_answer x.now (single word) }
    ensures out_after { out.new ≡ element_out MulBase x.now (single word) out.old }
{
    let y = [word, 0, 0, 0];
    elements::apply(Operation::MulBase, x, &y, out)
}

#[unsafe(no_mangle)]
pub extern "C" fn host_from_base(word: u32, out: &mut [u32; 4]) -> u32
    ensures value { result ≡ element_answer (single word) (single word) }
    ensures out_after { out.new ≡ element_out FromBase (single word) (single word) out.old }
{
    let y = [word, 0, 0, 0];
    elements::apply(Operation::FromBase, &y, &y, out)
}

// x y^times, product by product: a chain to measure.
#[unsafe(no_mangle)]
pub extern "C" fn host_mul_repeat(x: &[u32; 4], y: &[u32; 4], times: u64, out: &mut [u32; 4]) -> u32
    ensures value { result ≡ element_answer x.now y.now }
    ensures out_after { out.new ≡ element_out (MulRepeat times) x.now y.now out.old }
{
    elements::apply(Operation::MulRepeat(times), x, y, out)
}

#[unsafe(no_mangle)]
pub extern "C" fn host_equality_at_vertex(point: &[u32], vertex: usize, out: &mut [u32; 4]) -> u32
    ensures { answered result out.new ≡ shown (vertex_answer point.now vertex) out.old }
{
    host_answers::give_words(point::equality::equality_at_vertex(point, vertex), out)
}

#[unsafe(no_mangle)]
pub extern "C" fn host_equality_weights_msb(point: &[u32], out: &mut [u32]) -> u32
    ensures value { result ≡ table_answer point.now out.old }
    ensures out_after { out.new ≡ equality_out Msb point.now out.old }
{
    table::answer(point::equality::equality_weights_msb(point, out))
}

#[unsafe(no_mangle)]
pub extern "C" fn host_equality_weights_lsb(point: &[u32], out: &mut [u32]) -> u32
    ensures value { result ≡ table_answer point.now out.old }
    ensures out_after { out.new ≡ equality_out Lsb point.now out.old }
{
    table::answer(point::equality::equality_weights_lsb(point, out))
}

#[unsafe(no_mangle)]
pub extern "C" fn host_eval_eq(point: &[u32], other: &[u32], out: &mut [u32; 4]) -> u32
    ensures { answered result out.new
        ≡ shown (eval_eq_answer point.now other.now) out.old }
{
    host_answers::give_words(next::eval_eq(point, other), out)
}

#[unsafe(no_mangle)]
pub extern "C" fn host_eval_next(point: &[u32], other: &[u32], out: &mut [u32; 12]) -> u32
    ensures { answered result out.new
        ≡ shown (eval_next_answer point.now other.now) out.old }
{
    answers::give_next(next::eval_next(point, other), out)
}

#[unsafe(no_mangle)]
pub extern "C" fn host_eval_select(point: &[u32], var: u32, out: &mut [u32; 4]) -> u32
    ensures { answered result out.new ≡ shown (eval_select_answer var point.now) out.old }
{
    host_answers::give_words(point::select::eval_select(var, point), out)
}

#[unsafe(no_mangle)]
pub extern "C" fn host_new_from_point(
    point: &[u32],
    scale0: u32,
    scale1: u32,
    scale2: u32,
    scale3: u32,
    out: &mut [u32],
) -> u32
    ensures value { result ≡ new_answer point.now (element_of scale0 scale1 scale2 scale3) out.old }
    ensures out_after { out.new ≡ new_out point.now (element_of scale0 scale1 scale2 scale3) out.old }
{
    let scale = Element {
        c: [scale0, scale1, scale2, scale3],
    };
    table::answer(poly::new_from_point(point, scale, out))
}

#[unsafe(no_mangle)]
pub extern "C" fn host_new_next_from_point(point: &[u32], out: &mut [u32]) -> u32
    ensures value { result ≡ table_answer point.now out.old }
    ensures out_after { out.new ≡ next_out point.now out.old }
{
    table::answer(poly::new_next_from_point(point, out))
}

#[unsafe(no_mangle)]
pub extern "C" fn host_new_cyclic_from_point(point: &[u32], out: &mut [u32]) -> u32
    ensures value { result ≡ table_answer point.now out.old }
    ensures out_after { out.new ≡ cyclic_out point.now out.old }
{
    table::answer(poly::new_cyclic_from_point(point, out))
}

#[unsafe(no_mangle)]
pub extern "C" fn host_eval_eq_batch(
    points: &[u32],
    scalars: &[u32],
    n: usize,
    out: &mut [u32],
) -> u32
    ensures value { result ≡ batch_answer false n points.now scalars.now out.old }
    ensures out_after { out.new ≡ set_out n points.now scalars.now out.old }
{
    table::answer(eq_batch::eval_eq_batch(n, points, scalars, out))
}

#[unsafe(no_mangle)]
pub extern "C" fn host_eval_eq_batch_add(
    points: &[u32],
    scalars: &[u32],
    n: usize,
    out: &mut [u32],
) -> u32
    ensures value { result ≡ batch_answer true n points.now scalars.now out.old }
    ensures out_after { out.new ≡ add_out n points.now scalars.now out.old }
{
    table::answer(eq_batch::eval_eq_batch_add(n, points, scalars, out))
}
