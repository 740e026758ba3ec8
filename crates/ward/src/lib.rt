// The calls of the ward app: bytes in, bytes out, and 0 or the refusal's number. A word is four bytes, the lowest first, and an element
// four words. Nothing is allocated, and a table is never copied whole.
#![tactic(auto)]

mod shifted;

ghost use Rattle.std.specs.Prelude.{◌≡◌};
ghost use Rattle.multilinear.specs.declared.Side.TheVariants.{Prefix, Suffix};
ghost use Rattle.byte_points.specs.BytePoints.{vertex_answer, vertex_out, next_answer, next_out};
ghost use Rattle.ward.specs.Ward.{scale_of, fold_answer, fold_work, fold_out};

use field::Element;
use multilinear::Side;
use shifted::Fold;

// out, of one element, becomes eq[vertex].
#[unsafe(no_mangle)]
pub extern "C" fn ward_equality_at_vertex(point: &[u8], vertex: u64, out: &mut [u8]) -> u32
    ensures value { result ≡ vertex_answer point.now vertex out.old }
    ensures out_after { out.new ≡ vertex_out point.now vertex out.old }
{
    table::answer(byte_points::equality_at_vertex(point, vertex as usize, out))
}

// out, of three elements, becomes carry, done and omega of two points.
#[unsafe(no_mangle)]
pub extern "C" fn ward_eval_next(point: &[u8], other: &[u8], out: &mut [u8]) -> u32
    ensures value { result ≡ next_answer point.now other.now out.old }
    ensures out_after { out.new ≡ next_out point.now other.now out.old }
{
    table::answer(byte_points::eval_next(point, other, out))
}

// out becomes the shifted fold over the first variables of a table; work holds both tables of the point after it.
// A call for each side, and the scale as four words: the C interface needs it.
#[unsafe(no_mangle)]
pub extern "C" fn ward_compress_prefix_shifted(
    table: &[u8],
    point: &[u8],
    scale0: u32,
    scale1: u32,
    scale2: u32,
    scale3: u32,
    work: &mut [u8],
    out: &mut [u8],
) -> u32
    ensures value { result
        ≡ fold_answer table.now point.now (scale_of scale0 scale1 scale2 scale3)
        work.old out.old }
    ensures work_after { work.new
        ≡ fold_work table.now point.now (scale_of scale0 scale1 scale2 scale3)
        work.old out.old }
    ensures out_after { out.new
        ≡ fold_out Prefix table.now point.now (scale_of scale0 scale1 scale2 scale3)
        work.old out.old }
{
    let scale = Element {
        c: [scale0, scale1, scale2, scale3],
    };
    let fold = Fold {
        side: Side::Prefix,
        table,
        point,
        scale,
    };
    table::answer(fold.compress(work, out))
}

// The same over the last variables.
#[unsafe(no_mangle)]
pub extern "C" fn ward_compress_suffix_shifted(
    table: &[u8],
    point: &[u8],
    scale0: u32,
    scale1: u32,
    scale2: u32,
    scale3: u32,
    work: &mut [u8],
    out: &mut [u8],
) -> u32
    ensures value { result
        ≡ fold_answer table.now point.now (scale_of scale0 scale1 scale2 scale3)
        work.old out.old }
    ensures work_after { work.new
        ≡ fold_work table.now point.now (scale_of scale0 scale1 scale2 scale3)
        work.old out.old }
    ensures out_after { out.new
        ≡ fold_out Suffix table.now point.now (scale_of scale0 scale1 scale2 scale3)
        work.old out.old }
{
    let scale = Element {
        c: [scale0, scale1, scale2, scale3],
    };
    let fold = Fold {
        side: Side::Suffix,
        table,
        point,
        scale,
    };
    table::answer(fold.compress(work, out))
}
