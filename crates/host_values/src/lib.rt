// Values, fixing, last scalars and split folds for a host program that compares and measures them: words in slices, and 0 or the
// refusal's number. A scale is four numbers, as in the ward's calls; an answer that is one element is an array of four words.
// A function for each operation, side and weight, with its numbers one by one: the C interface needs it.
#![tactic(auto, using(host_answers::proofs::Showing::shown_listed))]

pub mod fixed;

ghost use Rattle.std.specs.Prelude.{◌≡◌};
ghost use Rattle.multilinear.specs.declared.Side.TheVariants.{Prefix, Suffix};
ghost use Rattle.multilinear.specs.declared.Weight.TheVariants.{Plain, Shifted, Cyclic};
ghost use Rattle.poly.specs.Values as poly;
ghost use Rattle.split_tests.specs.SplitTests.{fold_answer, accumulate_answer};
ghost use Rattle.split_eq.specs.Split.{scaled_base_answer, scaled_ext_answer, scaled_next_base_answer, last_answer};
ghost use Rattle.split_eq.specs.Split.{base_work, ext_work, last_work, accumulate_work, accumulate_out, fold_work, fold_out};
ghost use Rattle.host_answers.specs.Host.{element_of, answered, shown};

use field::Element;

#[unsafe(no_mangle)]
pub extern "C" fn host_poly_eval_base(table: &[u32], point: &[u32], out: &mut [u32; 4]) -> u32
    ensures { answered result out.new
        ≡ shown (poly.eval_base_answer table.now point.now) out.old }
{
    host_answers::give_words(poly::value::eval_base(table, point), out)
}

#[unsafe(no_mangle)]
pub extern "C" fn host_poly_eval_ext(table: &[u32], point: &[u32], out: &mut [u32; 4]) -> u32
    ensures { answered result out.new
        ≡ shown (poly.eval_ext_answer table.now point.now) out.old }
{
    host_answers::give_words(poly::value::eval_ext(table, point), out)
}

#[unsafe(no_mangle)]
pub extern "C" fn host_poly_eval_next_base(table: &[u32], point: &[u32], out: &mut [u32; 4]) -> u32
    ensures { answered result out.new
        ≡ shown (poly.eval_next_base_answer table.now point.now) out.old }
{
    host_answers::give_words(poly::value::eval_next_base(table, point), out)
}

#[unsafe(no_mangle)]
pub extern "C" fn host_poly_eval_cyclic_base(
    table: &[u32],
    point: &[u32],
    out: &mut [u32; 4],
) -> u32
    ensures { answered result out.new
        ≡ shown (poly.eval_cyclic_base_answer table.now point.now) out.old }
{
    host_answers::give_words(poly::value::eval_cyclic_base(table, point), out)
}

#[unsafe(no_mangle)]
pub extern "C" fn host_split_eval_base(
    table: &[u32],
    point: &[u32],
    scale0: u32,
    scale1: u32,
    scale2: u32,
    scale3: u32,
    work: &mut [u32],
    out: &mut [u32; 4],
) -> u32
    ensures work_after { work.new
        ≡ base_work table.now point.now (element_of scale0 scale1 scale2 scale3) work.old }
    ensures out_after { answered result out.new ≡ shown (scaled_base_answer table.now point.now
        (element_of scale0 scale1 scale2 scale3) work.old) out.old }
{
    let scale = Element {
        c: [scale0, scale1, scale2, scale3],
    };
    host_answers::give_words(split_eq::value::eval_base(table, point, scale, work), out)
}

#[unsafe(no_mangle)]
pub extern "C" fn host_split_eval_ext(
    table: &[u32],
    point: &[u32],
    scale0: u32,
    scale1: u32,
    scale2: u32,
    scale3: u32,
    work: &mut [u32],
    out: &mut [u32; 4],
) -> u32
    ensures work_after { work.new
        ≡ ext_work table.now point.now (element_of scale0 scale1 scale2 scale3) work.old }
    ensures out_after { answered result out.new ≡ shown (scaled_ext_answer table.now point.now
        (element_of scale0 scale1 scale2 scale3) work.old) out.old }
{
    let scale = Element {
        c: [scale0, scale1, scale2, scale3],
    };
    host_answers::give_words(split_eq::value::eval_ext(table, point, scale, work), out)
}

#[unsafe(no_mangle)]
pub extern "C" fn host_split_eval_next_base(
    table: &[u32],
    point: &[u32],
    scale0: u32,
    scale1: u32,
    scale2: u32,
    scale3: u32,
    work: &mut [u32],
    out: &mut [u32; 4],
) -> u32
    ensures work_after { work.new
        ≡ base_work table.now point.now (element_of scale0 scale1 scale2 scale3) work.old }
    ensures out_after { answered result out.new ≡ shown (scaled_next_base_answer table.now point.now
        (element_of scale0 scale1 scale2 scale3) work.old) out.old }
{
    let scale = Element {
        c: [scale0, scale1, scale2, scale3],
    };
    host_answers::give_words(
        split_eq::value::eval_next_base(table, point, scale, work),
        out,
    )
}

#[unsafe(no_mangle)]
pub extern "C" fn host_last_scalar(
    point: &[u32],
    scale0: u32,
    scale1: u32,
    scale2: u32,
    scale3: u32,
    work: &mut [u32],
    out: &mut [u32; 4],
) -> u32
    ensures work_after { work.new
        ≡ last_work point.now (element_of scale0 scale1 scale2 scale3) work.old }
    ensures out_after { answered result out.new ≡ shown (last_answer point.now
        (element_of scale0 scale1 scale2 scale3) work.old) out.old }
{
    let scale = Element {
        c: [scale0, scale1, scale2, scale3],
    };
    host_answers::give_words(split_eq::scalar::last_scalar(point, scale, work), out)
}

#[unsafe(no_mangle)]
pub extern "C" fn host_accumulate_into(
    point: &[u32],
    scale0: u32,
    scale1: u32,
    scale2: u32,
    scale3: u32,
    given0: u32,
    given1: u32,
    given2: u32,
    given3: u32,
    work: &mut [u32],
    out: &mut [u32],
) -> u32
    ensures value { result ≡ accumulate_answer point.now (element_of scale0 scale1 scale2 scale3)
        (element_of given0 given1 given2 given3) work.old out.old }
    ensures work_after { work.new ≡ accumulate_work point.now (element_of scale0 scale1 scale2 scale3)
        (element_of given0 given1 given2 given3) work.old out.old }
    ensures out_after { out.new ≡ accumulate_out point.now (element_of scale0 scale1 scale2 scale3)
        (element_of given0 given1 given2 given3) work.old out.old }
{
    let scale = Element {
        c: [scale0, scale1, scale2, scale3],
    };
    let given = Element {
        c: [given0, given1, given2, given3],
    };
    table::answer(split_eq::scalar::accumulate_into(point, scale, given, work, out))
}

#[unsafe(no_mangle)]
pub extern "C" fn host_compress_prefix(
    table: &[u32],
    point: &[u32],
    scale0: u32,
    scale1: u32,
    scale2: u32,
    scale3: u32,
    work: &mut [u32],
    out: &mut [u32],
) -> u32
    ensures value { result ≡ fold_answer table.now point.now
        (element_of scale0 scale1 scale2 scale3) work.old out.old }
    ensures work_after { work.new ≡ fold_work table.now point.now
        (element_of scale0 scale1 scale2 scale3) work.old out.old }
    ensures out_after { out.new ≡ fold_out Prefix Plain table.now point.now
        (element_of scale0 scale1 scale2 scale3) work.old out.old }
{
    let scale = Element {
        c: [scale0, scale1, scale2, scale3],
    };
    table::answer(split_eq::fold::compress_prefix(table, point, scale, work, out))
}

#[unsafe(no_mangle)]
pub extern "C" fn host_compress_suffix(
    table: &[u32],
    point: &[u32],
    scale0: u32,
    scale1: u32,
    scale2: u32,
    scale3: u32,
    work: &mut [u32],
    out: &mut [u32],
) -> u32
    ensures value { result ≡ fold_answer table.now point.now
        (element_of scale0 scale1 scale2 scale3) work.old out.old }
    ensures work_after { work.new ≡ fold_work table.now point.now
        (element_of scale0 scale1 scale2 scale3) work.old out.old }
    ensures out_after { out.new ≡ fold_out Suffix Plain table.now point.now
        (element_of scale0 scale1 scale2 scale3) work.old out.old }
{
    let scale = Element {
        c: [scale0, scale1, scale2, scale3],
    };
    table::answer(split_eq::fold::compress_suffix(table, point, scale, work, out))
}

#[unsafe(no_mangle)]
pub extern "C" fn host_compress_prefix_shifted(
    table: &[u32],
    point: &[u32],
    scale0: u32,
    scale1: u32,
    scale2: u32,
    scale3: u32,
    work: &mut [u32],
    out: &mut [u32],
) -> u32
    ensures value { result ≡ fold_answer table.now point.now
        (element_of scale0 scale1 scale2 scale3) work.old out.old }
    ensures work_after { work.new ≡ fold_work table.now point.now
        (element_of scale0 scale1 scale2 scale3) work.old out.old }
    ensures out_after { out.new ≡ fold_out Prefix Shifted table.now point.now
        (element_of scale0 scale1 scale2 scale3) work.old out.old }
{
    let scale = Element {
        c: [scale0, scale1, scale2, scale3],
    };
    table::answer(split_eq::fold::compress_prefix_shifted(table, point, scale, work, out))
}

#[unsafe(no_mangle)]
pub extern "C" fn host_compress_suffix_shifted(
    table: &[u32],
    point: &[u32],
    scale0: u32,
    scale1: u32,
    scale2: u32,
    scale3: u32,
    work: &mut [u32],
    out: &mut [u32],
) -> u32
    ensures value { result ≡ fold_answer table.now point.now
        (element_of scale0 scale1 scale2 scale3) work.old out.old }
    ensures work_after { work.new ≡ fold_work table.now point.now
        (element_of scale0 scale1 scale2 scale3) work.old out.old }
    ensures out_after { out.new ≡ fold_out Suffix Shifted table.now point.now
        (element_of scale0 scale1 scale2 scale3) work.old out.old }
{
    let scale = Element {
        c: [scale0, scale1, scale2, scale3],
    };
    table::answer(split_eq::fold::compress_suffix_shifted(table, point, scale, work, out))
}

#[unsafe(no_mangle)]
pub extern "C" fn host_compress_prefix_cyclic(
    table: &[u32],
    point: &[u32],
    scale0: u32,
    scale1: u32,
    scale2: u32,
    scale3: u32,
    work: &mut [u32],
    out: &mut [u32],
) -> u32
    ensures value { result ≡ fold_answer table.now point.now
        (element_of scale0 scale1 scale2 scale3) work.old out.old }
    ensures work_after { work.new ≡ fold_work table.now point.now
        (element_of scale0 scale1 scale2 scale3) work.old out.old }
    ensures out_after { out.new ≡ fold_out Prefix Cyclic table.now point.now
        (element_of scale0 scale1 scale2 scale3) work.old out.old }
{
    let scale = Element {
        c: [scale0, scale1, scale2, scale3],
    };
    table::answer(split_eq::fold::compress_prefix_cyclic(table, point, scale, work, out))
}

#[unsafe(no_mangle)]
pub extern "C" fn host_compress_suffix_cyclic(
    table: &[u32],
    point: &[u32],
    scale0: u32,
    scale1: u32,
    scale2: u32,
    scale3: u32,
    work: &mut [u32],
    out: &mut [u32],
) -> u32
    ensures value { result ≡ fold_answer table.now point.now
        (element_of scale0 scale1 scale2 scale3) work.old out.old }
    ensures work_after { work.new ≡ fold_work table.now point.now
        (element_of scale0 scale1 scale2 scale3) work.old out.old }
    ensures out_after { out.new ≡ fold_out Suffix Cyclic table.now point.now
        (element_of scale0 scale1 scale2 scale3) work.old out.old }
{
    let scale = Element {
        c: [scale0, scale1, scale2, scale3],
    };
    table::answer(split_eq::fold::compress_suffix_cyclic(table, point, scale, work, out))
}
