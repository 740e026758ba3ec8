// Folds: what is left of a table when its first or its last variables are summed against the weights of a point.
//
//     prefix    out[i] = scale sum_y weight[y] table[y inner + i]      a row is `inner` words
//     suffix    out[i] = scale sum_y weight[y] table[i 2^k + y]        a place has 2^k words
//
// A plain weight is eq[y], a shifted one eq[y - 1], and 0 at the first row; a cyclic one is the shifted one, and eq of the last row at the first.
ghost use Rattle.multilinear.specs.declared.Side.TheVariants.{Prefix, Suffix};
ghost use Rattle.multilinear.specs.declared.Weight.TheVariants.{Plain, Shifted, Cyclic};
ghost use Rattle.split_eq.specs.Split.{Compressed};

use field::Element;
use multilinear::{Side, Weight};
use plan::Plan;
use point::Point;
use table::Refusal;

// out[i] = scale sum_y eq[y] table[y inner + i].
// Document 01 names an operation for each side and weight.
pub fn compress_prefix(
    table: &[u32],
    point: &[u32],
    scale: Element,
    work: &mut [u32],
    out: &mut [u32],
) -> Result<(), Refusal>
    ensures { Compressed Prefix Plain table.now point.now scale work.old out.old
        result work.new out.new }
{
    let kind = Kind {
        side: Side::Prefix,
        weight: Weight::Plain,
    };
    compress(kind, table, point, scale, work, out)
}

// out[i] = scale sum_y eq[y] table[i 2^k + y].
pub fn compress_suffix(
    table: &[u32],
    point: &[u32],
    scale: Element,
    work: &mut [u32],
    out: &mut [u32],
) -> Result<(), Refusal>
    ensures { Compressed Suffix Plain table.now point.now scale work.old out.old
        result work.new out.new }
{
    let kind = Kind {
        side: Side::Suffix,
        weight: Weight::Plain,
    };
    compress(kind, table, point, scale, work, out)
}

// out[i] = scale sum_y eq[y - 1] table[y inner + i], over the rows y from 1 on.
pub fn compress_prefix_shifted(
    table: &[u32],
    point: &[u32],
    scale: Element,
    work: &mut [u32],
    out: &mut [u32],
) -> Result<(), Refusal>
    ensures { Compressed Prefix Shifted table.now point.now scale work.old out.old
        result work.new out.new }
{
    let kind = Kind {
        side: Side::Prefix,
        weight: Weight::Shifted,
    };
    compress(kind, table, point, scale, work, out)
}

// out[i] = scale sum_y eq[y - 1] table[i 2^k + y], over the rows y from 1 on.
pub fn compress_suffix_shifted(
    table: &[u32],
    point: &[u32],
    scale: Element,
    work: &mut [u32],
    out: &mut [u32],
) -> Result<(), Refusal>
    ensures { Compressed Suffix Shifted table.now point.now scale work.old out.old
        result work.new out.new }
{
    let kind = Kind {
        side: Side::Suffix,
        weight: Weight::Shifted,
    };
    compress(kind, table, point, scale, work, out)
}

// out[i] = scale sum_y cyclic[y] table[y inner + i]: each row's eq goes to the row after it, and the last row's to the first.
pub fn compress_prefix_cyclic(
    table: &[u32],
    point: &[u32],
    scale: Element,
    work: &mut [u32],
    out: &mut [u32],
) -> Result<(), Refusal>
    ensures { Compressed Prefix Cyclic table.now point.now scale work.old out.old
        result work.new out.new }
{
    let kind = Kind {
        side: Side::Prefix,
        weight: Weight::Cyclic,
    };
    compress(kind, table, point, scale, work, out)
}

// out[i] = scale sum_y cyclic[y] table[i 2^k + y].
pub fn compress_suffix_cyclic(
    table: &[u32],
    point: &[u32],
    scale: Element,
    work: &mut [u32],
    out: &mut [u32],
) -> Result<(), Refusal>
    ensures { Compressed Suffix Cyclic table.now point.now scale work.old out.old
        result work.new out.new }
{
    let kind = Kind {
        side: Side::Suffix,
        weight: Weight::Cyclic,
    };
    compress(kind, table, point, scale, work, out)
}

// What the six folds differ in.
#[derive(Clone, Copy)]
struct Kind {
    side: Side,
    weight: Weight,
}

// work is filled with both tables, and out by the plan of the fold. Six parameters: those of document 01's operation, and the kind; a
// struct of three for this one call is no plainer.
#[tactic(auto, using(table::proofs::Outcomes::outcomes), unfolding(crate::specs::Split::fold_work, crate::specs::Split::fold_out))]
fn compress(
    kind: Kind,
    table: &[u32],
    point: &[u32],
    scale: Element,
    work: &mut [u32],
    out: &mut [u32],
) -> Result<(), Refusal>
    ensures { Compressed kind.side kind.weight table.now point.now scale work.old out.old
        result work.new out.new }
{
    split_tests::of_fold(table, point, scale, work, out)?;
    work::fill(work, Point::of(point), scale);
    let plan = Plan {
        n: table::variables(table.len()),
        k: point.len() / 4,
        columns: 1,
        side: kind.side,
        weight: kind.weight,
        scale,
        coordinates: plan::padded(point),
    };
    piece::fold(plan, table, out);
    Ok(())
}
