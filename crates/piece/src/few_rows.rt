// Whole tables of two rows or four: each element of out is set by the weights of all rows, and not read.
ghost use Rattle.std.specs.Prelude.{◌≡◌, false, ◌*◌, ◌<◌, ◌≤◌, length};
ghost use Rattle.algebra.specs.Words.{unreduced};
ghost use Rattle.field.specs.Field.{p};
ghost use Rattle.plan.specs.Plan.{rows, fold_of};
ghost use Rattle.plan.specs.Sound.{Fills};
ghost use Rattle.piece.specs.Inner.{RowWeights};

use crate::own;
use field::Element;
use multilinear::{Side, Weight};
use plan::Plan;

// out becomes the fold of a table of N rows. On the prefix side a row's words stand together, on the suffix side a place's.
pub fn by_weights<const N: usize>(plan: &Plan, table: &[u32], out: &mut [u32])
    requires fills { Fills plan.now table.now out.old }
    requires rows { N ≡ rows plan.now }
    requires few { (0 < N) × (N ≤ 4) }
    ensures { out.new ≡ fold_of plan.now table.now }
{
    let block = weigh::block_of::<{ weigh::SMALL_BLOCK_WORDS }>(plan.point(), plan.k, plan.scale);
    let weights = weights_of::<N>(&block, plan.weight);
    match plan.side {
        Side::Prefix => kernel::set_rows(out, table, weights),
        Side::Suffix => kernel::set_groups(out, table, weights),
    }
}

// The weights of N rows: as the rows are moved, and at the own row the last element of the block's table beside that.
pub fn weights_of<const N: usize>(block: &[u32], weight: Weight) -> [Element; N]
    requires few { (0 < N) × (N ≤ 4) }
    requires block { (4 * N ≤ length block.now) × (unreduced p block.now ≡ false) }
    ensures { RowWeights N block.now weight result }
{
    let mut weights = moved::weights_of::<N>(block, moved::skip_of(weight));
    if let Some(row) = own::own_row(weight, N) {
        weights[row] = weights[row].add(table::read(block, N - 1));
    }
    weights
}
