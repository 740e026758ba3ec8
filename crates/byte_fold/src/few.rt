// Sections of two rows or four, whose words are one block: each element is made by the weights of all rows, and its bytes are written at once.
ghost use Rattle.std.specs.Prelude.{◌≡◌, ◌*◌, ◌<◌, ◌≤◌, length};
ghost use Rattle.octets.specs.Octets.{words, octets};
ghost use Rattle.field.specs.Field.{field, base};
ghost use Rattle.table.specs.Table.{entries, table_words};
ghost use Rattle.lowering.specs.Lowering.{unit_inverse};
ghost use Rattle.kernel.specs.Kernel.{Groups, Weights, rows_at, words_at};
ghost use Rattle.plan.specs.Plan.{rows, width, fold_of};
ghost use Rattle.plan.specs.Sound.{Fills};

use field::Element;
use kernel::steps::{self, Strided};
use multilinear::Side;
use plan::Plan;

// out becomes the bytes of the fold of a table of N rows. On the prefix side a row's words stand together, on the suffix side a place's.
pub fn by_weights<const N: usize>(plan: &Plan, table: &[u32], out: &mut [u8])
    requires fills { Fills plan.now table.now (words out.old) × (length out.old ≡ 16 * width plan.now) }
    requires rows { N ≡ rows plan.now }
    requires few { (0 < N) × (N ≤ 4) }
    ensures { out.new ≡ octets (fold_of plan.now table.now) }
{
    let block = weigh::block_of::<{ weigh::SMALL_BLOCK_WORDS }>(plan.point(), plan.k, plan.scale);
    let weights = piece::few_rows::weights_of::<N>(&block, plan.weight);
    let raised = steps::raised_apart(weights);
    match plan.side {
        Side::Prefix => put_rows(table, raised, out),
        Side::Suffix => put_groups(table, raised, out),
    }
}

// The bytes of each place's N words, which stand together, by weights that were made 2^32 times as large.
fn put_groups<const N: usize>(table: &[u32], raised: [Element; N], out: &mut [u8])
    requires groups { Groups N 0 (entries (words out.old)) (words out.old) table.now × (length out.old ≡ 16 * entries (words out.old)) }
    requires weights { Weights N raised }
    ensures { out.new ≡ octets (table_words (entries (words out.old))
        (λ i. field.mul (words_at N raised.entry table.now i) (base unit_inverse))) }
{
    // By number, as `kernel::set_groups`.
    for i in 0..out.len() / 16 {
        let group = Strided {
            first: N * i,
            apart: 1,
        };
        let value = steps::lowered(raised, table, group);
        octets::encode(&value.c, &mut out[16 * i..16 * i + 16]);
    }
}

// The same of words of N rows.
fn put_rows<const N: usize>(table: &[u32], raised: [Element; N], out: &mut [u8])
    requires groups { Groups N 0 (entries (words out.old)) (words out.old) table.now × (length out.old ≡ 16 * entries (words out.old)) }
    requires weights { Weights N raised }
    ensures { out.new ≡ octets (table_words (entries (words out.old))
        (λ i. field.mul (rows_at N raised.entry (entries (words out.old)) table.now i) (base unit_inverse))) }
{
    let n = out.len() / 16;
    // By number, as `kernel::set_rows`.
    for i in 0..n {
        let column = Strided { first: i, apart: n };
        let value = steps::lowered(raised, table, column);
        octets::encode(&value.c, &mut out[16 * i..16 * i + 16]);
    }
}
