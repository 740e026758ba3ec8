// Section by section, on the suffix side: 2^HELD places at a time, each section a fold of its own, of the words of its places.
ghost use Rattle.std.specs.Prelude.{◌≡◌};
ghost use Rattle.multilinear.specs.declared.Side.TheVariants.{Suffix};
ghost use Rattle.plan.specs.Plan.{fold_of};
ghost use Rattle.plan.specs.Sound.{Fills};

use plan::Plan;

// The most places of a section, as variables: 16 KiB of out.
pub const HELD: usize = 10;

// out becomes the fold of the whole table.
pub fn by_sections(plan: &Plan, table: &[u32], out: &mut [u32])
    requires { Fills plan.now table.now out.old × (plan.now.side ≡ Suffix) }
    ensures { out.new ≡ fold_of plan.now table.now }
{
    let held = usize::min(plan.n - plan.k, HELD);
    let places = table::rows(held);
    let words = table::rows(plan.k + held);
    // By number: of the parts that `chunks_exact_mut` lends only their length is known after the loop, and the proof does not close.
    for j in 0..table::rows(plan.n - plan.k - held) {
        let a = words * j;
        let b = a + words;
        let c = 4 * (places * j);
        let d = c + 4 * places;
        crate::fold_whole(&plan.section(held), &table[a..b], &mut out[c..d]);
    }
}
