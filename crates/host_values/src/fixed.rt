// Fixing a variable: the count of entries that remain is lent. A function for each operation: the C interface needs it.
ghost use Rattle.std.specs.Prelude.{◌≡◌, [], ◌∷◌};
ghost use Rattle.fixing.specs.Fixing.{Prefix, Suffix, Monomial, fix_answer, fix_out, sum_answer, sum_out};
ghost use Rattle.host_answers.specs.Host.{element_of, answered, shown};

use field::Element;

#[unsafe(no_mangle)]
pub extern "C" fn host_fix_prefix_var_mut(
    r0: u32,
    r1: u32,
    r2: u32,
    r3: u32,
    table: &mut [u32],
    count: &mut usize,
) -> u32
    ensures table_after { table.new ≡ fix_out Prefix table.old (element_of r0 r1 r2 r3) }
    ensures count_after { answered result (count.new ∷ [])
        ≡ shown (fix_answer table.old (element_of r0 r1 r2 r3)) (count.old ∷ []) }
{
    let r = Element {
        c: [r0, r1, r2, r3],
    };
    host_answers::give(fixing::fix_prefix_var_mut(table, r), count)
}

#[unsafe(no_mangle)]
pub extern "C" fn host_fix_suffix_var_mut(
    r0: u32,
    r1: u32,
    r2: u32,
    r3: u32,
    table: &mut [u32],
    count: &mut usize,
) -> u32
    ensures table_after { table.new ≡ fix_out Suffix table.old (element_of r0 r1 r2 r3) }
    ensures count_after { answered result (count.new ∷ [])
        ≡ shown (fix_answer table.old (element_of r0 r1 r2 r3)) (count.old ∷ []) }
{
    let r = Element {
        c: [r0, r1, r2, r3],
    };
    host_answers::give(fixing::fix_suffix_var_mut(table, r), count)
}

#[unsafe(no_mangle)]
pub extern "C" fn host_fix_prefix_var_mut_monomial(
    r0: u32,
    r1: u32,
    r2: u32,
    r3: u32,
    table: &mut [u32],
    count: &mut usize,
) -> u32
    ensures table_after { table.new ≡ fix_out Monomial table.old (element_of r0 r1 r2 r3) }
    ensures count_after { answered result (count.new ∷ [])
        ≡ shown (fix_answer table.old (element_of r0 r1 r2 r3)) (count.old ∷ []) }
{
    let r = Element {
        c: [r0, r1, r2, r3],
    };
    host_answers::give(fixing::fix_prefix_var_mut_monomial(table, r), count)
}

#[unsafe(no_mangle)]
pub extern "C" fn host_sum_prefix_var_mut(table: &mut [u32], count: &mut usize) -> u32
    ensures table_after { table.new ≡ sum_out table.old }
    ensures count_after { answered result (count.new ∷ []) ≡ shown (sum_answer table.old) (count.old ∷ []) }
{
    host_answers::give(fixing::sum_prefix_var_mut(table), count)
}
