// The examples on fixing: the table of f = 1, 4, 9, 16.
use field::Element;
use print::remaining;
use std::io;

const F: [u32; 16] = [1, 0, 0, 0, 4, 0, 0, 0, 9, 0, 0, 0, 16, 0, 0, 0];

pub fn run(rt: &impl Print) -> io::Result<()> {
    let mut table = F;
    let entries = fixing::fix_prefix_var_mut(&mut table, Element::from_base(2));
    println!(rt;
        "f fixed by 2 at the first variable: {}",
        remaining(entries, &table)
    )?;
    let mut table = F;
    let entries = fixing::fix_suffix_var_mut(&mut table, Element::from_base(2));
    println!(rt;
        "f fixed by 2 at the last variable: {}",
        remaining(entries, &table)
    )?;
    let mut table = F;
    let entries = fixing::fix_prefix_var_mut_monomial(&mut table, Element::from_base(2));
    println!(rt; "f fixed by 2, monomial: {}", remaining(entries, &table))?;
    let mut table = F;
    let entries = fixing::sum_prefix_var_mut(&mut table);
    println!(rt; "f summed: {}", remaining(entries, &table))?;
    constant(rt)
}

// A constant is refused, and comes back from a sum.
fn constant(rt: &impl Print) -> io::Result<()> {
    let mut seven = [7, 0, 0, 0];
    let entries = fixing::fix_prefix_var_mut(&mut seven, Element::from_base(2));
    println!(rt; "a constant fixed: {}", remaining(entries, &seven))?;
    let entries = fixing::sum_prefix_var_mut(&mut seven);
    println!(rt; "a constant summed: {}", remaining(entries, &seven))
}
