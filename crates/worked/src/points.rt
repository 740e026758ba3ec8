// The examples on points: z = (2, 3).
use field::Element;
use point::equality;
use print::{Answer, filled};
use std::io;

const Z: [u32; 8] = [2, 0, 0, 0, 3, 0, 0, 0];

// Words that every call overwrites, or keeps where it is refused.
const ROOM: [u32; 16] = [7; 16];

pub fn run(rt: &impl Print) -> io::Result<()> {
    vertices(rt)?;
    tables(rt)?;
    empty(rt)?;
    pairs(rt)?;
    batch(rt)?;
    limits(rt)
}

fn vertices(rt: &impl Print) -> io::Result<()> {
    println!(rt;
        "vertex 3 of z: {}",
        Answer(equality::equality_at_vertex(&Z, 3))
    )?;
    println!(rt;
        "vertex 4 of z: {}",
        Answer(equality::equality_at_vertex(&Z, 4))
    )
}

fn tables(rt: &impl Print) -> io::Result<()> {
    let mut out = ROOM;
    let answer = equality::equality_weights_msb(&Z, &mut out);
    println!(rt; "eq of z: {}", filled(answer, &out))?;
    let answer = equality::equality_weights_lsb(&Z, &mut out);
    println!(rt; "eq of z, lowest bit first: {}", filled(answer, &out))?;
    let answer = poly::new_next_from_point(&Z, &mut out);
    println!(rt; "next table of z: {}", filled(answer, &out))
}

// The empty point, with scale 5.
fn empty(rt: &impl Print) -> io::Result<()> {
    let mut out = [7u32; 4];
    let answer = poly::new_from_point(&[], Element::from_base(5), &mut out);
    println!(rt; "eq of the empty point, scale 5: {}", filled(answer, &out))?;
    let answer = poly::new_next_from_point(&[], &mut out);
    println!(rt; "its next table: {}", filled(answer, &out))
}

fn pairs(rt: &impl Print) -> io::Result<()> {
    let other = [5, 0, 0, 0, 7, 0, 0, 0];
    println!(rt;
        "eval_eq of z and (5, 7): {}",
        Answer(next::eval_eq(&Z, &other))
    )?;
    println!(rt;
        "eval_next of z and (5, 7): {}",
        Answer(next::eval_next(&Z, &other))
    )?;
    println!(rt;
        "eval_select(3, z): {}",
        Answer(point::select::eval_select(3, &Z))
    )
}

// z and (0, 1) with scalars 1 and 10: a row for each variable, a column for each point.
fn batch(rt: &impl Print) -> io::Result<()> {
    let points = [2, 0, 0, 0, 0, 0, 0, 0, 3, 0, 0, 0, 1, 0, 0, 0];
    let scalars = [1, 0, 0, 0, 10, 0, 0, 0];
    let mut out = ROOM;
    let answer = eq_batch::eval_eq_batch(2, &points, &scalars, &mut out);
    println!(rt;
        "batch of z and (0, 1) with 1 and 10: {}",
        filled(answer, &out)
    )
}

// A word p - 1 passes, p is 5; 20 coordinates pass, 21 are 3.
fn limits(rt: &impl Print) -> io::Result<()> {
    let last = [Element::MODULUS - 1, 0, 0, 0];
    let beyond = [Element::MODULUS, 0, 0, 0];
    println!(rt;
        "vertex 1 of (p - 1): {}",
        Answer(equality::equality_at_vertex(&last, 1))
    )?;
    println!(rt;
        "vertex 1 of (p): {}",
        Answer(equality::equality_at_vertex(&beyond, 1))
    )?;
    println!(rt;
        "vertex 0 of 20 zeros: {}",
        Answer(equality::equality_at_vertex(&[0; 80], 0))
    )?;
    println!(rt;
        "vertex 0 of 21 zeros: {}",
        Answer(equality::equality_at_vertex(&[0; 84], 0))
    )
}
