// Document 01's worked examples on values and folds: f = 1, 4, 9, 16; z = (2, 3); and the corners, with scale 5.
#![tactic(auto)]

use field::Element;
use print::{Answer, Elements, filled};
use split_eq::{fold, scalar, value};
use std::io;

const F: [u32; 4] = [1, 4, 9, 16];

const Z: [u32; 8] = [2, 0, 0, 0, 3, 0, 0, 0];

fn main(rt: HostRuntime) -> io::Result<()> {
    values(&rt)?;
    prefix(&rt)?;
    suffix(&rt)?;
    constant(&rt)?;
    one_variable(&rt)?;
    weights(&rt)
}

fn values(rt: &impl Print) -> io::Result<()> {
    let mut work = [7u32; 16];
    println!(rt; "f at z: {}", Answer(poly::value::eval_base(&F, &Z)))?;
    println!(rt;
        "next value of f at z: {}",
        Answer(poly::value::eval_next_base(&F, &Z))
    )?;
    let answer = value::eval_base(&F, &Z, Element::from_base(5), &mut work);
    println!(rt; "f at z, scale 5: {}", Answer(answer))?;
    println!(rt; "its work: {}", Elements(&work))
}

fn prefix(rt: &impl Print) -> io::Result<()> {
    let point = [2, 0, 0, 0];
    let mut work = [7u32; 12];
    let mut out = [7u32; 8];
    let answer = fold::compress_prefix(&F, &point, Element::from_base(1), &mut work, &mut out);
    println!(rt; "f folded at (2), prefix: {}", filled(answer, &out))?;
    let answer = fold::compress_prefix_shifted(
        &F,
        &point,
        Element::from_base(1),
        &mut work,
        &mut out,
    );
    println!(rt; "shifted: {}", filled(answer, &out))
}

fn suffix(rt: &impl Print) -> io::Result<()> {
    let point = [3, 0, 0, 0];
    let mut work = [7u32; 12];
    let mut out = [7u32; 8];
    let answer = fold::compress_suffix(&F, &point, Element::from_base(1), &mut work, &mut out);
    println!(rt; "f folded at (3), suffix: {}", filled(answer, &out))?;
    let answer = fold::compress_suffix_shifted(
        &F,
        &point,
        Element::from_base(1),
        &mut work,
        &mut out,
    );
    println!(rt; "shifted: {}", filled(answer, &out))
}

// Empty point, table 7: the values are 7 without the scale, the prefix fold is 35, a shifted fold is 0.
fn constant(rt: &impl Print) -> io::Result<()> {
    let seven = [7u32; 1];
    let mut work = [7u32; 8];
    let mut out = [7u32; 4];
    let answer = value::eval_base(&seven, &[], Element::from_base(5), &mut work);
    println!(rt; "a constant, scale 5: {}", Answer(answer))?;
    let answer = value::eval_next_base(&seven, &[], Element::from_base(5), &mut work);
    println!(rt; "its next value: {}", Answer(answer))?;
    println!(rt; "its work: {}", Elements(&work))?;
    let answer = fold::compress_prefix(&seven, &[], Element::from_base(5), &mut work, &mut out);
    println!(rt; "its prefix fold: {}", filled(answer, &out))?;
    let answer = fold::compress_prefix_shifted(
        &seven,
        &[],
        Element::from_base(5),
        &mut work,
        &mut out,
    );
    println!(rt; "shifted: {}", filled(answer, &out))
}

// One variable, scale 5, table 1, 4: the next value is 4.
fn one_variable(rt: &impl Print) -> io::Result<()> {
    let point = [2, 0, 0, 0];
    let mut work = [7u32; 12];
    let answer = value::eval_next_base(&[1, 4], &point, Element::from_base(5), &mut work);
    println!(rt; "next value of 1, 4 at (2), scale 5: {}", Answer(answer))
}

fn weights(rt: &impl Print) -> io::Result<()> {
    let mut work = [7u32; 16];
    let mut out = [1u32; 16];
    let answer = scalar::last_scalar(&Z, Element::from_base(5), &mut work);
    println!(rt; "last weight of z, scale 5: {}", Answer(answer))?;
    let answer = scalar::accumulate_into(
        &Z,
        Element::from_base(5),
        Element::from_base(2),
        &mut work,
        &mut out,
    );
    println!(rt;
        "ones gain 5 times 2 times eq of z: {}",
        filled(answer, &out)
    )
}
