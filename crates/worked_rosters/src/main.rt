// A duty roster of eight rows that comes round: the last row is followed by the first. The cyclic fold of who is on duty is the plain fold of
// who comes next, in one call and in a session; on next weight the last row follows itself, and the two differ. Then the cyclic weights
// themselves, and what is refused.
#![tactic(auto)]

use field::Element;
use ledger::Session;
use multilinear::{Side, Weight};
use print::{Answer, Elements, filled};
use split_eq::fold;
use std::io;

// Who is on duty, and the hour of the week at which they begin: eight times 21 hours.
const ON_DUTY: [u32; 8] = [31, 12, 45, 27, 53, 18, 64, 22];

const HOURS: [u32; 8] = [0, 21, 42, 63, 84, 105, 126, 147];

// Who relieves them: the eighth is relieved by the first.
const RELIEFS: [u32; 8] = [12, 45, 27, 53, 18, 64, 22, 31];

// A point of three coordinates, and the row of the eighth as a point.
const POINT: [u32; 12] = [2, 0, 0, 0, 3, 0, 0, 0, 5, 0, 0, 1];

const LAST: [u32; 12] = [1, 0, 0, 0, 1, 0, 0, 0, 1, 0, 0, 0];

fn main(rt: HostRuntime) -> io::Result<()> {
    reliefs(&rt)?;
    places(&rt)?;
    columns(&rt)?;
    weights(&rt)?;
    at_second_point(&rt)?;
    refused(&rt)
}

// On duty by the cyclic weights, and the reliefs by the plain ones.
fn reliefs(rt: &impl Print) -> io::Result<()> {
    println!(rt;
        "relief of the eighth: {}",
        Answer(poly::value::eval_cyclic_base(&ON_DUTY, &LAST))
    )?;
    println!(rt;
        "on next weight: {}",
        Answer(poly::value::eval_next_base(&ON_DUTY, &LAST))
    )?;
    println!(rt;
        "on duty, cyclic: {}",
        Answer(poly::value::eval_cyclic_base(&ON_DUTY, &POINT))
    )?;
    println!(rt;
        "reliefs, plain: {}",
        Answer(poly::value::eval_base(&RELIEFS, &POINT))
    )?;
    println!(rt;
        "on duty, next: {}",
        Answer(poly::value::eval_next_base(&ON_DUTY, &POINT))
    )
}

// Two rows of a place on either side, with a scale of 5: on the prefix side rows of four, on the suffix side of their neighbours.
fn places(rt: &impl Print) -> io::Result<()> {
    let (point, scale) = ([2, 0, 0, 0], Element::from_base(5));
    let mut work = [7u32; 12];
    let mut out = [7u32; 16];
    let answer = fold::compress_prefix_cyclic(&ON_DUTY, &point, scale, &mut work, &mut out);
    println!(rt; "halves of the roster: {}", filled(answer, &out))?;
    let answer = fold::compress_suffix_cyclic(&ON_DUTY, &point, scale, &mut work, &mut out);
    println!(rt; "pairs of the roster: {}", filled(answer, &out))?;
    let mut work = [7u32; 8];
    let mut out = [7u32; 32];
    let answer = fold::compress_prefix_cyclic(&ON_DUTY, &[], scale, &mut work, &mut out);
    println!(rt; "no variable folded: {}", filled(answer, &out))
}

// Who is on duty and from which hour, as a session of two columns in pieces that end within a row, and each column by the one-call fold.
fn columns(rt: &impl Print) -> io::Result<()> {
    let mut out = [7u32; 8];
    let s = opened(&mut out);
    let s = fed(rt, s, &[31], &mut out)?;
    let s = fed(rt, s, &[0, 12, 21, 45, 42, 27, 63], &mut out)?;
    let s = fed(rt, s, &[53, 84, 18, 105, 64, 126, 22, 147], &mut out)?;
    let closed = session::close(s, &out).map(|_| ());
    println!(rt; "close: {}", table::answer(closed))?;
    println!(rt; "on duty and hour: {}", Elements(&out))?;
    alone(rt, "on duty", &ON_DUTY)?;
    alone(rt, "hour", &HOURS)
}

// One column by one call.
fn alone(rt: &impl Print, name: &str, column: &[u32]) -> io::Result<()> {
    let mut work = [7u32; 24];
    let mut out = [7u32; 4];
    let scale = Element::from_base(3);
    let answer = fold::compress_prefix_cyclic(column, &POINT, scale, &mut work, &mut out);
    println!(rt; "{name} alone: {}", filled(answer, &out))
}

// The tables of two coordinates, of one, where they are eq turned round, and of none.
fn weights(rt: &impl Print) -> io::Result<()> {
    let mut out = [7u32; 16];
    let answer = poly::new_cyclic_from_point(&POINT[..8], &mut out);
    println!(rt; "cyclic weights of 2, 3: {}", filled(answer, &out))?;
    let mut out = [7u32; 8];
    let answer = poly::new_cyclic_from_point(&POINT[..4], &mut out);
    println!(rt; "of 2: {}", filled(answer, &out))?;
    let mut out = [7u32; 4];
    let answer = poly::new_cyclic_from_point(&[], &mut out);
    println!(rt; "of no coordinate: {}", filled(answer, &out))
}

// The table of 2, 3 at 5, 7: the done and the carry of both points, 144 less 106.
fn at_second_point(rt: &impl Print) -> io::Result<()> {
    let other = [5, 0, 0, 0, 7, 0, 0, 0];
    let mut out = [7u32; 16];
    let answer = poly::new_cyclic_from_point(&POINT[..8], &mut out);
    println!(rt; "filled: {}", table::answer(answer))?;
    println!(rt; "at 5, 7: {}", Answer(poly::value::eval_ext(&out, &other)))?;
    println!(rt;
        "both points: {}",
        Answer(next::eval_next(&POINT[..8], &other))
    )
}

// As their next and shifted fellows.
fn refused(rt: &impl Print) -> io::Result<()> {
    let mut out = [7u32; 12];
    let answer = poly::new_cyclic_from_point(&POINT[..8], &mut out);
    println!(rt; "weights, out of three rows: {}", table::answer(answer))?;
    println!(rt;
        "value, seven rows: {}",
        Answer(poly::value::eval_cyclic_base(&ON_DUTY[..7], &POINT))
    )?;
    let mut work = [7u32; 8];
    let answer = fold::compress_suffix_cyclic(
        &ON_DUTY,
        &POINT,
        Element::one(),
        &mut work,
        &mut out,
    );
    println!(rt; "fold, work of two elements: {}", table::answer(answer))
}

fn opened(out: &mut [u32]) -> Session {
    let scale = Element::from_base(3);
    session::open(3, 2, Side::Prefix, Weight::Cyclic, scale, &POINT, out).unwrap_or(
        session::no_session(),
    )
}

// The session fed, and the sum over who is on duty so far.
fn fed(rt: &impl Print, s: Session, piece: &[u32], out: &mut [u32]) -> io::Result<Session> {
    let s = session::feed(s, piece, out).unwrap_or(s);
    println!(rt;
        "on duty after {} words: {}",
        s.taken,
        Answer(session::read(s, 0, out))
    )?;
    Ok(s)
}
