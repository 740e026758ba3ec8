// A dose table of eight rows as one session of four columns, limit, unit, route and review hour: fed in pieces that end within a row, read
// meanwhile, and beside it a session for each column alone, which leaves the same element. Then calls that columns refuse.
#![tactic(auto)]

use field::Element;
use ledger::Session;
use multilinear::{Side, Weight};
use print::{Answer, Elements};
use std::io;
use table::Refusal;

// Limit in micrograms, unit, route, review hour.
const DOSES: [[u32; 4]; 8] = [
    [500, 1, 2, 492_120],
    [750, 1, 2, 492_120],
    [40, 3, 1, 492_264],
    [250, 1, 4, 492_300],
    [125, 1, 4, 492_300],
    [15, 2, 2, 492_816],
    [1_000, 1, 1, 493_560],
    [60, 3, 2, 494_000],
];

// A point of three coordinates: a table of eight rows, of one place each.
const POINT: [u32; 12] = [2, 0, 0, 0, 3, 0, 0, 0, 5, 0, 0, 1];

fn main(rt: HostRuntime) -> io::Result<()> {
    together(&rt)?;
    alone(&rt, "limit", DOSES.map(|[limit, _, _, _]| limit))?;
    alone(&rt, "unit", DOSES.map(|[_, unit, _, _]| unit))?;
    alone(&rt, "route", DOSES.map(|[_, _, route, _]| route))?;
    alone(&rt, "hour", DOSES.map(|[_, _, _, hour]| hour))?;
    refused(&rt)
}

// All columns in one pass. Place 3 is the column of hours.
fn together(rt: &impl Print) -> io::Result<()> {
    let mut out = [7u32; 16];
    let s = opened(4, &mut out);
    let s = fed(rt, s, &[500, 1, 2, 492_120, 750, 1], &mut out)?;
    let s = fed(rt, s, &[2], &mut out)?;
    let s = fed(
        rt,
        s,
        &[492_120, 40, 3, 1, 492_264, 250, 1, 4, 492_300, 125, 1, 4],
        &mut out,
    )?;
    let s = fed(
        rt,
        s,
        &[492_300, 15, 2, 2, 492_816, 1_000, 1, 1, 493_560],
        &mut out,
    )?;
    told(rt, "close with a row missing", session::close(s, &out))?;
    told(
        rt,
        "feed 60, 3, 2, 494000, 0",
        session::feed(s, &[60, 3, 2, 494_000, 0], &mut out),
    )?;
    let s = fed(rt, s, &[60, 3, 2, 494_000], &mut out)?;
    let s = session::close(s, &out).unwrap_or(s);
    println!(rt; "read place 4: {}", Answer(session::read(s, 4, &out)))?;
    println!(rt; "limit, unit, route, hour: {}", Elements(&out))
}

// One column by a session of its own.
fn alone(rt: &impl Print, name: &str, column: [u32; 8]) -> io::Result<()> {
    let mut out = [7u32; 4];
    let s = opened(1, &mut out);
    let s = session::feed(s, &column, &mut out).unwrap_or(s);
    told(rt, name, session::close(s, &out))?;
    println!(rt; "{name} alone: {}", Elements(&out))
}

// Numbers of columns that no session has, and what comes before and after them.
fn refused(rt: &impl Print) -> io::Result<()> {
    let mut out = [7u32; 16];
    let one = Element::one();
    let (plain, point) = (Weight::Plain, &POINT);
    told(
        rt,
        "no columns",
        session::open(3, 0, Side::Prefix, plain, one, point, &mut out),
    )?;
    told(
        rt,
        "17 columns",
        session::open(3, 17, Side::Prefix, plain, one, point, &mut out),
    )?;
    told(
        rt,
        "17 columns of 2^21 rows",
        session::open(21, 17, Side::Prefix, plain, one, point, &mut out),
    )?;
    told(
        rt,
        "17 columns of 2^2 rows",
        session::open(2, 17, Side::Prefix, plain, one, point, &mut out),
    )?;
    told(
        rt,
        "4 columns of 2^2 rows",
        session::open(2, 4, Side::Prefix, plain, one, point, &mut out),
    )?;
    told(
        rt,
        "5 columns",
        session::open(3, 5, Side::Prefix, plain, one, point, &mut out),
    )?;
    told(
        rt,
        "4 columns on the suffix side",
        session::open(3, 4, Side::Suffix, plain, one, point, &mut out),
    )?;
    let mut broken = opened(4, &mut out);
    broken.plan.columns = 0;
    told(
        rt,
        "close of a session without columns",
        session::close(broken, &out),
    )
}

fn opened(columns: usize, out: &mut [u32]) -> Session {
    let one = Element::one();
    session::open(3, columns, Side::Prefix, Weight::Next, one, &POINT, out).unwrap_or(
        session::no_session(),
    )
}

// The session fed, and the sum over the hours that have come.
fn fed(rt: &impl Print, s: Session, piece: &[u32], out: &mut [u32]) -> io::Result<Session> {
    let s = session::feed(s, piece, out).unwrap_or(s);
    println!(rt;
        "hours after {} words: {}",
        s.taken,
        Answer(session::read(s, 3, out))
    )?;
    Ok(s)
}

// What a call answered.
fn told(rt: &impl Print, call: &str, given: Result<Session, Refusal>) -> io::Result<()> {
    println!(rt; "{call}: {}", table::answer(given.map(|_| ())))
}
