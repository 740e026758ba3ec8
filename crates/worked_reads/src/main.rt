// Sums shown while rows arrive: reads of document 01's listing, f = 1, 4, 9, 16 at the point (2), prefix side, next weight, before, between
// and after its feeds, refused ones among them; of a session whose open was refused; and of a table whose rows come one by one.
#![tactic(auto)]

use field::Element;
use ledger::Session;
use multilinear::{Side, Weight};
use print::Answer;
use std::io;

fn main(rt: HostRuntime) -> io::Result<()> {
    reading(&rt)?;
    unopened(&rt)?;
    arriving(&rt)
}

// Place 2 is not there; after close reads go on.
fn reading(rt: &impl Print) -> io::Result<()> {
    let mut out = [7u32; 8];
    let s = opened(2, Weight::Next, &[2, 0, 0, 0], &mut out);
    seen(rt, "read place 1 of no words", s, 1, &out)?;
    let s = session::feed(s, &[1, 4, 9], &mut out).unwrap_or(s);
    seen(rt, "read place 0 of 1, 4, 9", s, 0, &out)?;
    seen(rt, "read place 1 of 1, 4, 9", s, 1, &out)?;
    seen(rt, "read place 2 of 1, 4, 9", s, 2, &out)?;
    let s = session::feed(s, &[16], &mut out).unwrap_or(s);
    let s = session::close(s, &out).unwrap_or(s);
    seen(rt, "read place 1 after close", s, 1, &out)?;
    seen(rt, "read place 2 after close", s, 2, &out)?;
    damaged(rt, s, &out)
}

// Reads of an out that is too short, of one with a word that is not below p, and of a session with more words than its table.
fn damaged(rt: &impl Print, s: Session, out: &[u32]) -> io::Result<()> {
    let short = [9, 0, 0, 0];
    let unreduced = [9, 0, 0, 0, 16, 0, 0, Element::MODULUS];
    seen(rt, "read place 2 of an out of one element", s, 2, &short)?;
    seen(
        rt,
        "read place 2 of an out that ends in p",
        s,
        2,
        &unreduced,
    )?;
    let broken = Session { taken: 5, ..s };
    seen(rt, "read place 2 with 5 words taken", broken, 2, out)
}

// An open that is refused, since out has one element and not two.
fn unopened(rt: &impl Print) -> io::Result<()> {
    let mut out = [7u32; 4];
    let s = opened(2, Weight::Next, &[2, 0, 0, 0], &mut out);
    seen(rt, "read place 0 after a refused open", s, 0, &out)
}

// Four rows of two words at the point (2, 3), whose weights are 2, -3, -4, 6: place 0 after each row.
fn arriving(rt: &impl Print) -> io::Result<()> {
    let mut out = [7u32; 8];
    let mut s = opened(3, Weight::Plain, &[2, 0, 0, 0, 3, 0, 0, 0], &mut out);
    for row in [[1, 2], [3, 4], [5, 6], [7, 8]] {
        s = session::feed(s, &row, &mut out).unwrap_or(s);
        let [a, b] = row;
        println!(rt;
            "place 0 after row {a}, {b}: {}",
            Answer(session::read(s, 0, &out))
        )?;
    }
    Ok(())
}

fn opened(n: usize, weight: Weight, point: &[u32], out: &mut [u32]) -> Session {
    let one = Element::one();
    session::open(n, 1, Side::Prefix, weight, one, point, out).unwrap_or(session::no_session())
}

fn seen(rt: &impl Print, call: &str, s: Session, place: usize, out: &[u32]) -> io::Result<()> {
    println!(rt; "{call}: {}", Answer(session::read(s, place, out)))
}
