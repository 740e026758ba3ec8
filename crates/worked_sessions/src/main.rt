// Document 01's listing as a session: f = 1, 4, 9, 16 in pieces at the point (2), prefix side, next weight, with refused calls among the
// feeds. Each call is made by value, and again on a session that is lent. A line for each has both answers.
#![tactic(auto)]

use field::Element;
use ledger::Session;
use multilinear::{Side, Weight};
use print::Elements;
use std::io;
use table::Refusal;

const POINT: [u32; 4] = [2, 0, 0, 0];

// The session by value and the one that is lent, and out of each.
#[derive(Drop)]
struct Both<'a> {
    plain: Session,
    lent: Session,
    out: &'a mut [u32],
    again: &'a mut [u32],
}

fn main(rt: HostRuntime) -> io::Result<()> {
    listing(&rt)?;
    unopened(&rt)
}

fn listing(rt: &impl Print) -> io::Result<()> {
    let mut out = [7u32; 8];
    let mut again = [7u32; 8];
    let mut s = opened(rt, "a session of 4 words", &mut out, &mut again)?;
    s.fed(rt, "feed 1", &[1])?;
    s.fed(rt, "feed 4, p", &[4, Element::MODULUS])?;
    s.closed(rt, "close")?;
    s.fed(rt, "feed 4, 9", &[4, 9])?;
    s.fed(rt, "feed 16, 1", &[16, 1])?;
    s.fed(rt, "feed 16", &[16])?;
    s.closed(rt, "close")?;
    s.closed(rt, "close")?;
    s.fed(rt, "feed 16", &[16])?;
    s.plain.taken = 5;
    s.lent.taken = 5;
    s.closed(rt, "close with 5 words taken")?;
    s.left(rt)
}

// An open that is refused, since out has one element and not two: every call on what it gives is refused too, and out keeps its words.
fn unopened(rt: &impl Print) -> io::Result<()> {
    let mut out = [7u32; 4];
    let mut again = [7u32; 4];
    let mut s = opened(
        rt,
        "a session with an out of one element",
        &mut out,
        &mut again,
    )?;
    s.fed(rt, "feed 1, 4", &[1, 4])?;
    s.closed(rt, "close")?;
    s.left(rt)
}

fn opened<'a>(
    rt: &impl Print,
    call: &str,
    out: &'a mut [u32],
    again: &'a mut [u32],
) -> io::Result<Both<'a>> {
    let one = Element::one();
    let plain = session::open(2, 1, Side::Prefix, Weight::Next, one, &POINT, out);
    let lent = session::open(2, 1, Side::Prefix, Weight::Next, one, &POINT, again);
    told(rt, call, plain, lent)?;
    Ok(Both {
        plain: plain.unwrap_or(session::no_session()),
        lent: lent.unwrap_or(session::no_session()),
        out,
        again,
    })
}

impl Both<'_> {
    fn fed(&mut self, rt: &impl Print, call: &str, piece: &[u32]) -> io::Result<()> {
        let plain = session::feed(self.plain, piece, self.out);
        let lent = lent::feed_through(self.lent, piece, self.again);
        told(rt, call, plain, lent)?;
        self.plain = plain.unwrap_or(self.plain);
        self.lent = lent.unwrap_or(self.lent);
        Ok(())
    }

    fn closed(&mut self, rt: &impl Print, call: &str) -> io::Result<()> {
        let plain = session::close(self.plain, self.out);
        let lent = lent::close_through(self.lent, self.again);
        told(rt, call, plain, lent)?;
        self.plain = plain.unwrap_or(self.plain);
        self.lent = lent.unwrap_or(self.lent);
        Ok(())
    }

    // Both outs.
    fn left(&self, rt: &impl Print) -> io::Result<()> {
        println!(rt;
            "out: {}, lent: {}",
            Elements(self.out),
            Elements(self.again)
        )
    }
}

// What a call answered, by value and lent.
fn told(
    rt: &impl Print,
    call: &str,
    plain: Result<Session, Refusal>,
    lent: Result<Session, Refusal>,
) -> io::Result<()> {
    let plain = table::answer(plain.map(|_| ()));
    let lent = table::answer(lent.map(|_| ()));
    println!(rt; "{call}: {plain}, lent: {lent}")
}
