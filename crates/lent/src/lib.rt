// The session lent: feed and close, which leave the session where it stands. Document 01 asks for them beside those by value.
#![tactic(auto)]

ghost use Rattle.std.specs.Prelude.{◌≡◌};
ghost use Rattle.table.specs.Refusals.{answer};
ghost use Rattle.ledger.specs.Session.{state, feed_step, close_step};
ghost use Rattle.session.specs.Settled.{settled};

use ledger::Session;
use table::Refusal;

// Adds scale weight word to each word's place, and counts the words.
pub fn feed(s: &mut Session, piece: &[u32], out: &mut [u32]) -> Result<(), Refusal>
    ensures { (answer result, state s.new out.new)
        ≡ feed_step (state s.old out.old) piece.now }
{
    let was = *s;
    let fed = session::feed(was, piece, out)?;
    s.taken = fed.taken;
    Ok(())
}

// Marks the session closed.
pub fn close(s: &mut Session, out: &[u32]) -> Result<(), Refusal>
    ensures { (answer result, state s.new out.now)
        ≡ close_step (state s.old out.now) }
{
    let was = *s;
    let closed = session::close(was, out)?;
    s.closed = closed.closed;
    Ok(())
}

// The lent feed, for a caller that holds the session by value. Its contract is that of `session::feed`, and `worked_sessions` runs the two
// side by side.
pub fn feed_through(s: Session, piece: &[u32], out: &mut [u32]) -> Result<Session, Refusal>
    ensures { settled result s out.new ≡ feed_step (state s out.old) piece.now }
{
    let mut t = s;
    feed(&mut t, piece, out)?;
    Ok(t)
}

// The lent close, for a caller that holds the session by value: as `feed_through`.
pub fn close_through(s: Session, out: &[u32]) -> Result<Session, Refusal>
    ensures { settled result s out.now ≡ close_step (state s out.now) }
{
    let mut t = s;
    close(&mut t, out)?;
    Ok(t)
}
