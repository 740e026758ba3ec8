// The fold session: a table arrives in pieces, and each is folded as it comes.
#![tactic(auto)]

ghost use Rattle.std.specs.Prelude.{◌≡◌, ◌≤◌, ◌*◌, ◌||◌, drop};
ghost use Rattle.algebra.specs.Words.{unreduced};
ghost use Rattle.field.specs.Field.{p};
ghost use Rattle.multilinear.specs.declared.Weight.TheVariants.{Plain};
ghost use Rattle.table.specs.Refusals.{most, most_columns, answer, outcome, verdict};
ghost use Rattle.ledger.specs.Session.{args, no_session, nonzero, state, open_tests, record_tests, out_tests, read_answer};
ghost use Rattle.ledger.specs.Session.{open_step, feed_answer, feed_step, close_answer, close_step};
ghost use Rattle.session.specs.Settled.{settled};
ghost use Rattle.session.specs.Inner.{ready_tests};

use field::Element;
use ledger::Session;
use multilinear::{Side, Weight};
use plan::Plan;
use table::Refusal;

// A session of a table of n variables at a point, whose rows have so many columns; out is zeroed. Refused, there is none: `no_session`
// stands for it.
//
//     word (y inner + i) c + j       row y, place i, column j, of a table of c 2^n words
//     element i c + j of out         column j of place i
//
// The seven parameters are those of documents 01 and 02.
#[tactic(auto, using(table::proofs::Outcomes::outcomes), unfolding(ledger::specs::Session::open_answer, ledger::specs::Session::open_leaves))]
pub fn open(
    n: usize,
    columns: usize,
    side: Side,
    weight: Weight,
    scale: Element,
    point: &[u32],
    out: &mut [u32],
) -> Result<Session, Refusal>
    ensures { settled result no_session out.new
        ≡ open_step (args n columns side weight scale point.now) out.old }
{
    test_open(n, columns, side, scale, point, out)?;
    table::clear(out);
    Ok(Session {
        plan: Plan {
            n,
            k: point.len() / 4,
            columns,
            side,
            weight,
            scale,
            coordinates: plan::padded(point),
        },
        taken: 0,
        closed: false,
    })
}

// Adds scale weight word to each word's place, and counts the words. Refused, the session is as it was.
#[tactic(auto, using(table::proofs::Outcomes::outcomes), unfolding(ledger::specs::Session::feed_leaves))]
pub fn feed(s: Session, piece: &[u32], out: &mut [u32]) -> Result<Session, Refusal>
    ensures { settled result s out.new ≡ feed_step (state s out.old) piece.now }
{
    test_feed(&s, piece, out)?;
    piece::add(&s.plan, s.taken, piece, out);
    Ok(Session {
        taken: s.taken + piece.len(),
        ..s
    })
}

// Marks the session closed. Refused, it is as it was.
#[tactic(auto, using(table::proofs::Outcomes::outcomes), unfolding(ledger::specs::Session::close_leaves))]
pub fn close(s: Session, out: &[u32]) -> Result<Session, Refusal>
    ensures { settled result s out.now ≡ close_step (state s out.now) }
{
    test_close(&s, out)?;
    Ok(Session { closed: true, ..s })
}

// The sum of one column of a place, which out has at that number, of the words that have come: scale·weight·word over the rows, a word that
// is missing counting as 0. In an open session and after its close; session and out stay as they are.
#[tactic(auto, using(table::proofs::Outcomes::outcomes), unfolding(ledger::specs::Session::read_answer))]
pub fn read(s: Session, place: usize, out: &[u32]) -> Result<Element, Refusal>
    ensures { outcome result ≡ read_answer (state s out.now) place }
{
    test_read(&s, place, out)?;
    Ok(table::read(out, place))
}

// Of more variables than a table may have, so that every call refuses it with 11: what stands for a session whose open was refused.
#[tactic(auto, unfolding(ledger::specs::Session::no_session))]
pub fn no_session() -> Session
    ensures { result ≡ no_session }
{
    Session {
        plan: Plan {
            n: table::MOST + 1,
            k: 0,
            columns: 1,
            side: Side::Prefix,
            weight: Weight::Plain,
            scale: Element { c: [0, 0, 0, 0] },
            coordinates: plan::padded(&[]),
        },
        taken: 0,
        closed: false,
    }
}

// 1, 3, 15, 4, 5. The parameters are those of `open` but for the weight, which no test reads. A plan of them would have the coordinates padded
// before their count is tested.
#[tactic(auto, using(table::proofs::Verdicts::tests))]
fn test_open(
    n: usize,
    columns: usize,
    side: Side,
    scale: Element,
    point: &[u32],
    out: &[u32],
) -> Result<(), Refusal>
    ensures { answer result ≡ verdict (open_tests (args n columns side Plain scale point.now) out.now) }
{
    let k = point.len() / 4;
    table::refuse_if(table::splits(point), Refusal::Split)?;
    table::refuse_if(table::splits(out), Refusal::Split)?;
    table::refuse_if(table::MOST < n, Refusal::TooMany)?;
    table::refuse_if(table::too_many(point), Refusal::TooMany)?;
    table::refuse_if(columns < 1, Refusal::Columns)?;
    table::refuse_if(plan::most_on(side) < columns, Refusal::Columns)?;
    table::refuse_if(n < k, Refusal::Lengths)?;
    table::refuse_if(
        table::miscounts(out, table::rows(n - k) * columns),
        Refusal::Lengths,
    )?;
    table::refuse_if(field::unreduced(point), Refusal::Unreduced)?;
    table::refuse_if(field::unreduced(&scale.c), Refusal::Unreduced)
}

fn test_feed(s: &Session, piece: &[u32], out: &[u32]) -> Result<(), Refusal>
    ensures { answer result ≡ feed_answer (state s.now out.now) piece.now }
{
    test_ready(s, out)?;
    let left = s.plan.words() - s.taken;
    table::refuse_if(field::unreduced(piece), Refusal::Unreduced)?;
    table::refuse_if(left < piece.len(), Refusal::TooLong)
}

fn test_close(s: &Session, out: &[u32]) -> Result<(), Refusal>
    ensures { answer result ≡ close_answer (state s.now out.now) }
{
    test_ready(s, out)?;
    table::refuse_if(s.taken < s.plan.words(), Refusal::Missing)
}

// 14 where out has no such element: it was tested to have c 2^(n - k).
fn test_read(s: &Session, place: usize, out: &[u32]) -> Result<(), Refusal>
    ensures { answer result ≡ (read_answer (state s.now out.now) place).number }
{
    test_record(s)?;
    test_out(s, out)?;
    table::refuse_if(out.len() / 4 <= place, Refusal::NoPlace)
}

// The tests that feed and close share.
fn test_ready(s: &Session, out: &[u32]) -> Result<(), Refusal>
    ensures { answer result ≡ verdict (ready_tests (state s.now out.now)) }
{
    test_record(s)?;
    table::refuse_if(s.closed, Refusal::Closed)?;
    test_out(s, out)
}

// 4, 5 for the out beside a session.
#[tactic(auto, using(table::proofs::Verdicts::tests))]
fn test_out(s: &Session, out: &[u32]) -> Result<(), Refusal>
    requires { (s.now.plan.k ≤ s.now.plan.n) × (s.now.plan.n ≤ most) × (s.now.plan.columns ≤ most_columns) }
    ensures { answer result ≡ verdict (out_tests (state s.now out.now)) }
{
    table::refuse_if(table::splits(out), Refusal::Lengths)?;
    table::refuse_if(table::miscounts(out, s.plan.width()), Refusal::Lengths)?;
    table::refuse_if(field::unreduced(out), Refusal::Unreduced)
}

// 11: the record is none that a session has.
#[tactic(auto, using(table::proofs::Verdicts::tests, crate::proofs::Joining::either))]
fn test_record(s: &Session) -> Result<(), Refusal>
    ensures { answer result ≡ verdict (record_tests s.now) }
{
    table::refuse_if(table::MOST < s.plan.n, Refusal::Broken)?;
    table::refuse_if(s.plan.n < s.plan.k, Refusal::Broken)?;
    table::refuse_if(s.plan.columns < 1, Refusal::Broken)?;
    table::refuse_if(plan::most_on(s.plan.side) < s.plan.columns, Refusal::Broken)?;
    let words = s.plan.words();
    table::refuse_if(words < s.taken, Refusal::Broken)?;
    table::refuse_if(field::unreduced(&s.plan.scale.c), Refusal::Broken)?;
    table::refuse_if(is_no_point(s.plan.coordinates, s.plan.k), Refusal::Broken)?;
    table::refuse_if(s.closed && s.taken < words, Refusal::Broken)
}

// A word is not below the modulus, or one behind the k coordinates is not 0. By value: read from a counted word on, the array would keep the
// whole record in memory.
#[tactic(auto, using(crate::proofs::Scanning::unused))]
fn is_no_point(coordinates: [u32; plan::WORDS], k: usize) -> bool
    requires { k ≤ most }
    ensures { result ≡ (unreduced p coordinates || nonzero (drop (4 * k) coordinates)) }
{
    field::unreduced(&coordinates) || has_nonzero(&coordinates[4 * k..])
}

// A word is not 0.
fn has_nonzero(ws: &[u32]) -> bool
    ensures { result ≡ nonzero ws.now }
{
    ws.iter().any(|w| *w != 0)
}
