// The steps of the program: a state and a frame give the next state, or a refusal. The state is the reader, its sums and the last word of
// each place; the words of `03` lines are gathered first, and added many at once.
//
//     Start --01--> Points --03--> Words --04--> Done
//                     02 |  04       03
//
// The coordinates come in `Points`, index 00 first and rising by one.
#![tactic(auto)]

ghost use Rattle.std.specs.Prelude.{◌≡◌, ◌+◌, ◌*◌, ◌^◌, ◌≤◌, ◌<◌, true, [], length, replicate, IfOk, Some};
ghost use Rattle.table.specs.Refusals.{answer, verdict, most};
ghost use Rattle.frame.specs.declared.Frame.TheVariants.{Words, Close};
ghost use Rattle.padding.specs.Last.{missing_words};
ghost use Rattle.runs.specs.Phases.{is_done};
ghost use Rattle.runs.specs.Reader.{most_places, with_coordinate, session_by, missing, open_tests, coordinate_tests, words_tests, close_tests, frame_tests, shared_tests, line_answer, started, opened, noted, gained, Ready, LastReady};
ghost use Rattle.runs.specs.Runs.{start};
ghost use Rattle.frames.specs.After.{after_frame, after_accepted};
ghost use Rattle.frames.specs.Inside.{most_gathered, with_gathered, Gathers};
ghost use Rattle.frames.specs.Inner.{InLimits};

use buffer::Buffer;
use field::Element;
use frame::{Frame, Opening};
use ledger::Session;
use multilinear::{Side, Weight};
use plan::Plan;
use runs::{Phase, Reader};
use std::marker::Model;
use table::Refusal;

// 3: the most variables of out.
pub const MOST_PLACES: usize = 10;

// The words of the sums of 2^10 elements.
const OUT_WORDS: usize = 4096;

// A word of each of 2^10 places.
const LAST_WORDS: usize = 1024;

// The most words that are gathered: so many are added in three times the time of 16.
const MOST_GATHERED: usize = 1024;

// The words that are gathered.
type Gathered = Buffer<u32, MOST_GATHERED>;

// What the lines so far left: the reader, which has counted all words; the sums and the last word of each place, of all words but the last
// ones; and these, which are gathered.
#[derive(Clone, Copy)]
pub struct Run {
    reader: Reader,
    out: [u32; OUT_WORDS],
    last: [u32; LAST_WORDS],
    gathered: Gathered,
}

impl Model for Run {
    ghost use Rattle.frames.specs.Shown.{Shown};

    ghost Value = { Shown };

    ghost use Rattle.frames.specs.Inside.{shown, Gathering, inside};

    ghost view = { shown };

    ghost invariant = { Gathering };

    ghost inverse = { inside };
}

impl Run {
    // Before the first line.
    pub fn new() -> Self
        ensures { result.state ≡ start (replicate (4 * 2 ^ most_places) 0) (replicate (2 ^ most_places) 0) }
    {
        Run {
            reader: started(),
            out: [0u32; OUT_WORDS],
            last: [0u32; LAST_WORDS],
            gathered: Buffer::new(),
        }
    }

    // One line's frame, or none. A refused one leaves all as it was.
    pub fn step(&mut self, frame: Option<Frame>) -> Result<(), Refusal>
        ensures result_value { answer result ≡ line_answer self.old.state.reader frame }
        ensures state { self.new.state ≡ after_frame frame self.old.state }
        ensures ready { Ready self.new.state.reader self.new.state.out }
    {
        let frame = test_place(self.reader.phase, frame)?;
        test_frame(&self.reader, &frame)?;
        self.take(frame);
        Ok(())
    }

    // Its phase and its counts are those of all words, gathered or not.
    pub fn reader(&self) -> &Reader
        ensures { result.now ≡ self.now.state.reader }
    {
        &self.reader
    }

    // The sums, after `04`.
    pub fn sums(&self) -> &[u32]
        requires { is_done self.now.state.reader.phase ≡ true }
        ensures { result.now ≡ self.now.state.out }
    {
        &self.out
    }

    // What an accepted line does.
    fn take(&mut self, frame: Frame)
        requires { line_answer self.old.state.reader (Some frame) ≡ 0 }
        ensures state { self.new.state ≡ after_accepted frame self.old.state }
        ensures ready { Ready self.new.state.reader self.new.state.out }
    {
        match frame {
            Frame::Open(opening) => {
                table::clear(&mut self.out);
                self.reader = open(opening);
            }
            Frame::Coordinate { index, coordinate } => {
                self.reader = note(self.reader, index, coordinate);
            }
            Frame::Words(words) => self.gather(words.as_slice()),
            Frame::Close => self.close(),
        }
    }

    // At `03`: the words are gathered behind those that are there.
    fn gather(&mut self, words: &[u32])
        requires accepted { line_answer self.old.state.reader (Some (Words words.now)) ≡ 0 }
        requires few { length words.now ≤ most_gathered }
        ensures state { self.new.state ≡ after_accepted (Words words.now) self.old.state }
        ensures ready { Ready self.new.state.reader self.new.state.out }
    {
        make_room(
            &self.reader,
            words.len(),
            &mut self.gathered,
            &mut self.out,
            &mut self.last,
        );
        self.gathered.extend(words);
        self.reader.phase = Phase::Words;
        self.reader.session.taken += words.len();
    }

    // At `04`: all words are added, and then the missing ones.
    fn close(&mut self)
        requires { line_answer self.old.state.reader (Some Close) ≡ 0 }
        ensures state { self.new.state ≡ after_accepted Close self.old.state }
        ensures ready { Ready self.new.state.reader self.new.state.out }
    {
        add_gathered(
            &self.reader,
            &mut self.gathered,
            &mut self.out,
            &mut self.last,
        );
        add_missing(&self.reader, &self.last, &mut self.out);
        self.reader.phase = Phase::Done;
    }
}

// Room for so many words more: where there is none, those that are there are added.
fn make_room(
    reader: &Reader,
    more: usize,
    gathered: &mut Gathered,
    out: &mut [u32],
    last: &mut [u32],
)
    requires gathers { Gathers reader.now gathered.old.items out.old last.old }
    requires few { more ≤ most_gathered }
    ensures same { with_gathered reader.now gathered.new.items out.new last.new
        ≡ with_gathered reader.now gathered.old.items out.old last.old }
    ensures gathers { Gathers reader.now gathered.new.items out.new last.new }
    ensures room { length gathered.new.items + more ≤ most_gathered }
{
    if MOST_GATHERED - gathered.as_slice().len() < more {
        add_gathered(reader, gathered, out, last);
    }
}

// The gathered words go to their places, and the last one of each is kept; beneath the session's tests, since out and the record are the
// program's own.
fn add_gathered(reader: &Reader, gathered: &mut Gathered, out: &mut [u32], last: &mut [u32])
    requires { Gathers reader.now gathered.old.items out.old last.old }
    ensures same { with_gathered reader.now gathered.new.items out.new last.new
        ≡ with_gathered reader.now gathered.old.items out.old last.old }
    ensures gathers { Gathers reader.now gathered.new.items out.new last.new }
    ensures none { gathered.new.items ≡ [] }
{
    let words = gathered.as_slice();
    let plan = &reader.session.plan;
    let from = reader.session.taken - words.len();
    let used = 4 * plan.width();
    piece::add(plan, from, words, &mut out[..used]);
    padding::keep(plan, from, words, last);
    gathered.clear();
}

// The missing words go to their places.
fn add_missing(reader: &Reader, last: &[u32], out: &mut [u32])
    requires ready { Ready reader.now out.old }
    requires last_ready { LastReady last.now }
    ensures { out.new ≡ gained reader.now (missing_words reader.now.session.plan reader.now.session.taken last.now) out.old }
{
    let plan = reader.session.plan;
    let used = 4 * plan.width();
    padding::pad(plan, reader.session.taken, last, &mut out[..used]);
}

// The reader before the first line.
#[tactic(auto, unfolding(runs::specs::Reader::started))]
fn started() -> Reader
    ensures { result ≡ started }
{
    Reader {
        phase: Phase::Start,
        session: session_of(Opening {
            side: Side::Prefix,
            weight: Weight::Plain,
            n: 0,
            k: 0,
            scale: Element { c: [0, 0, 0, 0] },
        }),
        came: 0,
    }
}

// 10, 12: the frame, where such a line may come.
#[tactic(auto, using(table::proofs::Verdicts::tests))]
fn test_place(phase: Phase, frame: Option<Frame>) -> Result<Frame, Refusal>
    ensures tests { answer result ≡ verdict (shared_tests phase frame) }
    ensures frame { IfOk result (λ f. frame ≡ Some f) }
{
    table::refuse_if(phase.is_done(), Refusal::Closed)?;
    let frame = frame.ok_or(Refusal::NotFrame)?;
    table::refuse_if(!phase.takes(&frame), Refusal::NotFrame)?;
    Ok(frame)
}

// The frame's own tests.
fn test_frame(reader: &Reader, frame: &Frame) -> Result<(), Refusal>
    requires { InLimits reader.now }
    ensures { answer result ≡ verdict (frame_tests reader.now frame.now) }
{
    match frame {
        Frame::Open(opening) => test_open(opening),
        Frame::Coordinate { index, coordinate } => test_coordinate(reader, *index, coordinate),
        Frame::Words(words) => test_words(reader, words.as_slice()),
        Frame::Close => test_close(reader),
    }
}

// 3, 4, 5, 3.
#[tactic(auto, using(table::proofs::Verdicts::tests))]
fn test_open(opening: &Opening) -> Result<(), Refusal>
    ensures { answer result ≡ verdict (open_tests opening.now) }
{
    table::refuse_if(table::MOST < opening.n, Refusal::TooMany)?;
    table::refuse_if(table::MOST < opening.k, Refusal::TooMany)?;
    table::refuse_if(opening.n < opening.k, Refusal::Lengths)?;
    table::refuse_if(field::unreduced(&opening.scale.c), Refusal::Unreduced)?;
    table::refuse_if(MOST_PLACES < opening.n - opening.k, Refusal::TooMany)
}

// 13, 5.
#[tactic(auto, using(table::proofs::Verdicts::tests))]
fn test_coordinate(reader: &Reader, index: usize, coordinate: &Element) -> Result<(), Refusal>
    ensures { answer result ≡ verdict (coordinate_tests reader.now index coordinate.now) }
{
    table::refuse_if(index != reader.came, Refusal::Coordinates)?;
    table::refuse_if(reader.session.plan.k <= index, Refusal::Coordinates)?;
    table::refuse_if(field::unreduced(&coordinate.c), Refusal::Unreduced)
}

// 13, 5, 8.
#[tactic(auto, using(table::proofs::Verdicts::tests, ledger::proofs::Left::left_test))]
fn test_words(reader: &Reader, words: &[u32]) -> Result<(), Refusal>
    requires { InLimits reader.now }
    ensures { answer result ≡ verdict (words_tests reader.now words.now) }
{
    let left = reader.session.plan.words() - reader.session.taken;
    table::refuse_if(lacks_coordinates(reader), Refusal::Coordinates)?;
    table::refuse_if(field::unreduced(words), Refusal::Unreduced)?;
    table::refuse_if(left < words.len(), Refusal::TooLong)
}

// 13.
#[tactic(auto, using(table::proofs::Verdicts::tests))]
fn test_close(reader: &Reader) -> Result<(), Refusal>
    ensures { answer result ≡ verdict (close_tests reader.now) }
{
    table::refuse_if(lacks_coordinates(reader), Refusal::Coordinates)
}

// 13, at the first `03` or `04`: fewer than k coordinates have come.
fn lacks_coordinates(reader: &Reader) -> bool
    ensures { result ≡ missing reader.now }
{
    reader.came < reader.session.plan.k
}

// At `01`: the session of its arguments, every coordinate 0 as yet.
fn open(opening: Opening) -> Reader
    ensures { result ≡ opened opening }
{
    Reader {
        phase: Phase::Points,
        session: session_of(opening),
        came: 0,
    }
}

// A coordinate in its place; one more has come.
fn note(reader: Reader, index: usize, coordinate: Element) -> Reader
    requires { (index ≡ reader.came) × (index < most) }
    ensures { result ≡ noted reader index coordinate }
{
    Reader {
        phase: reader.phase,
        session: with_coordinate(reader.session, index, coordinate),
        came: reader.came + 1,
    }
}

// The same session, with another coordinate i.
fn with_coordinate(session: Session, i: usize, coordinate: Element) -> Session
    requires { i < most }
    ensures { result ≡ with_coordinate session i coordinate }
{
    let mut next = session;
    table::put(&mut next.plan.coordinates, i, coordinate);
    next
}

// The session of an `01`, every coordinate 0 as yet.
fn session_of(opening: Opening) -> Session
    ensures { result ≡ session_by opening }
{
    Session {
        plan: Plan {
            n: opening.n,
            k: opening.k,
            columns: 1,
            side: opening.side,
            weight: opening.weight,
            scale: opening.scale,
            coordinates: plan::padded(&[]),
        },
        taken: 0,
        closed: false,
    }
}
