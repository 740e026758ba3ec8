// The reader's types and its phases; the specs say what a line answers and leaves, and what holds after every list of lines. The steps are
// in `frames`.
//
//     Start --01--> Points --03--> Words --04--> Done
//                     02 |  04       03
#![tactic(auto)]

ghost use Rattle.std.specs.Prelude.{◌≡◌};
ghost use Rattle.runs.specs.Phases.{takes, is_done};

use frame::Frame;
use ledger::Session;

#[derive(Clone, Copy, Debug, PartialEq, Eq)]
pub enum Phase {
    Start,
    Points,
    Words,
    Done,
}

impl Phase {
    // Whether such a line may come.
    pub fn takes(self, frame: &Frame) -> bool
        ensures { result ≡ takes self frame.now }
    {
        match frame {
            Frame::Open(_) => matches!(self, Phase::Start),
            Frame::Coordinate { .. } => matches!(self, Phase::Points),
            Frame::Words(_) | Frame::Close => matches!(self, Phase::Points | Phase::Words),
        }
    }

    // Nothing may come any more.
    pub fn is_done(self) -> bool
        ensures { result ≡ is_done self }
    {
        matches!(self, Phase::Done)
    }
}

// The session as the frames give it, and how many coordinates have come.
#[derive(Clone, Copy)]
pub struct Reader {
    pub phase: Phase,
    pub session: Session,
    pub came: usize,
}
