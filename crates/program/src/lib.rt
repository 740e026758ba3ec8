// The program `foldframes` but for its reads and its writes: it is fed the input in blocks, cut anywhere, and gives text to print.
//
//     block --> | bytes of a line that has not ended | lines that end --> one step each --> text
#![tactic(auto)]

ghost use Rattle.std.specs.Prelude.{◌≡◌, [], true, false, ◌++◌, ◌≤◌, length};
ghost use Rattle.frame.specs.Frame.{most_line};
ghost use Rattle.runs.specs.Phases.{is_done};
ghost use Rattle.program.specs.Blocks.{most_text, Fed, begun, line_ended, holding, fed, said, closing, end_text};
ghost use Rattle.program.specs.Inner.{text_of, last_ended};

use buffer::Buffer;
use frames::Run;
use runs::Reader;
use std::marker::Model;
use table::Refusal;

pub mod text;

// The most text of a block: the lines of 2^10 elements, and a refusal's.
pub const MOST_TEXT: usize = 33797;

// What the lines so far left, the bytes of the line that has not ended, whether no more are read, and the text to print.
// `stopped` is a bool: a refused line and the end of the input alike set it, and the other fields stay as they are between the blocks.
#[derive(Clone, Copy)]
pub struct Program {
    run: Run,
    line: Buffer<u8, { frame::MOST_LINE }>,
    stopped: bool,
    text: Buffer<u8, MOST_TEXT>,
}

impl Model for Program {
    ghost use Rattle.program.specs.Shown.{Shown};

    ghost Value = { Shown };

    ghost use Rattle.program.specs.Inside.{shown, Going, inside};

    ghost view = { shown };

    ghost invariant = { Going };

    ghost inverse = { inside };
}

impl Program {
    // Before the first block.
    pub fn new() -> Self
        ensures { result.fed ≡ record { feeding = begun; text = [] } }
    {
        Program {
            run: Run::new(),
            line: Buffer::new(),
            stopped: false,
            text: Buffer::new(),
        }
    }

    // A block of input: the lines that end in it, one after another; what is left is held.
    pub fn feed(&mut self, block: &[u8])
        ensures { self.new.fed
            ≡ record { feeding = fed self.old.fed.feeding block.now; text = said self.old.fed.feeding block.now } }
    {
        self.clear_text();
        let mut rest = block;
        // No plainer otherwise: of each part that `split_inclusive` gives it would be asked again whether a line feed ends it.
        while !self.is_stopped() {
            let Some(end) = text::find_line_feed(rest) else {
                self.hold(rest);
                return;
            };
            self.hold(&rest[..end]);
            self.end_line();
            rest = &rest[end + 1..];
        }
    }

    // The input has ended: the last line may lack its line feed, and without `04` there are words missing.
    pub fn end(&mut self)
        ensures text { self.new.fed.text ≡ end_text self.old.fed.feeding }
        ensures over { self.new.fed.feeding.stopped ≡ true }
    {
        self.clear_text();
        self.end_last_line();
        self.close();
    }

    // Whether a line was refused, or the input has ended.
    pub fn is_stopped(&self) -> bool
        ensures { result ≡ self.now.fed.feeding.stopped }
    {
        self.stopped
    }

    // The reader of the lines so far: its phase, and the session's plan and counts.
    pub fn reader(&self) -> &Reader
        ensures { result.now ≡ self.now.fed.feeding.state.reader }
    {
        self.run.reader()
    }

    // The sums, after `04`.
    pub fn sums(&self) -> &[u32]
        requires { is_done self.now.fed.feeding.state.reader.phase ≡ true }
        ensures { result.now ≡ self.now.fed.feeding.state.out }
    {
        self.run.sums()
    }

    // The bytes of the line that has not ended.
    pub fn held(&self) -> &[u8]
        ensures held { result.now ≡ self.now.fed.feeding.held }
        ensures few { length result.now ≤ most_line }
    {
        self.line.as_slice()
    }

    // What the last block, or the end, gives to print.
    pub fn text(&self) -> &[u8]
        ensures text { result.now ≡ self.now.fed.text }
        ensures upper_bound { length result.now ≤ most_text }
    {
        self.text.as_slice()
    }

    fn clear_text(&mut self)
        ensures { self.new.fed ≡ record { feeding = self.old.fed.feeding; text = [] } }
    {
        self.text.clear();
    }

    // More bytes of a line.
    fn hold(&mut self, bytes: &[u8])
        ensures line { self.new.fed ≡ record { feeding = holding self.old.fed.feeding bytes.now; text = self.old.fed.text } }
        ensures few { length self.old.fed.feeding.held ≤ most_line }
    {
        self.line.hold(bytes);
    }

    // The line that is held has ended: one step, and its text.
    fn end_line(&mut self)
        requires { self.old.fed.feeding.stopped ≡ false }
        ensures { self.new.fed
            ≡ record { feeding = line_ended self.old.fed.feeding; text = self.old.fed.text ++ text_of self.old.fed.feeding } }
    {
        let frame = frame::decode(self.line.as_slice());
        self.line.clear();
        match self.run.step(frame) {
            Ok(()) => text::put_out(&self.run, &mut self.text),
            Err(refusal) => {
                self.stopped = true;
                text::put_refusal(refusal, &mut self.text);
            }
        }
    }

    // A last line that lacks its line feed.
    fn end_last_line(&mut self)
        ensures { self.new.fed ≡ last_ended self.old.fed }
    {
        if self.stopped || self.line.as_slice().is_empty() {
            return;
        }
        self.end_line();
    }

    // 9, where no `04` came.
    fn close(&mut self)
        ensures text { self.new.fed.text ≡ self.old.fed.text ++ closing self.old.fed.feeding }
        ensures over { self.new.fed.feeding.stopped ≡ true }
    {
        if !self.stopped && !self.run.reader().phase.is_done() {
            text::put_refusal(Refusal::Missing, &mut self.text);
        }
        self.stopped = true;
    }
}
