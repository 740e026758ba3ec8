// Lines in and lines out.
ghost use Rattle.std.specs.Prelude.{◌≡◌, ◌==◌, ◌+◌, ◌*◌, ◌≤◌, ◌++◌, length, take, drop, position};
ghost use Rattle.table.specs.Refusals.{number};
ghost use Rattle.runs.specs.Reader.{Ready};
ghost use Rattle.program.specs.Printed.{line_feed, out_line, out_lines, refusal_line};
ghost use Rattle.program.specs.Blocks.{most_text};
ghost use Rattle.program.specs.Inner.{done_text};

use crate::MOST_TEXT;
use buffer::Buffer;
use frames::Run;
use table::Refusal;

const LINE_FEED: u8 = b'\n';

// The bytes of an element's line: 32 digits, and a line feed.
const LINE_BYTES: usize = 33;

// Where the first line feed is.
pub fn find_line_feed(bytes: &[u8]) -> Option<usize>
    ensures { result ≡ position (λ b. b == line_feed) bytes.now }
{
    bytes.iter().position(|b| *b == LINE_FEED)
}

// After an accepted line: at `04` the out lines.
pub fn put_out(run: &Run, text: &mut Buffer<u8, MOST_TEXT>)
    requires ready { Ready run.now.state.reader run.now.state.out }
    requires room { length text.old.items + length (done_text run.now.state.reader run.now.state.out) ≤ most_text }
    ensures { text.new.items ≡ text.old.items ++ done_text run.now.state.reader run.now.state.out }
{
    let reader = run.reader();
    if !reader.phase.is_done() {
        return;
    }
    let places = reader.session.plan.width();
    put_elements(run.sums(), places, text);
}

// The lines of elements.
pub fn put_elements(out: &[u32], places: usize, text: &mut Buffer<u8, MOST_TEXT>)
    requires there { 4 * places ≤ length out.now }
    requires room { length text.old.items + 33 * places ≤ most_text }
    ensures { text.new.items ≡ text.old.items ++ out_lines places out.now }
{
    for element in out[..4 * places].chunks_exact(4) {
        let mut line = [LINE_FEED; LINE_BYTES];
        frame::digits(element, &mut line[..32]);
        text.extend(&line);
    }
}

// The line of a refusal.
pub fn put_refusal(refusal: Refusal, text: &mut Buffer<u8, MOST_TEXT>)
    requires { length text.old.items + 5 ≤ most_text }
    ensures { text.new.items ≡ text.old.items ++ refusal_line (number refusal) }
{
    let mut line = *b"ff00\n";
    frame::put_byte(&mut line, 2, refusal.number());
    text.extend(&line);
}
