// The grammar of a frame: a line of lower-case hexadecimal, two digits a byte.
//
//     01 side weight n k scale    side 00 prefix, 01 suffix; weight 00 plain, 01 shifted, 02 next
//     02 index coordinate
//     03 count words              count 00 to 10
//     04
#![tactic(auto)]

ghost use Rattle.std.specs.Prelude.{◌≡◌, true, ◌∷◌, [], ◌++◌, ◌+◌, ◌*◌, ◌≤◌, ◌<◌, length, take};
ghost use Rattle.std.proofs.lemmas.List.Edits.{sets};
ghost use Rattle.frame.specs.Hex.{is_digit, digit_of, glyph, is_hex, spelled, word_at, words_at, byte_digits, word_digits};
ghost use Rattle.frame.specs.Frame.{byte_at, element_of, frame_by, frame_of};
ghost use Rattle.frame.specs.Inner.{Spells};

use field::Element;
use multilinear::{Side, Weight};
use std::marker::Model;

// The most words of an `03`.
pub const MOST_WORDS: usize = 16;

// The words of an `03`, as a list of them. The room behind them is 0, so that the list gives it back.
#[derive(Clone, Copy)]
pub struct Words {
    room: [u32; MOST_WORDS],
    count: usize,
}

impl Model for Words {
    ghost use Rattle.std.specs.Prelude.{ℕ, List};

    ghost Value = { List ℕ };

    ghost use Rattle.frame.specs.Words.{in_front, ZerosBehind, with_zeros, gives_back};

    ghost view = { in_front };

    ghost invariant = { ZerosBehind };

    ghost inverse = { with_zeros };

    ghost inverse_ok = { gives_back };
}

impl Words {
    // None yet.
    pub fn new() -> Self
        ensures { result ≡ [] }
    {
        Words {
            room: [0u32; MOST_WORDS],
            count: 0,
        }
    }

    pub fn as_slice(&self) -> &[u32]
        ensures items { result.now ≡ self.now }
        ensures few { length self.now ≤ 16 }
    {
        &self.room[..self.count]
    }

    // None again, and zeros in the whole room.
    pub fn clear(&mut self)
        ensures { self.new ≡ [] }
    {
        self.room = [0u32; MOST_WORDS];
        self.count = 0;
    }

    // One more.
    pub fn push(&mut self, word: u32)
        requires { length self.old < 16 }
        ensures { self.new ≡ self.old ++ word ∷ [] }
    {
        self.room[self.count] = word;
        self.count += 1;
    }

    // More of them.
    pub fn extend(&mut self, words: &[u32])
        requires { length self.old + length words.now ≤ 16 }
        ensures { self.new ≡ self.old ++ words.now }
    {
        let end = self.count + words.len();
        let room = &mut self.room[..];
        room[self.count..end].copy_from_slice(words);
        self.count = end;
    }

    // As many of the words as there is room for.
    pub fn hold(&mut self, words: &[u32])
        ensures { self.new ≡ take 16 (self.old ++ words.now) }
    {
        let count = words.len().min(MOST_WORDS - self.count);
        self.extend(&words[..count]);
    }
}

// The arguments of a session but for its coordinates.
#[derive(Clone, Copy)]
pub struct Opening {
    pub side: Side,
    pub weight: Weight,
    pub n: usize,
    pub k: usize,
    pub scale: Element,
}

// What a line says.
#[derive(Clone, Copy)]
pub enum Frame {
    // `01`: a session opens.
    Open(Opening),
    // `02`: a coordinate of its point.
    Coordinate { index: usize, coordinate: Element },
    // `03`: words of its table.
    Words(Words),
    // `04`: its end.
    Close,
}

// The first byte of each.
const OPEN: u8 = 1;

const COORDINATE: u8 = 2;

const WORDS: u8 = 3;

const CLOSE: u8 = 4;

// The most bytes of a frame: 03, the count, and 16 words.
const MOST_BYTES: usize = 66;

// One more than a frame's digits: of a longer line, so many of its bytes are decoded as the whole (`cut_alike` of proofs/Decoding.antt).
pub const MOST_LINE: usize = 133;

// The frame of a line, without its line feed; none where it is no frame.
#[tactic(auto, using(crate::proofs::Decoding::decoded))]
pub fn decode(line: &[u8]) -> Option<Frame>
    ensures { result ≡ frame_of line.now }
{
    let count = line.len() / 2;
    if MOST_BYTES < count || !is_hex(line) {
        return None;
    }
    // No `Buffer` that takes byte after byte: tried, and proved, but `foldframes` then takes 15 to 18 in 100 more instructions.
    let mut room = [0u8; MOST_BYTES];
    let bytes = &mut room[..count];
    spell(line, bytes);
    read(bytes)
}

// Whether the line is digits alone, two a byte.
fn is_hex(line: &[u8]) -> bool
    ensures { result ≡ is_hex line.now }
{
    line.len() % 2 == 0 && line.iter().all(|c| is_digit(*c))
}

// '0' to '9', 'a' to 'f'.
fn is_digit(c: u8) -> bool
    ensures { result ≡ is_digit c }
{
    matches!(c, b'0'..=b'9' | b'a'..=b'f')
}

// A digit's value.
fn digit(c: u8) -> u8
    requires { is_digit c ≡ true }
    ensures { (result ≡ digit_of c) × (result < 16) }
{
    if c < b'a' { c - b'0' } else { c - b'a' + 10 }
}

// Fills bytes with what the digits spell.
fn spell(line: &[u8], bytes: &mut [u8])
    requires { Spells line.now bytes.old }
    ensures { bytes.new ≡ spelled line.now }
{
    for (i, b) in bytes.iter_mut().enumerate() {
        *b = 16 * digit(line[2 * i]) + digit(line[2 * i + 1]);
    }
}

// The frame of bytes.
#[tactic(auto, using(crate::proofs::FirstByte::other_first))]
fn read(bytes: &[u8]) -> Option<Frame>
    ensures { result ≡ frame_by bytes.now }
{
    match *bytes.first()? {
        OPEN => read_open(bytes),
        COORDINATE => read_coordinate(bytes),
        WORDS => read_words(bytes),
        CLOSE => read_close(bytes),
        _ => None,
    }
}

// The frame of an `01`: side and weight too are in their values.
#[tactic(auto, using(crate::proofs::FirstByte::at_open))]
fn read_open(bytes: &[u8]) -> Option<Frame>
    requires { byte_at bytes.now 0 ≡ 1 }
    ensures { result ≡ frame_by bytes.now }
{
    if bytes.len() != 21 {
        return None;
    }
    Some(Frame::Open(Opening {
        side: Side::try_from(bytes[1]).ok()?,
        weight: Weight::try_from(bytes[2]).ok()?,
        n: usize::from(bytes[3]),
        k: usize::from(bytes[4]),
        scale: element(bytes, 5),
    }))
}

// The frame of an `02`.
#[tactic(auto, using(crate::proofs::FirstByte::at_coordinate))]
fn read_coordinate(bytes: &[u8]) -> Option<Frame>
    requires { byte_at bytes.now 0 ≡ 2 }
    ensures { result ≡ frame_by bytes.now }
{
    if bytes.len() != 18 {
        return None;
    }
    Some(Frame::Coordinate {
        index: usize::from(bytes[1]),
        coordinate: element(bytes, 2),
    })
}

// The frame of an `03`.
#[tactic(auto, using(crate::proofs::FirstByte::at_words))]
fn read_words(bytes: &[u8]) -> Option<Frame>
    requires { byte_at bytes.now 0 ≡ 3 }
    ensures { result ≡ frame_by bytes.now }
{
    let count = usize::from(*bytes.get(1)?);
    if MOST_WORDS < count || bytes.len() != 2 + 4 * count {
        return None;
    }
    Some(Frame::Words(word_list(bytes, count)))
}

// The frame of an `04`.
#[tactic(auto, using(crate::proofs::FirstByte::at_close))]
fn read_close(bytes: &[u8]) -> Option<Frame>
    requires { byte_at bytes.now 0 ≡ 4 }
    ensures { result ≡ frame_by bytes.now }
{
    if bytes.len() != 1 {
        return None;
    }
    Some(Frame::Close)
}

// The element of the 16 bytes from byte b on.
#[tactic(auto, using(crate::proofs::Reading::four))]
fn element(bytes: &[u8], b: usize) -> Element
    requires { b + 16 ≤ length bytes.now }
    ensures { result ≡ element_of bytes.now b }
{
    Element {
        c: [
            word(bytes, b),
            word(bytes, b + 4),
            word(bytes, b + 8),
            word(bytes, b + 12),
        ],
    }
}

// The `count` words of an `03`.
fn word_list(bytes: &[u8], count: usize) -> Words
    requires { (count ≤ 16) × (2 + 4 * count ≤ length bytes.now) }
    ensures { result ≡ words_at count bytes.now 2 }
{
    let mut words = Words::new();
    for four in bytes[2..2 + 4 * count].chunks_exact(4) {
        words.push(word(four, 0));
    }
    words
}

// The word of the four bytes from byte b on, the highest first. By number: `try_into` of a slice would bring a `Result` that is never `Err`.
fn word(bytes: &[u8], b: usize) -> u32
    requires { b + 4 ≤ length bytes.now }
    ensures { result ≡ word_at bytes.now b }
{
    u32::from_be_bytes([bytes[b], bytes[b + 1], bytes[b + 2], bytes[b + 3]])
}

// Fills text with the digits of ws.
pub fn digits(ws: &[u32], text: &mut [u8])
    requires { length text.old ≡ 8 * length ws.now }
    ensures { text.new ≡ word_digits ws.now }
{
    for (i, w) in ws.iter().enumerate() {
        put_word(text, 8 * i, *w);
    }
}

// The eight digits of w, at `at`.
fn put_word(text: &mut [u8], at: usize, w: u32)
    requires { at + 8 ≤ length text.old }
    ensures { text.new ≡ sets text.old at (word_digits (w ∷ [])) }
{
    let [a, b, c, d] = w.to_be_bytes();
    put_byte(text, at, a as u32);
    put_byte(text, at + 2, b as u32);
    put_byte(text, at + 4, c as u32);
    put_byte(text, at + 6, d as u32);
}

// The two digits of a byte, at `at`.
pub fn put_byte(text: &mut [u8], at: usize, x: u32)
    requires { at + 2 ≤ length text.old }
    ensures { text.new ≡ sets text.old at (byte_digits x) }
{
    text[at] = glyph((x / 16 % 16) as u8);
    text[at + 1] = glyph((x % 16) as u8);
}

// The digit of a value.
fn glyph(d: u8) -> u8
    requires { d < 16 }
    ensures { result ≡ glyph d }
{
    if d < 10 { b'0' + d } else { b'a' - 10 + d }
}

#[cfg(test)]
mod tests;
