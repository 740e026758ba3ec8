// Replays the Rust's answers from standard input. A word is eight hexadecimal digits and a byte after them; a record is
//
//     operation, words of a, words of b, number, answer, words of out | a .. | b .. | out after the call ..
//
// and before the call out holds 7 in each of its words. Where an operation has work, or a table that it changes, b is two slices and out is
// work and then out: the number is the words of the first of them and, times 65536, those of work. A table that a call changes is work, and
// b begins with it as it is before the call.
#![tactic(auto)]

ghost use Rattle.std.specs.Prelude.{◌≤◌, length, IfOk};

use calls::{Given, Operation, UnknownOperation};
use std::io;
use std::io::{ErrorKind, Read};

// The most bytes of a list: what stands behind them is not read.
const MOST: usize = 131072;

// The bytes of a word, with the one after it.
const WORD: usize = 9;

// As many words as those bytes hold.
const MOST_WORDS: usize = 14563;

// The words at the front of a record, before a.
const HEAD: usize = 6;

// The most words of out, with work.
const MOST_OUT: usize = 64;

// What out and work hold before a call.
const BEFORE: u32 = 7;

// The answer where there is no such call.
const NO_CALL: u32 = 255;

fn main(rt: HostRuntime) -> io::Result<()> {
    let mut text = [0u8; MOST];
    let bytes = fill(&mut rt.stdin(), &mut text)?;
    let mut room = [0u32; MOST_WORDS];
    let words = decode(&text[..bytes], &mut room);
    let (same, all) = replay(words);
    println!(rt; "answers of the Rust replayed: {same} of {all} the same")
}

// Reads until the room is full or the input has ended: how many bytes came.
fn fill(input: &mut impl Read, room: &mut [u8; MOST]) -> io::Result<usize>
    ensures { IfOk result (λ count. count ≤ length room.new) }
{
    let mut count = 0;
    for _ in 0..u64::MAX {
        match input.read(&mut room[count..]) {
            Ok(0) => break,
            Ok(more) => count += more,
            Err(error) if error.kind() == ErrorKind::Interrupted => {}
            Err(error) => return Err(error),
        }
    }
    Ok(count)
}

// The whole words of the text, in the room.
fn decode<'a>(text: &[u8], room: &'a mut [u32; MOST_WORDS]) -> &'a [u32] {
    let words = &mut room[..MOST_WORDS.min(text.len() / WORD)];
    for (word, bytes) in words.iter_mut().zip(text.chunks_exact(WORD)) {
        *word = word_of(bytes);
    }
    words
}

// The word of eight digits: what is none counts as 0.
fn word_of(bytes: &[u8]) -> u32 {
    bytes
        .iter()
        .take(WORD - 1)
        .fold(0, |word, byte| word << 4 | digit(*byte))
}

fn digit(byte: u8) -> u32 {
    match byte {
        b'0'..=b'9' => (byte - b'0') as u32,
        b'a'..=b'f' => (byte - b'a' + 10) as u32,
        _ => 0,
    }
}

// How many records are the same, and how many there are.
fn replay(words: &[u32]) -> (usize, usize) {
    let mut rest = words;
    let mut same = 0;
    // By number: no list has more records than words.
    for i in 0..words.len() {
        if rest.is_empty() {
            return (same, i);
        }
        let (record, behind) = rest.split_at(length_of(rest));
        same += is_same(record) as usize;
        rest = behind;
    }
    (same, words.len())
}

// How many words the first record has: all of them, where it would pass their end.
fn length_of(words: &[u32]) -> usize
    ensures { result ≤ length words.now }
{
    let [_, a, b, _, _, out, rest @ ..] = words else {
        return words.len();
    };
    let length = *a as usize + *b as usize + *out as usize;
    if rest.len() < length {
        return words.len();
    }
    HEAD + length
}

// The call of a record gives its answer and its out.
fn is_same(record: &[u32]) -> bool {
    let [operation, a, b, number, answer, _, rest @ ..] = record else {
        return false;
    };
    let Some((a, rest)) = rest.split_at_checked(*a as usize) else {
        return false;
    };
    let Some((b, expected)) = rest.split_at_checked(*b as usize) else {
        return false;
    };
    let mut room = [BEFORE; MOST_OUT];
    let Some((out, _)) = room.split_at_mut_checked(expected.len()) else {
        return false;
    };
    let given = Given {
        a,
        b,
        c: &[],
        number: *number,
    };
    call(*operation, given, out) == *answer && &*out == expected
}

// The answer of the operation of this number to what is given.
fn call(number: u32, given: Given, out: &mut [u32]) -> u32 {
    // By kind: the operations on points take no work, and the others take it at the front of out.
    match Operation::try_from(number) {
        Ok(operation @ Operation::OnPoints(_)) => calls::call(operation, given, &mut [], out),
        Err(UnknownOperation(0)) => NO_CALL,
        operation => with_work(operation.ok(), given, out).unwrap_or(NO_CALL),
    }
}

// The call with work at the front of out, and b as two slices. What is not made for work is made for a table, and has it.
fn with_work(operation: Option<Operation>, given: Given, out: &mut [u32]) -> Option<u32> {
    let first = (given.number % 65536) as usize;
    let lent = (given.number / 65536) as usize;
    let (b, c) = given.b.split_at_checked(first)?;
    let (work, out) = out.split_at_mut_checked(lent)?;
    if !matches!(operation, Some(Operation::OnSplit(_))) {
        for (word, given) in work.iter_mut().zip(given.b) {
            *word = *given;
        }
    }
    Some(calls::call(operation?, Given { b, c, ..given }, work, out))
}
