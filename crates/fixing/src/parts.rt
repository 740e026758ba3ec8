// A table fixed by a step: few entries one by one, more of them part by part.
ghost use Rattle.std.specs.Prelude.{◌≡◌, ◌+◌, ◌*◌, ◌<◌, length};
ghost use Rattle.field.specs.Field.{from_words};
ghost use Rattle.table.specs.Table.{table_words, element_at};
ghost use Rattle.fixing.specs.Fixing.{fixed_at};
ghost use Rattle.fixing.specs.Inner.{Halves, Made, PairsBy, Summands, taken_at, sum_at};

use crate::steps::Step;
use multiplier::Multiplier;

// The most entries of a part.
const PART: usize = 32;

// Its words.
const WORDS: usize = 4 * PART;

// Of fewer entries the two rooms cost more than they save.
const FEW: usize = 16;

// Entries 0..h become what their pairs give.
pub fn fix<S: Step>(entries: &mut [u32], h: usize, m: Multiplier)
    requires { Halves h entries.old }
    ensures { Made (fixed_at S.rule h (element_at entries.old) (from_words m.r)) 0 h entries.old entries.new }
{
    if S::IN_PARTS && FEW <= h {
        fix_parts::<S>(entries, h, m);
    } else {
        fix_few::<S>(entries, h, m);
    }
}

// One by one. A pair stands at or past the entry that is written, so it is read before it is written.
fn fix_few<S: Step>(entries: &mut [u32], h: usize, m: Multiplier)
    requires { Halves h entries.old }
    ensures { Made (fixed_at S.rule h (element_at entries.old) (from_words m.r)) 0 h entries.old entries.new }
{
    for i in 0..h {
        let (first, second) = S::pair(h, i);
        let a0 = table::get(entries, first);
        let taken = S::taken(a0, table::get(entries, second));
        table::put(entries, i, m.plus(a0, taken));
    }
}

// Part by part, each in three loops: what a loop reads and writes at once the compiler gathers word by word, and between rooms the
// products are made of vectors.
fn fix_parts<S: Step>(entries: &mut [u32], h: usize, m: Multiplier)
    requires { Halves h entries.old }
    ensures { Made (fixed_at S.rule h (element_at entries.old) (from_words m.r)) 0 h entries.old entries.new }
{
    let mut room = [0u32; WORDS];
    let mut more = [0u32; WORDS];
    for at in (0..h).step_by(PART) {
        let n = PART.min(h - at);
        let rows = &mut room[..4 * n];
        take::<S>(entries, h, at, n, rows);
        m.set(&mut more, 0, rows);
        add::<S>(entries, h, at, n, &more);
    }
}

// What r multiplies of the pairs of n entries from entry `from` on.
fn take<S: Step>(entries: &[u32], h: usize, from: usize, n: usize, room: &mut [u32])
    requires pairs { PairsBy S.rule h from n entries.now }
    requires fits { length room.old ≡ 4 * n }
    ensures { room.new ≡ table_words n (λ i. taken_at S.rule h entries.now (from + i)) }
{
    for i in 0..n {
        let (first, second) = S::pair(h, from + i);
        let taken = S::taken(table::get(entries, first), table::get(entries, second));
        table::put(room, i, taken);
    }
}

// The first of the pairs of n entries from entry `from` on, with those of `more` added to them.
fn add<S: Step>(entries: &mut [u32], h: usize, from: usize, n: usize, more: &[u32])
    requires pairs { PairsBy S.rule h from n entries.old }
    requires summands { Summands n more.now }
    ensures { Made (sum_at S.rule h entries.old from more.now) from (from + n) entries.old entries.new }
{
    for i in 0..n {
        let (first, _) = S::pair(h, from + i);
        let sum = table::get(entries, first).add(table::get(more, i));
        table::put(entries, from + i, sum);
    }
}
