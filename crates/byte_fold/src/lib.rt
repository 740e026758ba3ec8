// Folds of a table in bytes, with no copy of it: the sums of at most 2^10 places are held at a time, and their words are read in blocks
// of at most 4,096.
//
//     places   | section | section | ..      each section is a fold of its own, of the words of its places
//     words    | block | block | ..          which are one block, or gained block by block
#![tactic(auto)]

mod few;

ghost use Rattle.std.specs.Prelude.{◌≡◌, false, ◌+◌, ◌-◌, ◌*◌, ◌^◌, ◌≤◌, length};
ghost use Rattle.octets.specs.Octets.{words, octets};
ghost use Rattle.algebra.specs.Words.{unreduced};
ghost use Rattle.field.specs.Field.{p};
ghost use Rattle.plan.specs.Plan.{places, capacity, fold_of};
ghost use Rattle.plan.specs.Sound.{Sound};
ghost use Rattle.plan.specs.Section.{section_of};
ghost use Rattle.byte_fold.specs.Takes.{most_held, FillsBytes, Cut};

use dots::spread;
use multilinear::Side;
use piece::HELD;
use plan::Plan;
use std::ops::Range;
use weigh::blocks::SplitPoint;

// The most words of a block, and of the sums that are held at a time.
const BLOCK: usize = 4096;

// The places from `from` on of a table of `inner` places, as many as the plan has, and that table.
#[derive(Clone, Copy)]
struct Section<'a> {
    plan: Plan,
    inner: usize,
    from: usize,
    table: &'a [u8],
    ghost cut: { Cut plan inner from table.now },
}

// Rows of `places` words that stand `inner` words apart, from word `start` on.
#[derive(Clone, Copy)]
struct Rows {
    places: usize,
    inner: usize,
    start: usize,
}

// out becomes the bytes of the fold.
pub fn compress(plan: Plan, table: &[u8], out: &mut [u8])
    requires { FillsBytes plan table.now out.old }
    ensures { out.new ≡ octets (fold_of plan (words table.now)) }
{
    let held = (plan.n - plan.k).min(HELD);
    let places = table::rows(held);
    let mut sums = [0u32; BLOCK];
    let mut room = [0u32; BLOCK];
    // By number: of the parts that `chunks_exact_mut` lends only their length is known after the loop, and the proof does not close.
    // `piece::sections` has the same loop of words at hand; this one is of bytes, whose sections are read in blocks.
    for j in 0..table::rows(plan.n - plan.k - held) {
        let from = places * j;
        let start = 16 * from;
        let stop = start + 16 * places;
        let section = Section::new(plan, table, held, from);
        section.fold(&mut sums, &mut room, &mut out[start..stop]);
    }
}

impl<'a> Section<'a> {
    ghost use Rattle.piece.specs.Against.{Against};
    ghost use Rattle.byte_fold.specs.Inner.{block_at, sums_to, Portion, first_row};

    // 2^held places of a fold, from place `from` on.
    fn new(plan: Plan, table: &'a [u8], held: usize, from: usize) -> Section<'a>
        requires sound { Sound plan }
        requires one_column { plan.columns ≡ 1 }
        requires few { (held ≤ plan.n - plan.k) × (held ≤ most_held) }
        requires within { from + 2 ^ held ≤ places plan }
        requires count { length table.now ≡ 4 * capacity plan }
        requires below { unreduced p (words table.now) ≡ false }
        ensures plan { result.plan ≡ section_of plan held }
        ensures inner { result.inner ≡ places plan }
        ensures from { result.from ≡ from }
        ensures table { result.table.now ≡ table.now }
    {
        Section {
            plan: plan.section(held),
            inner: plan.places(),
            from,
            table,
        }
    }

    // The section's places, in its part of out. The words that are read and the sums stand in the rooms that are lent.
    fn fold(&self, held: &mut [u32; BLOCK], room: &mut [u32; BLOCK], out: &mut [u8])
        requires { length out.old ≡ 16 * places self.now.plan }
        ensures { out.new ≡ octets (sums_to self.now (capacity self.now.plan)) }
    {
        let count = self.plan.words();
        if count <= BLOCK {
            let block = &mut room[..count];
            self.gather(0, block);
            self.fold_block(block, held, out);
        } else {
            let sums = &mut held[..4 * self.plan.places()];
            self.add_blocks(room, sums);
            octets::encode(sums, out);
        }
    }

    // The section's places, where all its words are one block. Two rows or four need no sums.
    fn fold_block(&self, block: &[u32], held: &mut [u32; BLOCK], out: &mut [u8])
        requires block { block.now ≡ block_at self.now 0 (capacity self.now.plan) }
        requires room { length out.old ≡ 16 * places self.now.plan }
        ensures { out.new ≡ octets (sums_to self.now (capacity self.now.plan)) }
    {
        match self.plan.k {
            1 => few::by_weights::<2>(&self.plan, block, out),
            2 => few::by_weights::<4>(&self.plan, block, out),
            _ => {
                let sums = &mut held[..4 * self.plan.places()];
                piece::fold(self.plan, block, sums);
                octets::encode(sums, out);
            }
        }
    }

    // The sums of the section's places, from none on, gain block after block, against one table of eq. A shifted row's weight is that of the row
    // before, so blocks that start a row late have the weights of whole blocks of rows; the first row weighs nothing. It stays a call: its rooms
    // are in no frame of a section that is one block.
    #[inline(never)]
    fn add_blocks(&self, room: &mut [u32; BLOCK], sums: &mut [u32])
        requires { length sums.old ≡ 4 * places self.now.plan }
        ensures { sums.new ≡ sums_to self.now (capacity self.now.plan) }
    {
        let low = self.plan.k.min(weigh::BLOCK);
        let eqs = weigh::block_of::<{ weigh::BLOCK_WORDS }>(
            self.plan.point(),
            low,
            self.plan.scale,
        );
        let mut spread = [0u64; weigh::BLOCK_WORDS];
        spread::fill::<{ weigh::BLOCK_WORDS }>(&mut spread, &eqs);
        let split = SplitPoint::<{ weigh::BLOCK_WORDS }>::of(self.plan.point(), low, &eqs, &spread);
        let end = self.plan.words();
        let first = self.first_row();
        table::clear(sums);
        self.add_block(0..first, split, room, sums);
        for at in (first..end).step_by(BLOCK) {
            self.add_block(at..end.min(at + BLOCK), split, room, sums);
        }
    }

    // The words of the first row that come first: all of it, or the first place's one.
    fn first_row(&self) -> usize
        ensures { result ≡ first_row self.now.plan.side (places self.now.plan) }
    {
        match self.plan.side {
            Side::Prefix => self.plan.places(),
            Side::Suffix => 1,
        }
    }

    // The sums gain a block, which is read into the room.
    fn add_block(
        &self,
        block: Range<usize>,
        split: SplitPoint<{ weigh::BLOCK_WORDS }>,
        room: &mut [u32; BLOCK],
        sums: &mut [u32],
    )
        requires order { block.start ≤ block.end }
        requires portion { Portion self.now.plan block.start (block.end - block.start) }
        requires against { Against self.now.plan split }
        requires sums_value { sums.old ≡ sums_to self.now block.start }
        ensures { sums.new ≡ sums_to self.now block.end }
    {
        let at = block.start;
        let words = &mut room[..block.end - at];
        self.gather(at, words);
        piece::add_by(&self.plan, split, at, words, sums);
    }

    // Fills block with the section's words from word `at` on.
    fn gather(&self, at: usize, block: &mut [u32])
        requires { Portion self.now.plan at (length block.old) }
        ensures { block.new ≡ block_at self.now at (length block.old) }
    {
        match self.plan.side {
            Side::Suffix => octets::decode(self.table, self.from * self.plan.rows() + at, block),
            Side::Prefix => {
                let own = self.plan.places();
                if own == self.inner {
                    octets::decode(self.table, at, block);
                } else {
                    let rows = Rows {
                        places: own,
                        inner: self.inner,
                        start: at / own * self.inner + self.from,
                    };
                    rows.gather(self.table, block);
                }
            }
        }
    }
}

impl Rows {
    ghost use Rattle.byte_fold.specs.Inner.{first_words, Strided, row_word};

    // Fills block with these rows of the table.
    fn gather(&self, table: &[u8], block: &mut [u32])
        requires { Strided self.now table.now (length block.old) }
        ensures { block.new ≡ first_words (length block.old) (row_word self.now (words table.now)) }
    {
        // By number: of the parts that `chunks_exact_mut` lends only their length is known after the loop, and the proof does not close.
        for r in 0..block.len() / self.places {
            let at = r * self.places;
            octets::decode(
                table,
                self.start + r * self.inner,
                &mut block[at..at + self.places],
            );
        }
    }
}
