// The shifted folds. The point and the work buffer's tables are decoded into arrays of the function's own, the table is read in place.
ghost use Rattle.std.specs.Prelude.{◌≡◌};
ghost use Rattle.octets.specs.Octets.{words, octets};
ghost use Rattle.algebra.specs.Words.{unreduced};
ghost use Rattle.multilinear.specs.declared.Weight.TheVariants.{Shifted};
ghost use Rattle.field.specs.Field.{p, from_words};
ghost use Rattle.table.specs.Refusals.{answer, verdict};
ghost use Rattle.split_eq.specs.Split.{both_tables, folded};
ghost use Rattle.work.specs.Work.{work_words};
ghost use Rattle.ward.specs.Ward.{fold_answer, fold_work, fold_out};
ghost use Rattle.ward.specs.Inner.{size_tests, other_tests, Sized, Accepts, Tables};

use field::Element;
use multilinear::{Side, Weight};
use plan::Plan;
use point::Point;
use table::Refusal;

// The words of two tables of 10 coordinates.
const TABLES: usize = 2 * (4 << 10);

// What is folded: a table and a point in bytes, and a scale.
#[derive(Clone, Copy)]
pub struct Fold<'a> {
    pub side: Side,
    pub table: &'a [u8],
    pub point: &'a [u8],
    pub scale: Element,
}

impl<'a> Fold<'a> {
    #[tactic(auto, using(table::proofs::Outcomes::outcomes), unfolding(crate::specs::Ward::fold_work, crate::specs::Ward::fold_out))]
    pub fn compress(&self, work: &mut [u8], out: &mut [u8]) -> Result<(), Refusal>
        ensures result_value { answer result
            ≡ fold_answer self.now.table.now self.now.point.now self.now.scale work.old out.old }
        ensures work_after { work.new
            ≡ fold_work self.now.table.now self.now.point.now self.now.scale work.old out.old }
        ensures out_after { out.new
            ≡ fold_out self.now.side self.now.table.now self.now.point.now self.now.scale work.old
            out.old }
    {
        self.test(work, out)?;
        self.fill(work, out);
        Ok(())
    }

    fn test(&self, work: &[u8], out: &[u8]) -> Result<(), Refusal>
        ensures { answer result
            ≡ fold_answer self.now.table.now self.now.point.now self.now.scale work.now out.now }
    {
        self.test_sizes(work, out)?;
        self.test_others(work, out)
    }

    // 1, 2, 3.
    #[tactic(auto, using(table::proofs::Verdicts::tests, octets::proofs::Octets::words_length))]
    fn test_sizes(&self, work: &[u8], out: &[u8]) -> Result<(), Refusal>
        ensures { answer result ≡ verdict (size_tests self.now work.now out.now) }
    {
        let count = self.table.len() / 4;
        table::refuse_if(self.table.len() % 4 != 0, Refusal::Split)?;
        table::refuse_if(self.point.len() % 16 != 0, Refusal::Split)?;
        table::refuse_if(work.len() % 16 != 0, Refusal::Split)?;
        table::refuse_if(out.len() % 16 != 0, Refusal::Split)?;
        table::refuse_if(table::not_power(count), Refusal::NotPower)?;
        table::refuse_if(table::too_many_variables(count), Refusal::TooMany)?;
        table::refuse_if(table::MOST < self.point.len() / 4 / 4, Refusal::TooMany)
    }

    // 4, 5.
    #[tactic(auto, using(table::proofs::Verdicts::tests, octets::proofs::Octets::words_length))]
    fn test_others(&self, work: &[u8], out: &[u8]) -> Result<(), Refusal>
        requires { Sized self.now work.now out.now }
        ensures { answer result ≡ verdict (other_tests self.now work.now out.now) }
    {
        let n = table::variables(self.table.len() / 4);
        let k = self.point.len() / 4 / 4;
        let both = table::rows(k / 2) + table::rows(k - k / 2);
        let places = table::rows(n.saturating_sub(k));
        table::refuse_if(n < k, Refusal::Lengths)?;
        table::refuse_if(work.len() / 4 / 4 != both, Refusal::Lengths)?;
        table::refuse_if(out.len() / 4 / 4 != places, Refusal::Lengths)?;
        table::refuse_if(is_unreduced(self.table), Refusal::Unreduced)?;
        table::refuse_if(is_unreduced(self.point), Refusal::Unreduced)?;
        table::refuse_if(field::unreduced(&self.scale.c), Refusal::Unreduced)
    }

    // What an accepted call does. It stays a call: a refused one takes none of its room.
    #[inline(never)]
    fn fill(&self, work: &mut [u8], out: &mut [u8])
        requires { Accepts self.now work.old out.old }
        ensures work_after { work.new ≡ octets (both_tables (words self.now.point.now) self.now.scale) }
        ensures out_after { out.new
            ≡ octets (folded self.now.side Shifted (words self.now.table.now) (words self.now.point.now) self.now.scale) }
    {
        let n = table::variables(self.table.len() / 4);
        let k = self.point.len() / 4 / 4;
        let mut room = [0u32; plan::WORDS];
        let point = byte_points::coordinates(self.point, &mut room);
        fill_tables(work, Point::of(point), self.scale);
        let plan = Plan {
            n,
            k,
            columns: 1,
            side: self.side,
            weight: Weight::Shifted,
            scale: self.scale,
            coordinates: plan::padded(point),
        };
        byte_fold::compress(plan, self.table, out);
    }
}

// 5: a word of the bytes is not below p. By the largest word, as `field::unreduced` does.
fn is_unreduced(bytes: &[u8]) -> bool
    ensures { result ≡ unreduced p (words bytes.now) }
{
    let (fours, _) = bytes.as_chunks::<4>();
    let largest = fours
        .iter()
        .fold(0, |most, four| u32::max(most, octets::word_at(four, 0)));
    Element::MODULUS <= largest
}

// Both tables of the point, as bytes. It stays a call: its room is in no frame of the fold that follows.
#[inline(never)]
fn fill_tables(work: &mut [u8], point: Point, scale: Element)
    requires { Tables point scale work.old }
    ensures { work.new ≡ octets (work_words point.entry.count point.entry.words.now (from_words scale)) }
{
    let mut room = [0u32; TABLES];
    let tables = &mut room[..work.len() / 4];
    work::fill(tables, point, scale);
    octets::encode(tables, work);
}
