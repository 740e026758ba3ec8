// Fixing a variable of a table in place: two entries become one, and what remains stands at the front.
//
//     prefix    [ a0 .. | a1 .. ]      ->  a0 + (a1 - a0) r, over the two halves
//     suffix    [ a0 a1 | a0 a1 .. ]   ->  the same, over neighbours
//
// The second half keeps its words.
#![tactic(auto)]

mod parts;
mod steps;

ghost use Rattle.std.specs.Prelude.{◌≡◌, ◌||◌, ◌+◌, ◌*◌, ◌^◌, ◌≤◌, ◌<◌, length};
ghost use Rattle.algebra.specs.Ring.{Ops, minus};
ghost use Rattle.algebra.specs.Words.{unreduced};
ghost use Rattle.field.specs.Field.{p, field};
ghost use Rattle.table.specs.Refusals.{answer, verdict, leaves};
ghost use Rattle.fixing.specs.Fixing.{Prefix, Suffix, Sum, Monomial};
ghost use Rattle.fixing.specs.Fixing.{remaining_outcome, fix_tests, fix_answer, fix_out, sum_answer, sum_out};
ghost use Rattle.fixing.specs.Inner.{size_tests, word_tests, TwoHalves, Pairs, Made, Combinable, Combined};
ghost use Rattle.fixing.specs.Inner.{part, paired, pair_of, halved};

use field::Element;
use multiplier::Multiplier;
use steps::{MonomialStep, PrefixStep, Step, SuffixStep};
use table::Refusal;

// The most entries of a part that is summed.
const PART: usize = 128;

// a0 + (a1 - a0) r over the two halves. The answer of each of these is the count of entries that remain, at the front.
pub fn fix_prefix_var_mut(entries: &mut [u32], r: Element) -> Result<usize, Refusal>
    ensures result_value { remaining_outcome result ≡ fix_answer entries.old r }
    ensures entries_after { entries.new ≡ fix_out Prefix entries.old r }
{
    fix::<PrefixStep>(entries, r)
}

// a0 + (a1 - a0) r over neighbours.
pub fn fix_suffix_var_mut(entries: &mut [u32], r: Element) -> Result<usize, Refusal>
    ensures result_value { remaining_outcome result ≡ fix_answer entries.old r }
    ensures entries_after { entries.new ≡ fix_out Suffix entries.old r }
{
    fix::<SuffixStep>(entries, r)
}

// a0 + a1 r over the two halves.
pub fn fix_prefix_var_mut_monomial(entries: &mut [u32], r: Element) -> Result<usize, Refusal>
    ensures result_value { remaining_outcome result ≡ fix_answer entries.old r }
    ensures entries_after { entries.new ≡ fix_out Monomial entries.old r }
{
    fix::<MonomialStep>(entries, r)
}

// a0 + a1 over the two halves; a constant comes back unchanged.
#[tactic(auto, using(crate::proofs::FixingOutcomes::sums))]
pub fn sum_prefix_var_mut(entries: &mut [u32]) -> Result<usize, Refusal>
    ensures result_value { remaining_outcome result ≡ sum_answer entries.old }
    ensures entries_after { entries.new ≡ sum_out entries.old }
{
    test_sizes(entries)?;
    let n = entries.len() / 4;
    if n == 1 {
        test_words(entries)?;
        return Ok(1);
    }
    sum_halves(entries, n / 2)?;
    Ok(n / 2)
}

// By a step: which entries of the table are a pair, and what of them r multiplies.
#[tactic(auto, using(crate::proofs::FixingOutcomes::counts), unfolding(crate::specs::Fixing::fix_answer, crate::specs::Fixing::fix_out))]
fn fix<S: Step>(entries: &mut [u32], r: Element) -> Result<usize, Refusal>
    ensures result_value { remaining_outcome result ≡ fix_answer entries.old r }
    ensures entries_after { entries.new ≡ fix_out S.rule entries.old r }
{
    test_fix(entries, r)?;
    let h = entries.len() / 4 / 2;
    parts::fix::<S>(entries, h, Multiplier::new(r));
    Ok(h)
}

#[tactic(auto, using(table::proofs::Verdicts::tests))]
fn test_fix(entries: &[u32], r: Element) -> Result<(), Refusal>
    ensures { answer result ≡ verdict (fix_tests entries.now r) }
{
    test_sizes(entries)?;
    table::refuse_if(field::unreduced(entries), Refusal::Unreduced)?;
    table::refuse_if(field::unreduced(&r.c), Refusal::Unreduced)?;
    table::refuse_if(entries.len() / 4 == 1, Refusal::Constant)
}

// 1, 2, 3.
#[tactic(auto, using(table::proofs::Verdicts::tests))]
fn test_sizes(entries: &[u32]) -> Result<(), Refusal>
    ensures { answer result ≡ verdict (size_tests entries.now) }
{
    let n = entries.len() / 4;
    table::refuse_if(table::splits(entries), Refusal::Split)?;
    table::refuse_if(table::not_power(n), Refusal::NotPower)?;
    table::refuse_if(table::too_many_variables(n), Refusal::TooMany)
}

// 5.
#[tactic(auto, using(table::proofs::Verdicts::tests))]
fn test_words(entries: &[u32]) -> Result<(), Refusal>
    ensures { answer result ≡ verdict (word_tests entries.now) }
{
    table::refuse_if(field::unreduced(entries), Refusal::Unreduced)
}

// 5 and the sums, part by part: a part's words are still at hand when they are summed. Where a later part is refused, the sums that
// were made are taken back. h is half the count of the entries, here and below: a struct of both would be made for this call alone.
fn sum_halves(entries: &mut [u32], h: usize) -> Result<(), Refusal>
    requires { TwoHalves h entries.old }
    ensures result_value { answer result ≡ verdict (word_tests entries.old) }
    ensures entries_after { entries.new
        ≡ leaves (verdict (word_tests entries.old)) (halved Sum h entries.old field.zero) entries.old }
{
    for at in (0..h).step_by(PART) {
        let n = PART.min(h - at);
        if is_unreduced(entries, h, at, n) {
            take_back(entries, h, at);
            return Err(Refusal::Unreduced);
        }
        add_part(entries, h, at, at + n);
    }
    Ok(())
}

// 5, of n entries from entry `at` on, and as many of the second half.
fn is_unreduced(entries: &[u32], h: usize, at: usize, n: usize) -> bool
    requires { TwoHalves h entries.now × (at + n ≤ h) }
    ensures { result ≡ unreduced p (part at n entries.now) || unreduced p (part (h + at) n entries.now) }
{
    is_part_unreduced(entries, at, n) | is_part_unreduced(entries, h + at, n)
}

// 5, of n entries from entry `from` on.
fn is_part_unreduced(entries: &[u32], from: usize, n: usize) -> bool
    requires { 4 * (from + n) ≤ length entries.now }
    ensures { result ≡ unreduced p (part from n entries.now) }
{
    let start = 4 * from;
    field::unreduced(&entries[start..start + 4 * n])
}

// Adds to entries from..to those of the second half. A loop of its own: tried through `combine`, sums are slower by 6%.
fn add_part(entries: &mut [u32], h: usize, from: usize, to: usize)
    requires { Pairs h from to entries.old }
    ensures { Made (paired field.add h entries.old) from to entries.old entries.new }
{
    for i in from..to {
        let a0 = table::get(entries, i);
        let a1 = table::get(entries, h + i);
        table::put(entries, i, a0.add(a1));
    }
}

// Takes from entries 0..to those of the second half: (a0 + a1) - a1 is a0.
fn take_back(entries: &mut [u32], h: usize, to: usize)
    requires { Pairs h 0 to entries.old }
    ensures { Made (paired (minus field) h entries.old) 0 to entries.old entries.new }
{
    combine(entries, to, move |i| halves(h, i), |sum, a1| sum.sub(a1));
}

// Entries 0..to become what `make` gives of the two entries that `pair` names. Those stand at or past the entry that is written, so
// each is read before it is written.
fn combine<P: Fn(usize) -> (usize, usize), F: Fn(Element, Element) -> Element>(
    entries: &mut [u32],
    to: usize,
    pair: P,
    make: F,
)
    requires { Combinable (P.pre pair) (P.post pair) (F.pre make) 0 to entries.old }
    ensures { Combined (P.post pair) (F.post make) 0 to entries.old entries.new }
{
    // By number: the pair of entry i is two places of one table.
    for i in 0..to {
        let (first, second) = pair(i);
        let made = make(table::get(entries, first), table::get(entries, second));
        table::put(entries, i, made);
    }
}

// The pair of entry i of h: its own of each half.
#[inline(always)]
fn halves(h: usize, i: usize) -> (usize, usize)
    requires { h + i < 2 ^ 64 }
    ensures { result ≡ pair_of Prefix h i }
{
    (i, h + i)
}
