// The calls on points in bytes: at most 20 coordinates are decoded into an array of the function's own, and the word call does the rest.
#![tactic(auto)]

ghost use Rattle.std.specs.Prelude.{◌≡◌};
ghost use Rattle.octets.specs.Octets.{words, octets};
ghost use Rattle.table.specs.Refusals.{answer, outcome, verdict, most};
ghost use Rattle.point.specs.Point.{vertex_answer as vertex_of_words};
ghost use Rattle.next.specs.Next.{next_outcome, eval_next_answer as next_of_words};
ghost use Rattle.byte_points.specs.BytePoints.{vertex_sizes, vertex_answer, vertex_out, next_sizes, next_answer, next_out};
ghost use Rattle.byte_points.specs.Few.{Few};

use field::Element;
use next::Parts;
use point::WORDS;
use table::Refusal;

// out, of one element, becomes eq[vertex].
#[tactic(auto, using(crate::proofs::Outcomes::vertex))]
pub fn equality_at_vertex(point: &[u8], vertex: usize, out: &mut [u8]) -> Result<(), Refusal>
    ensures result_value { answer result ≡ vertex_answer point.now vertex out.old }
    ensures out_after { out.new ≡ vertex_out point.now vertex out.old }
{
    test_vertex(point, out)?;
    let value = at_vertex(point, vertex)?;
    octets::encode(&value.c, out);
    Ok(())
}

// out, of three elements, becomes carry, done and omega of two points.
#[tactic(auto, using(crate::proofs::Outcomes::next))]
pub fn eval_next(point: &[u8], other: &[u8], out: &mut [u8]) -> Result<(), Refusal>
    ensures result_value { answer result ≡ next_answer point.now other.now out.old }
    ensures out_after { out.new ≡ next_out point.now other.now out.old }
{
    test_next(point, other, out)?;
    let parts = next_of(point, other)?;
    octets::encode(&parts.words(), out);
    Ok(())
}

// 1, 3, 4.
#[tactic(auto, using(table::proofs::Verdicts::tests, octets::proofs::Octets::words_length))]
fn test_vertex(point: &[u8], out: &[u8]) -> Result<(), Refusal>
    ensures { answer result ≡ verdict (vertex_sizes point.now out.now) }
{
    table::refuse_if(point.len() % 16 != 0, Refusal::Split)?;
    table::refuse_if(out.len() % 16 != 0, Refusal::Split)?;
    table::refuse_if(table::MOST < point.len() / 4 / 4, Refusal::TooMany)?;
    table::refuse_if(out.len() / 4 / 4 != 1, Refusal::Lengths)
}

// 1, 3, 4.
#[tactic(auto, using(table::proofs::Verdicts::tests, octets::proofs::Octets::words_length))]
fn test_next(point: &[u8], other: &[u8], out: &[u8]) -> Result<(), Refusal>
    ensures { answer result ≡ verdict (next_sizes point.now other.now out.now) }
{
    let k = point.len() / 4 / 4;
    let m = other.len() / 4 / 4;
    table::refuse_if(point.len() % 16 != 0, Refusal::Split)?;
    table::refuse_if(other.len() % 16 != 0, Refusal::Split)?;
    table::refuse_if(out.len() % 16 != 0, Refusal::Split)?;
    table::refuse_if(table::MOST < k, Refusal::TooMany)?;
    table::refuse_if(table::MOST < m, Refusal::TooMany)?;
    table::refuse_if(k != m, Refusal::Lengths)?;
    table::refuse_if(out.len() / 4 / 4 != 3, Refusal::Lengths)
}

fn at_vertex(point: &[u8], vertex: usize) -> Result<Element, Refusal>
    requires { Few point.now }
    ensures { outcome result ≡ vertex_of_words (words point.now) vertex }
{
    let mut room = [0u32; WORDS];
    point::equality::equality_at_vertex(coordinates(point, &mut room), vertex)
}

fn next_of(point: &[u8], other: &[u8]) -> Result<Parts, Refusal>
    requires { Few point.now × Few other.now }
    ensures { next_outcome result ≡ next_of_words (words point.now) (words other.now) }
{
    let mut room = [0u32; WORDS];
    let mut other_room = [0u32; WORDS];
    next::eval_next(
        coordinates(point, &mut room),
        coordinates(other, &mut other_room),
    )
}

// The point's words, in the room that is lent.
pub fn coordinates<'a>(point: &[u8], room: &'a mut [u32; WORDS]) -> &'a [u32]
    requires { Few point.now }
    ensures { result.now ≡ words point.now }
{
    let words = &mut room[..point.len() / 4];
    octets::decode(point, 0, words);
    words
}
