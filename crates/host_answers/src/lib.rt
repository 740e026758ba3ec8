// Answers with values: 0 or the refusal's number, and the values in what was lent for them.
#![tactic(auto)]

ghost use Rattle.std.specs.Prelude.{◌≡◌};
ghost use Rattle.table.specs.Refusals.{answer, outcome};
ghost use Rattle.host_answers.specs.Host.{answered, shown, given_to};

use field::Element;
use table::Refusal;

// 0 and the value, or the refusal's number.
pub fn give<T: Copy>(given: Result<T, Refusal>, out: &mut T) -> u32
    ensures number { result ≡ answer given }
    ensures out_after { out.new ≡ given_to given out.old }
{
    match given {
        Err(refusal) => refusal.number(),
        Ok(value) => {
            *out = value;
            0
        }
    }
}

// 0 and the element's words, or the refusal's number.
pub fn give_words(given: Result<Element, Refusal>, out: &mut [u32; 4]) -> u32
    ensures { answered result out.new ≡ shown (outcome given) out.old }
{
    give(given.map(words), out)
}

// A function: a closure (tried) would need the clause too.
fn words(e: Element) -> [u32; 4]
    ensures { result ≡ e.c }
{
    e.c
}
