// What the programs write: answers, and elements of words.
#![tactic(auto)]

ghost use Rattle.std.specs.Prelude.{◌≡◌, ◌*◌, ◌/◌, min, length, take, Ok, Err, MatchResult};

use field::Element;
use std::fmt;
use table::Refusal;

// A value, or the refusal.
#[derive(Clone, Copy)]
pub struct Answer<T>(pub Result<T, Refusal>);

impl<T: fmt::Display> fmt::Display for Answer<T> {
    fn fmt<W: fmt::Write>(&self, f: &mut fmt::Formatter<W>) -> fmt::Result {
        match &self.0 {
            Ok(value) => write!(f, "{value}"),
            Err(refusal) => write!(f, "{refusal}"),
        }
    }
}

// The elements that words are.
#[derive(Clone, Copy)]
pub struct Elements<'a>(pub &'a [u32]);

impl fmt::Display for Elements<'_> {
    fn fmt<W: fmt::Write>(&self, f: &mut fmt::Formatter<W>) -> fmt::Result {
        let (elements, _) = self.0.as_chunks::<4>();
        for (i, words) in elements.iter().enumerate() {
            if 0 < i {
                f.write_str(" ")?;
            }
            let element = Element::from(*words);
            write!(f, "{element}")?;
        }
        Ok(())
    }
}

// The elements of a table that a call filled, or its refusal.
pub fn filled(answer: Result<(), Refusal>, out: &[u32]) -> Answer<Elements<'_>>
    ensures { MatchResult result.0 (λ e. (answer ≡ Ok tt) × (e.0.now ≡ out.now)) (λ e. answer ≡ Err e) }
{
    Answer(answer.map(|()| Elements(out)))
}

// The entries that a fixed table still has, at its front, or the refusal.
pub fn remaining(entries: Result<usize, Refusal>, table: &[u32]) -> Answer<Elements<'_>>
    ensures { MatchResult result.0
        (λ e. MatchResult entries (λ n. e.0.now ≡ take (4 * min n (length table.now / 4)) table.now) (λ _. ⊥))
        (λ e. entries ≡ Err e) }
{
    let most = table.len() / 4;
    Answer(entries.map(|entries| Elements(&table[..4 * entries.min(most)])))
}
