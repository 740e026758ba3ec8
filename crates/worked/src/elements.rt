// The field's examples.
ghost use Rattle.field.specs.Field.{Reduced};

use field::Element;
use std::io;

// The element of words that are below the modulus, and zero for others.
pub fn of_words(c: [u32; 4]) -> Element
    ensures { Reduced result }
{
    if field::unreduced(&c) {
        return Element::zero();
    }
    Element { c }
}

pub fn run(rt: &impl Print) -> io::Result<()> {
    let one = of_words([0, 1, 0, 0]).mul(of_words([0, 0, 0, 1]));
    println!(rt; "X * X^3 = {one}")?;
    let two = of_words([0, 0, 0, 2]).mul(of_words([0, 0, 0, 3]));
    println!(rt; "2X^3 * 3X^3 = {two}")?;
    let last = of_words([Element::MODULUS - 1, 0, 0, 0]);
    let square = last.mul(last);
    println!(rt; "(p - 1)^2 = {square}")
}
