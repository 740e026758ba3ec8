// What the successor tables of a point give at a second one.
ghost use Rattle.std.specs.Prelude.{◌≡◌, ◌++◌};
ghost use Rattle.next.specs.Whole.{FourWords};

use field::Element;
use std::fmt;

// In the logic an array is a list of any length. So the fact that each of the three has its four words stands beside them: with it the twelve
// words determine the three.
#[derive(Clone, Copy)]
pub struct Parts {
    pub carry: Element,
    pub done: Element,
    pub omega: Element,
    pub ghost whole: { FourWords carry × FourWords done × FourWords omega },
}

impl Parts {
    // Of any three elements, wherever they are held: handed in by value, each has its four words, and there is nothing to show.
    pub fn new(carry: Element, done: Element, omega: Element) -> Self
        ensures carry { result.carry ≡ carry }
        ensures done { result.done ≡ done }
        ensures omega { result.omega ≡ omega }
    {
        Parts { carry, done, omega }
    }

    // The words of carry, done and omega, one after another.
    pub fn words(self) -> [u32; 12]
        ensures { result ≡ self.carry.c ++ self.done.c ++ self.omega.c }
    {
        let carry = self.carry.c;
        let done = self.done.c;
        let omega = self.omega.c;
        let mut words = [0u32; 12];
        words.copy_from_slice([carry, done, omega].as_flattened());
        words
    }
}

impl fmt::Display for Parts {
    fn fmt<W: fmt::Write>(&self, f: &mut fmt::Formatter<W>) -> fmt::Result {
        let carry = self.carry;
        let done = self.done;
        let omega = self.omega;
        write!(f, "{carry} {done} {omega}")
    }
}
