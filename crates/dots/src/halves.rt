// A sum of numbers of 64 bits, kept modulo 2^64 beside the sum of their high halves: that of their low halves is the first less the second
// times 2^32, modulo 2^64 too. It is divided once, at the end.
ghost use Rattle.std.specs.Prelude.{◌≡◌, ◌*◌, ◌%◌, ◌<◌, slice_index};
ghost use Rattle.field.specs.Field.{p};
ghost use Rattle.lowering.specs.Lowering.{unit_inverse};
ghost use Rattle.dots.specs.Inner.{low, value, Within, Grown, most_gains, at, Each, Room, EachGrown};

use field::{Element, word};

#[derive(Clone, Copy, Debug, Default, PartialEq, Eq)]
pub struct Halves {
    pub all: u64,
    pub hi: u64,
}

impl Halves {
    #[tactic(auto, unfolding(crate::specs::Inner::Within))]
    pub fn gain(self, x: u64) -> Self
        requires { Within most_gains self }
        ensures { Grown self x result }
    {
        Halves {
            all: self.all.wrapping_add(x),
            hi: self.hi + x / word::UNIT,
        }
    }

    // The sum of the low halves.
    #[tactic(auto, unfolding(crate::specs::Inner::low))]
    fn low(self) -> u64
        ensures { result ≡ low self }
    {
        self.all.wrapping_sub(self.hi % word::UNIT * word::UNIT)
    }

    // The sum divided by 2^64 modulo p, by no division, for loops of vectors.
    #[tactic(auto, unfolding(crate::specs::Inner::Within))]
    pub fn lowered(self) -> u32
        requires { Within most_gains self }
        ensures { result ≡ value self * (unit_inverse * unit_inverse) % p }
    {
        lowering::lower((lowering::lower(self.low()) as u64) + self.hi)
    }

    // The residue of the sum.
    #[tactic(auto, unfolding(crate::specs::Inner::Within))]
    pub fn settle(self) -> u32
        requires { Within most_gains self }
        ensures { result ≡ value self % p }
    {
        word::residue(self.low() + self.hi % (Element::MODULUS as u64) * word::UNIT)
    }
}

// N sums that hold nothing yet.
#[tactic(auto, unfolding(crate::specs::Inner::low, crate::specs::Inner::value, crate::specs::Inner::Within))]
pub fn none<const N: usize>() -> [Halves; N]
    ensures { Each N (λ k h. (value h ≡ 0) × Within 0 h) result }
{
    [Halves::default(); N]
}

// N sums, each with what it gains.
pub fn gain<const N: usize>(sums: [Halves; N], gains: [u64; N]) -> [Halves; N]
    requires { Room N sums }
    ensures { EachGrown N sums.entry gains.entry result }
{
    std::array::from_fn(
        |k|
            requires { (k < N) × Within most_gains (at sums k) }
            ensures { Grown (at sums k) (slice_index gains k) result }
        { sums[k].gain(gains[k]) },
    )
}
