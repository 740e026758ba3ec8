// The sums that a product is made of.
ghost use Rattle.std.specs.Prelude.{◌+◌, ◌-◌, ◌*◌, ◌≤◌};
ghost use Rattle.field.specs.Field.{p};

// Of the lines that give one power: the sum of the products with factor 1, and that of those with FACTOR. They are four at most.
#[derive(Clone, Copy, Debug, PartialEq, Eq)]
pub struct Sums {
    pub once: u64,
    pub back: u64,
    pub ghost few: { once + back ≤ 4 * ((p - 1) * (p - 1)) },
}
