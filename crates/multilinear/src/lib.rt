// Definitions and laws over the operations of any ring: equality, successors, values and folds, and the products beside them. The code
// has the two choices of a fold alone, and the bytes that stand for them.
#![tactic(auto)]

ghost use Rattle.std.specs.Prelude.{◌≡◌};
ghost use Rattle.multilinear.specs.Bytes.{side_byte, weight_byte, SideFrom, WeightFrom};

use std::error::Error;
use std::fmt;

// Which variables of a table a fold sums over; its number is its byte.
#[derive(Clone, Copy, Debug, PartialEq, Eq)]
pub enum Side {
    // The first: a row is consecutive words.
    Prefix = 0,
    // The last: a place's rows are consecutive words.
    Suffix = 1,
}

// The weight of a row; its number is its byte.
#[derive(Clone, Copy, Debug, PartialEq, Eq)]
pub enum Weight {
    // eq of the row.
    Plain = 0,
    // eq of the row before; 0 at the first.
    Shifted = 1,
    // The shifted one, and the last row's own once more.
    Next = 2,
    // The shifted one, and at the first row eq of the last: the last row is followed by the first.
    Cyclic = 3,
}

// A byte that stands for no value.
#[derive(Clone, Copy, Debug, PartialEq, Eq)]
pub struct UnknownByte(pub u8);

impl fmt::Display for UnknownByte {
    fn fmt<W: fmt::Write>(&self, f: &mut fmt::Formatter<W>) -> fmt::Result {
        write!(f, "no value has byte {}", self.0)
    }
}

impl Error for UnknownByte {}

impl TryFrom<u8> for Side {
    type Error = UnknownByte;

    ghost try_from_gives = { SideFrom };

    fn try_from(byte: u8) -> Result<Self, UnknownByte> {
        match byte {
            0 => Ok(Side::Prefix),
            1 => Ok(Side::Suffix),
            _ => Err(UnknownByte(byte)),
        }
    }
}

impl From<Side> for u8 {
    ghost from_gives = { λ side byte. byte ≡ side_byte side };

    fn from(side: Side) -> u8 {
        side as u8
    }
}

impl TryFrom<u8> for Weight {
    type Error = UnknownByte;

    ghost try_from_gives = { WeightFrom };

    fn try_from(byte: u8) -> Result<Self, UnknownByte> {
        match byte {
            0 => Ok(Weight::Plain),
            1 => Ok(Weight::Shifted),
            2 => Ok(Weight::Next),
            3 => Ok(Weight::Cyclic),
            _ => Err(UnknownByte(byte)),
        }
    }
}

impl From<Weight> for u8 {
    ghost from_gives = { λ weight byte. byte ≡ weight_byte weight };

    fn from(weight: Weight) -> u8 {
        weight as u8
    }
}
