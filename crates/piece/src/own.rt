// The row that has a weight of its own beside the one that it is moved by: scale eq of the last row, whichever row has it.
ghost use Rattle.std.specs.Prelude.{◌≡◌, ◌<◌};
ghost use Rattle.multilinear.specs.Inner.{own_row};
ghost use Rattle.table.specs.Gained.{Gained};
ghost use Rattle.moved.specs.Moved.{Adds};
ghost use Rattle.piece.specs.Inner.{own_by, Apart, apart, Stands, row_by, reached};

use moved::Piece;
use multilinear::{Side, Weight};

// Where the words of a row stand in the table: that of place 0, and how far apart they are.
#[derive(Clone, Copy)]
struct Stand {
    start: usize,
    stride: usize,
}

// Which row of so many, if there is one.
pub fn own_row(weight: Weight, rows: usize) -> Option<usize>
    requires { 0 < rows }
    ensures { result ≡ own_row weight rows }
{
    match weight {
        Weight::Plain | Weight::Shifted => None,
        Weight::Next => Some(rows - 1),
        Weight::Cyclic => Some(0),
    }
}

// Its words in the piece, by its weight.
pub fn add_own(side: Side, piece: &Piece, out: &mut [u32])
    requires { Adds piece.now out.old }
    ensures { Gained 0 piece.now.inner (own_by side piece.now) out.old out.new }
{
    let rows = table::rows(piece.point.count);
    if let Some(row) = own_row(piece.weight, rows) {
        Stand::of(side, row, rows, piece.inner).add_row(piece, out);
    }
}

impl Stand {
    // Where the words of a row of `rows` stand.
    fn of(side: Side, row: usize, rows: usize, inner: usize) -> Stand
        requires { Apart row rows inner }
        ensures { result ≡ apart side row rows inner }
    {
        match side {
            Side::Prefix => Stand {
                start: row * inner,
                stride: 1,
            },
            Side::Suffix => Stand {
                start: row,
                stride: rows,
            },
        }
    }

    // The row's words in the piece by scale eq of the last row, which is made only where there are some.
    fn add_row(self, piece: &Piece, out: &mut [u32])
        requires { Adds piece.now out.old × Stands self piece.now.inner }
        ensures { Gained 0 piece.now.inner (row_by self piece.now) out.old out.new }
    {
        let first = self.reach(piece.inner, piece.taken);
        let end = self.reach(piece.inner, piece.taken + piece.words.len());
        if first == end {
            return;
        }
        let last = table::rows(piece.point.count) - 1;
        let eq = point::equality::at_row(piece.point, last);
        let start = self.start + first * self.stride - piece.taken;
        kernel::gain_row(
            out,
            first..end,
            &piece.words[start..],
            self.stride,
            piece.scale.mul(eq),
        );
    }

    // The places whose word of the row stands before word t of the table.
    fn reach(self, inner: usize, t: usize) -> usize
        requires { 0 < self.stride }
        ensures { result ≡ reached self inner t }
    {
        usize::min(inner, t.saturating_sub(self.start).div_ceil(self.stride))
    }
}
