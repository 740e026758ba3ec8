// The words of a table of weights, each coordinate on its own.
ghost use Rattle.std.specs.Prelude.{◌≡◌, ◌+◌, ◌*◌, ◌/◌, ◌<◌, length};
ghost use Rattle.dots.specs.Dots.{Whole, Spread, Filled};

// The room becomes the table's words, spread.
pub fn fill<const WORDS: usize>(room: &mut [u64], table: &[u32])
    requires { Whole WORDS table.now × (length room.old ≡ WORDS) }
    ensures { Spread WORDS table.now room.new }
{
    for c in 0..4 {
        fill_coordinate::<WORDS>(room, table, c);
    }
}

// The same of coordinate c, where those before it are there.
fn fill_coordinate<const WORDS: usize>(room: &mut [u64], table: &[u32], c: usize)
    requires whole { Whole WORDS table.now × (c < 4) }
    requires before { Filled WORDS table.now (c * (WORDS / 4)) room.old }
    ensures { Filled WORDS table.now ((c + 1) * (WORDS / 4)) room.new }
{
    for y in 0..WORDS / 4 {
        room[c * (WORDS / 4) + y] = table[4 * y + c] as u64;
    }
}
