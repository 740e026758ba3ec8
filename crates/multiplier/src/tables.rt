// Tables of elements by the factor: element i of `rows` goes to place from + i of out.
use crate::Multiplier;

impl Multiplier {
    ghost use Rattle.std.specs.Prelude.{◌+◌, ◌<◌};
    ghost use Rattle.algebra.specs.Ring.{Ops};
    ghost use Rattle.field.specs.Field.{field, from_words, Reduced};
    ghost use Rattle.table.specs.Table.{get_at, element_at, entries};
    ghost use Rattle.table.specs.Gained.{Gained};
    ghost use Rattle.multiplier.specs.Tables.{Reaches, Becomes};

    // Each place gains r times its row.
    pub fn gain(self, out: &mut [u32], from: usize, rows: &[u32])
        requires reaches { Reaches from rows.now out.old }
        requires reduced { (y : _) → y < entries rows.now → Reduced (get_at out.old (from + y)) }
        ensures { Gained from (entries rows.now) (λ y. field.mul (from_words self.r) (element_at rows.now y)) out.old out.new }
    {
        // By number: of an element that `chunks_exact_mut` lent only its length is known after the loop.
        for i in 0..rows.len() / 4 {
            let sum = self.plus(table::get(out, from + i), table::read(rows, i));
            table::put(out, from + i, sum);
        }
    }

    // Each place becomes r times its row. It is not read: what a loop reads and writes at once the compiler gathers word by word.
    pub fn set(self, out: &mut [u32], from: usize, rows: &[u32])
        requires { Reaches from rows.now out.old }
        ensures { Becomes from (entries rows.now) (λ y. field.mul (from_words self.r) (element_at rows.now y)) out.old out.new }
    {
        // By number, as `gain`.
        for i in 0..rows.len() / 4 {
            table::put(out, from + i, self.times(table::read(rows, i)));
        }
    }
}
