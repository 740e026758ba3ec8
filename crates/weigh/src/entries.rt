// The tables that a value is taken of: of base words, and of elements of four words each.
ghost use Rattle.std.specs.Prelude.{ℕ, List};
ghost use Rattle.field.specs.Field.{Ext, field, from_words, Reduced, Holds};
ghost use Rattle.table.specs.Table.{element_at};
ghost use Rattle.weigh.specs.Entries.{WholeTable, Entry, Parted, word_at, table_value, words_parted, elements_parted};

use field::Element;
use point::Point;

pub trait Entries {
    ghost WIDTH: { ℕ };

    ghost entry: { List ℕ → ℕ → Ext };

    // The words of an entry.
    const WIDTH: usize;

    fn read(table: &[u32], y: usize) -> Element
        requires { Entry WIDTH y table.now }
        ensures { Holds result (entry table.now y) };

    // scale times the sum of eq[y] times entry y, over the rows.
    fn weigh(table: &[u32], point: Point, scale: Element) -> Element
        requires { Reduced scale × WholeTable WIDTH point.count table.now }
        ensures { Holds result
            (field.mul (from_words scale) (table_value entry point.entry table.now)) };

    ghost parted: { Parted WIDTH entry };
}

pub struct Words;

pub struct Elements;

impl Entries for Words {
    ghost WIDTH = { 1 };

    ghost entry = { word_at };

    const WIDTH: usize = 1;

    fn read(table: &[u32], y: usize) -> Element {
        Element::from_base(table[y])
    }

    fn weigh(table: &[u32], point: Point, scale: Element) -> Element {
        crate::weigh(table, point, scale)
    }

    ghost parted = { words_parted };
}

impl Entries for Elements {
    ghost WIDTH = { 4 };

    ghost entry = { element_at };

    const WIDTH: usize = 4;

    fn read(table: &[u32], y: usize) -> Element {
        table::read(table, y)
    }

    fn weigh(table: &[u32], point: Point, scale: Element) -> Element {
        crate::weigh_ext(table, point, scale)
    }

    ghost parted = { elements_parted };
}
