// Tables of elements in lent words, and what a call can be refused for.
//
//     words   w0 w1 w2 w3 | w4 w5 w6 w7 | ..
//     element      0      |      1      | ..
#![tactic(auto)]

ghost use Rattle.std.specs.Prelude.{◌≡◌, false, true, not, MatchResult, ◌+◌, ◌*◌, ◌^◌, ◌≤◌, ◌<◌, eqb, length, replicate};
ghost use Rattle.algebra.specs.Words.{unreduced};
ghost use Rattle.field.specs.Field.{p, Holds};
ghost use Rattle.table.specs.Table.{get_at, put_at, element_at, entries};
ghost use Rattle.table.specs.Refusals.{number, answer, verdict, splits, too_many, miscounts, rows_differ, most, not_power, variables, too_many_variables};
ghost use Rattle.table.specs.Inner.{entry_tests};

use field::Element;
use std::error::Error;
use std::fmt;

// The most variables of a table, and coordinates of a point.
pub const MOST: usize = 20;

// The most columns of a table.
pub const MOST_COLUMNS: usize = 16;

// What a call is refused for.
#[derive(Clone, Copy, Debug, PartialEq, Eq)]
pub enum Refusal {
    Split = 1,
    NotPower = 2,
    TooMany = 3,
    Lengths = 4,
    Unreduced = 5,
    Constant = 6,
    NoVertex = 7,
    TooLong = 8,
    Missing = 9,
    Closed = 10,
    Broken = 11,
    NotFrame = 12,
    Coordinates = 13,
    NoPlace = 14,
    Columns = 15,
}

impl Refusal {
    // The number that answers give for it.
    pub fn number(self) -> u32
        ensures { result ≡ number self }
    {
        self as u32
    }
}

impl fmt::Display for Refusal {
    fn fmt<W: fmt::Write>(&self, f: &mut fmt::Formatter<W>) -> fmt::Result {
        write!(f, "refused {}", self.number())
    }
}

impl Error for Refusal {}

// 0, or the refusal's number.
pub fn answer(outcome: Result<(), Refusal>) -> u32
    ensures { result ≡ answer outcome }
{
    match outcome {
        Ok(()) => 0,
        Err(refusal) => refusal.number(),
    }
}

// The refusal, where the test holds. An operation's list of tests, in order, is a line `refuse_if(..)?;` for each.
pub fn refuse_if(test: bool, refusal: Refusal) -> Result<(), Refusal>
    ensures { MatchResult result (λ _. test ≡ false) (λ e. (test ≡ true) × (e ≡ refusal)) }
{
    if test { Err(refusal) } else { Ok(()) }
}

// 2, 3 for a table of `count` entries and a point.
#[tactic(auto, using(crate::proofs::Verdicts::tests))]
pub fn test_entries(count: usize, point: &[u32]) -> Result<(), Refusal>
    ensures { answer result ≡ verdict (entry_tests count point.now) }
{
    refuse_if(not_power(count), Refusal::NotPower)?;
    refuse_if(too_many_variables(count), Refusal::TooMany)?;
    refuse_if(too_many(point), Refusal::TooMany)
}

// 1: the words split an element.
pub fn splits(ws: &[u32]) -> bool
    ensures { result ≡ splits ws.now }
{
    ws.len() % 4 != 0
}

// 3: more coordinates than a point may have.
pub fn too_many(ws: &[u32]) -> bool
    ensures { result ≡ too_many ws.now }
{
    MOST < ws.len() / 4
}

// 4: the counts of elements disagree.
pub fn lengths_differ(a: &[u32], b: &[u32]) -> bool
    ensures { result ≡ not (eqb (entries a.now) (entries b.now)) }
{
    a.len() / 4 != b.len() / 4
}

// 4: the elements are not n.
pub fn miscounts(ws: &[u32], n: usize) -> bool
    ensures { result ≡ miscounts ws.now n }
{
    ws.len() / 4 != n
}

// 4: out has not a row for each vertex of k coordinates. No slice has as many as 2^62 elements.
pub fn rows_differ(out: &[u32], k: usize) -> bool
    ensures { result ≡ rows_differ out.now k }
{
    if 61 < k {
        return true;
    }
    out.len() / 4 != 1 << k
}

// 2: a table of n entries is no table of variables. By the count of ones: docs/READING.md, "Forms of document 01".
pub fn not_power(n: usize) -> bool
    ensures { result ≡ not_power n }
{
    usize::count_ones(n) != 1
}

// The variables of a table of n entries.
pub fn variables(n: usize) -> usize
    ensures { result ≡ variables n }
{
    usize::trailing_zeros(n) as usize
}

// 3: more variables than a table may have.
pub fn too_many_variables(n: usize) -> bool
    ensures { result ≡ too_many_variables n }
{
    MOST < variables(n)
}

// The rows of k coordinates.
pub fn rows(k: usize) -> usize
    requires { k ≤ most }
    ensures { result ≡ 2 ^ k }
{
    1 << k
}

// Element i of ws, by number as `get_at` says it: `try_into` of a slice would bring a `Result` that is never `Err`.
#[tactic(auto, unfolding(crate::specs::Table::get_at))]
pub fn get(ws: &[u32], i: usize) -> Element
    requires { 4 * i + 3 < length ws.now }
    ensures { result ≡ get_at ws.now i }
{
    let b = 4 * i;
    Element {
        c: [ws[b], ws[b + 1], ws[b + 2], ws[b + 3]],
    }
}

// Element i of words that were tested. That they were is a clause (`unreduced`), here and in the crates above: a type of tested words
// would be made again of each part that is cut of them, and at each write of words that are lent as `&mut`.
pub fn read(ws: &[u32], i: usize) -> Element
    requires { (4 * i + 3 < length ws.now) × (unreduced p ws.now ≡ false) }
    ensures { Holds result (element_at ws.now i) }
{
    get(ws, i)
}

// Sets element i of ws to e.
pub fn put(ws: &mut [u32], i: usize, e: Element)
    requires { 4 * i + 3 < length ws.old }
    ensures { ws.new ≡ put_at ws.old i e }
{
    let b = 4 * i;
    ws[b..b + 4].copy_from_slice(&e.c);
}

// Every word becomes 0.
pub fn clear(ws: &mut [u32])
    ensures { ws.new ≡ replicate (length ws.old) 0 }
{
    ws.fill(0)
}
