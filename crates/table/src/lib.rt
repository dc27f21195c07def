// Tables of rows as bytes (document 01, Store). A table is a stretch of the store that is lent on as a part of its own; its rows are
// the part's whole rows of one size, the used ones first. Nothing here knows what a row says.
#![tactic(auto)]

mod sorting;
mod words;

ghost use Rattle.std.specs.Prelude.{ℕ, Bool, List, ◌≡◌, ◌++◌, ◌+◌, ◌≤◌, length, take, drop};
ghost use Rattle.text.specs.Text.{same as same_text, pasted};
ghost use Rattle.table.specs.Table.{distinct as distinct_rows};
ghost use Rattle.table.specs.Bytes as spec;

use crate::sorting::{FEW, MANY, Rows, pairwise};
use crate::words::same_row;

// So many bytes are tested for zero at once; from half as many on, two parts that may overlap.
const STRETCH: usize = 64;

const HALF: usize = 32;

// What `push` answers: the row was there, it was added, or there is no room for it.
#[derive(Clone, Copy, Debug, PartialEq, Eq)]
pub enum Pushed {
    Present,
    Added,
    Full,
}

// The number that the two bytes from `at` on say, the low one first; a byte that is missing counts as 0.
pub fn number_at(bytes: &[u8], at: usize) -> usize
    ensures { result ≡ spec.number (drop at bytes.now) }
{
    match bytes.get(at..) {
        Some([low, high, ..]) => u16::from_le_bytes([*low, *high]) as usize,
        Some([low]) => *low as usize,
        Some([]) => 0,
        None => 0,
    }
}

// Writes a number to the two bytes from `at` on, where the bytes have them; else nothing.
pub fn put_number(bytes: &mut [u8], at: usize, n: u16)
    ensures { bytes.new ≡ pasted at (spec.u16 n) bytes.old }
{
    text::paste(&n.to_le_bytes(), bytes, at);
}

// Are the bytes of a part zero? No way out at the first that isn't, so that it is done on many bytes at once.
fn zero_part(part: &[u8]) -> bool
    ensures { result ≡ spec.zeros part.now }
{
    part.iter().fold(true, |zero, &b| zero & (b == 0))
}

// Are all bytes zero? By stretches, of which the last may overlap the one before it. (`as_chunks` took a sixth more instructions on a row's padding.)
pub fn all_zero(bytes: &[u8]) -> bool
    ensures { result ≡ spec.zeros bytes.now }
{
    let n = bytes.len();
    if n < HALF {
        return zero_part(bytes);
    }
    if n < STRETCH {
        return zero_part(&bytes[..HALF]) & zero_part(&bytes[n - HALF..]);
    }
    let last = n - STRETCH;
    // A `for` over the stretches' numbers took 6 instructions a call more, and a sixth more time in a check of many rows.
    let mut zero = true;
    let mut i = 0;
    while i < last {
        zero = zero & zero_part(&bytes[i..i + STRETCH]);
        i += STRETCH;
    }
    zero & zero_part(&bytes[last..])
}

// Sets the bytes from `from` to before `to` to zero, where the buffer has them; else nothing.
pub fn clear(buffer: &mut [u8], from: usize, to: usize)
    ensures { buffer.new ≡ spec.cleared from to buffer.old }
{
    if from <= to && to <= buffer.len() {
        buffer[from..to].fill(0);
    }
}

// The row of a number, from 0, as a part of the table; the empty part where the table has no such whole row.
pub fn row_at(table: &[u8], size: usize, i: usize) -> &[u8]
    ensures { result.now ≡ spec.row_at size i table.now }
{
    if size == 0 || table.len() / size <= i {
        return &table[..0];
    }
    let at = i * size;
    &table[at..at + size]
}

// Is the row one of the first `used`?
pub fn present(table: &[u8], used: usize, row: &[u8]) -> bool
    ensures { result ≡ spec.present row.now used table.now }
{
    if row.is_empty() {
        return 0 < used;
    }
    table
        .chunks_exact(row.len())
        .take(used)
        .any(|other| same_row(row, other))
}

// "No two used rows of a table are equal." Up to 16 rows are compared each with all behind it, in less time than it takes to sort them.
pub fn distinct(table: &[u8], size: usize, used: usize) -> bool
    ensures { result ≡ distinct_rows same_text (spec.rows size used table.now) }
{
    if used <= 16 || MANY < used || size == 0 || table.len() / size < used {
        return pairwise(table, size, used);
    }
    let rows = Rows { table, size, used };
    if used <= FEW {
        rows.sorted::<FEW>()
    } else {
        rows.sorted::<MANY>()
    }
}

// Adds a row behind the used ones, unless it is present or there is no room for it.
pub fn push(table: &mut [u8], used: usize, row: &[u8]) -> Pushed
    ensures value { result ≡ spec.push_answer row.now used table.old }
    ensures table_after { table.new ≡ spec.pushed row.now used table.old }
{
    if present(table, used, row) {
        return Pushed::Present;
    }
    let Some(at) = used.checked_mul(row.len()) else {
        return Pushed::Full;
    };
    if text::paste(row, table, at) {
        Pushed::Added
    } else {
        Pushed::Full
    }
}

// Copies a row to an earlier place of the table, which it doesn't overlap.
fn move_row(table: &mut [u8], from: usize, to: usize, size: usize)
    requires apart { to + size ≤ from }
    requires in_bounds { from + size ≤ length table.old }
    ensures { table.new ≡ take to table.old ++ (take size (drop from table.old) ++ drop (to + size) table.old) }
{
    let (front, back) = table.split_at_mut(from);
    text::paste(&back[..size], front, to);
}

// Which rows go: the test that `remove` takes.
pub trait RowTest {
    ghost goes: { Self → List ℕ → Bool };

    // Does the row with these bytes go?
    fn goes(&self, row: &[u8]) -> bool
        ensures { result ≡ goes self.now row.now };
}

// Removes the rows that pass the test, closes the gaps and zeroes the bytes that are freed. Answers how many rows stay.
pub fn remove<T: RowTest>(table: &mut [u8], size: usize, used: usize, test: &T) -> usize
    ensures value { result ≡ length (spec.left (T.goes test.now) size used table.old) }
    ensures table_after { table.new ≡ spec.closed_up (T.goes test.now) size used table.old }
{
    let mut from = 0;
    let mut to = 0;
    let mut stay = 0;
    for _ in 0..used {
        if table.len() - from < size {
            break;
        }
        if !test.goes(&table[from..from + size]) {
            if to < from {
                move_row(table, from, to, size);
            }
            to += size;
            stay += 1;
        }
        from += size;
    }
    clear(table, to, from);
    stay
}

// Removes the rows with a mark that is not 0, in the same way. So the places say which rows go: one of two equal rows, too. It has a
// loop of its own, since one for both would ask each test for the row's place as well.
pub fn remove_marked(table: &mut [u8], size: usize, used: usize, marks: &[u8]) -> usize
    ensures value { result ≡ length (spec.kept size used marks.now table.old) }
    ensures table_after { table.new ≡ spec.removed size used marks.now table.old }
{
    let mut from = 0;
    let mut to = 0;
    let mut stay = 0;
    for i in 0..used {
        if table.len() - from < size {
            break;
        }
        if !is_marked(marks, i) {
            if to < from {
                move_row(table, from, to, size);
            }
            to += size;
            stay += 1;
        }
        from += size;
    }
    clear(table, to, from);
    stay
}

// Does the row of this number go?
#[tactic(auto, unfolding(crate::specs::Bytes::is_marked))]
fn is_marked(marks: &[u8], i: usize) -> bool
    ensures { result ≡ spec.is_marked marks.now i }
{
    match marks.get(i) {
        Some(mark) => *mark != 0,
        None => false,
    }
}

// Puts a table back to an earlier number of used rows: the rows behind them are zero again.
pub fn restore(table: &mut [u8], size: usize, earlier: usize, used: usize)
    ensures { table.new ≡ spec.restored size earlier used table.old }
{
    clear(
        table,
        earlier.saturating_mul(size),
        used.saturating_mul(size),
    );
}
