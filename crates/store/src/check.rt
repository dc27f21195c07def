// The check behind number 3 (document 01, Refusals by operation): is a store as laid out? On any bytes of any length.
ghost use Rattle.std.specs.Prelude.{◌≡◌, ◌<◌, ℕ, Bool, List};
ghost use Rattle.store.specs.View as view_spec;
ghost use Rattle.store.specs.Check as spec;

use crate::rows::{behind, field, filter_text};
use crate::{Counts, SESSIONS, Shape};
use rule::read::count_rules;
use rule::{ID, TEXT};
use table::{all_zero, distinct, number_at};
use topic::valid_filter;

// "Rule text", of which the first `used` bytes count, and its padding.
fn text_rules(part: &[u8], used: usize) -> Option<usize>
    ensures { result ≡ spec.text_rules used part.now }
{
    if part.len() < used || !all_zero(&part[used..]) {
        return None;
    }
    count_rules(&part[..used]).ok()
}

// Is a field of `width` bytes from `at` on zero behind its first `n`?
#[tactic(auto, unfolding(crate::specs::Check::padded))]
fn padded(row: &[u8], at: usize, width: usize, n: usize) -> bool
    ensures { result ≡ spec.padded at width n row.now }
{
    n <= width && all_zero(behind(field(row, at, width), n))
}

// A kind of row: its size, and which of its rows are fine, their number below a bound.
trait RowKind {
    ghost SIZE: { ℕ };

    ghost fine: { ℕ → List ℕ → Bool };

    const SIZE: usize;

    fn is_fine(row: &[u8], bound: usize) -> bool
        ensures { result ≡ fine bound row.now };

    // A row has bytes.
    ghost some: { 0 < SIZE };
}

// Filter rows: "lengths, .. row rule numbers, .. filter validity", and padding.
struct FilterRows;

impl RowKind for FilterRows {
    ghost use Rattle.std.proofs.Common.{lit<};
    ghost use Rattle.store.specs.Store.{filter_size};
    ghost use Rattle.store.specs.Check.{filter_fine};

    ghost SIZE = { filter_size };

    ghost fine = { filter_fine };

    ghost some = { lit< tt };

    const SIZE: usize = Counts::FILTER;

    #[tactic(auto, unfolding(crate::specs::Check::filter_fine))]
    fn is_fine(row: &[u8], bound: usize) -> bool {
        number_at(row, 0) < bound
            && padded(row, 6, TEXT, number_at(row, 2))
            && padded(row, 6 + TEXT, ID, number_at(row, 4))
            && valid_filter(filter_text(row))
    }
}

// Eq rows, whose rule has to be below the bound, and note rows, whose session has.
struct NumberedRows;

impl RowKind for NumberedRows {
    ghost use Rattle.std.proofs.Common.{lit<};
    ghost use Rattle.store.specs.Store.{eq_size};
    ghost use Rattle.store.specs.Check.{numbered_fine};

    ghost SIZE = { eq_size };

    ghost fine = { numbered_fine };

    ghost some = { lit< tt };

    const SIZE: usize = Counts::EQ;

    #[tactic(auto, unfolding(crate::specs::Check::numbered_fine))]
    fn is_fine(row: &[u8], bound: usize) -> bool {
        number_at(row, 0) < bound && padded(row, 4, TEXT, number_at(row, 2))
    }
}

// One table: its used rows are there, each is fine, the others are zero, and no two are equal.
fn table_fine<R: RowKind>(part: &[u8], used: usize, bound: usize) -> bool
    ensures { result ≡ spec.table_fine R.SIZE (R.fine bound) used part.now }
{
    used <= part.len() / R::SIZE
        && part
            .chunks_exact(R::SIZE)
            .take(used)
            .all(|row| R::is_fine(row, bound))
        && all_zero(&part[used * R::SIZE..])
        && distinct(part, R::SIZE, used)
}

// The counts and lengths of a store as laid out.
#[tactic(auto, unfolding(crate::specs::Store::store_length, crate::specs::Layout::filters_at, crate::specs::Layout::eqs_at, crate::specs::Layout::notes_at))]
pub fn shape(store: &[u8]) -> Option<Shape>
    ensures { result ≡ spec.shape_of (view_spec.view store.now) }
{
    let counts = Counts::new(
        number_at(store, 0) as u64,
        number_at(store, 2) as u64,
        number_at(store, 4) as u64,
        number_at(store, 6) as u64,
    )?;
    if store.len() != counts.length() {
        return None;
    }
    let text = number_at(store, 8);
    let filters = number_at(store, 10);
    let eqs = number_at(store, 12);
    let notes = number_at(store, 14);
    let filters_at = counts.filters_at();
    let eqs_at = counts.eqs_at();
    let notes_at = counts.notes_at();
    let rules = text_rules(&store[Counts::HEADER..filters_at], text)?;
    if table_fine::<FilterRows>(&store[filters_at..eqs_at], filters, rules)
        && table_fine::<NumberedRows>(&store[eqs_at..notes_at], eqs, rules)
        && table_fine::<NumberedRows>(&store[notes_at..], notes, SESSIONS)
    {
        Some(Shape {
            counts,
            text,
            filters,
            eqs,
            notes,
        })
    } else {
        None
    }
}

// Is the store as laid out?
#[tactic(auto, unfolding(crate::specs::Check::shape_of, crate::specs::Check::is_there))]
pub fn check(store: &[u8]) -> bool
    ensures { result ≡ spec.is_there (view_spec.view store.now) }
{
    shape(store).is_some()
}
