// Compares the two stores: the used rows of each table, whatever their sequence, and all other bytes.
ghost use Rattle.std.specs.Prelude.{◌<◌};

use crate::Store;
use crate::saying::whether;
use store::Counts;
use table::{number_at, present};

// A table of a store: its rows' bytes, the size of a row, and how many are used.
#[derive(Clone, Copy, Debug)]
struct Table<'a> {
    bytes: &'a [u8],
    size: usize,
    used: usize,
    ghost sized: { 0 < size },
}

impl<'a> Table<'a> {
    // Is each used row one of the other table's?
    fn among(&self, other: &Table) -> bool {
        self.bytes
            .chunks_exact(self.size)
            .take(self.used)
            .all(|row| present(other.bytes, other.used, row))
    }

    // The bytes behind the used rows; all of them, where the table has no room for so many rows.
    fn rest(&self) -> &'a [u8] {
        self.bytes
            .get(self.used.saturating_mul(self.size)..)
            .unwrap_or(self.bytes)
    }
}

// Where a store has a table: its stretch, the size of a row, and where the header says how many are used.
#[derive(Clone, Copy, Debug)]
struct Place {
    word: &'static str,
    from: usize,
    to: usize,
    size: usize,
    header: usize,
    ghost sized: { 0 < size },
}

impl Place {
    // The table of a store that has this place.
    fn table<'a>(&self, store: &'a Store) -> Table<'a> {
        Table {
            bytes: store.get(self.from..self.to).unwrap_or(&[]),
            size: self.size,
            used: number_at(store, self.header),
        }
    }

    // Writes how many rows are used in both stores. Is each used row of the one a used row of the other?
    fn same_rows(&self, rt: &impl Print, a: &Table, b: &Table) -> bool {
        let _ = print!(rt; "{} rows used: {} and {}", self.word, a.used, b.used);
        let same = a.among(b) & b.among(a);
        whether(rt, same, ", each also used in the other store");
        same
    }
}

// The tables of a store of these counts.
fn places(counts: Counts) -> [Place; 3] {
    [
        Place {
            word: "filter",
            from: counts.filters_at(),
            to: counts.eqs_at(),
            size: Counts::FILTER,
            header: 10,
        },
        Place {
            word: "eq",
            from: counts.eqs_at(),
            to: counts.notes_at(),
            size: Counts::EQ,
            header: 12,
        },
        Place {
            word: "note",
            from: counts.notes_at(),
            to: counts.length(),
            size: Counts::NOTE,
            header: 14,
        },
    ]
}

// Compares two stores of R 256 and F, E, N 8.
pub(crate) fn alike(rt: &impl Print, a: &Store, b: &Store) -> bool {
    let Some(counts) = Counts::new(256, 8, 8, 8) else {
        let _ = println!(rt; "no such counts");
        return false;
    };
    let mut rows = true;
    // Before the tables stand the header and the rules.
    let mut others = a.get(..counts.filters_at()) == b.get(..counts.filters_at());
    for place in places(counts) {
        let one = place.table(a);
        let other = place.table(b);
        rows &= place.same_rows(rt, &one, &other);
        others &= one.rest() == other.rest();
    }
    whether(rt, others, "all other bytes are equal");
    whether(rt, a != b, "the used rows stand in another sequence");
    rows & others
}
