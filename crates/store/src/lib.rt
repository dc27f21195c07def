// The store (document 01, Store): counts, layout, open, the check behind number 3, and rows. The caller lends its bytes; what they mean
// is `view` of specs/View.antt. The crates above go by offsets of `Counts` and lend each table on as a part of its own.
#![tactic(auto)]

pub mod check;
pub mod opening;
pub mod rows;

ghost use Rattle.std.specs.Prelude.{◌≡◌};
ghost use Rattle.store.specs.Store as spec;
ghost use Rattle.store.specs.Layout as layout;
ghost use Rattle.store.specs.Check as check_spec;

// Session numbers are below this.
pub const SESSIONS: usize = 256;

// "R, F, E, N": the bytes for the rule text, and the rows that each table has room for.
#[derive(Clone, Copy, Debug, PartialEq, Eq)]
pub struct Counts {
    pub bytes: u16,
    pub filters: u16,
    pub eqs: u16,
    pub notes: u16,
}

// What the header of a store as laid out says: its counts, the length of its rule text, and the rows used of each table.
#[derive(Clone, Copy, Debug, PartialEq, Eq)]
pub struct Shape {
    pub counts: Counts,
    pub text: usize,
    pub filters: usize,
    pub eqs: usize,
    pub notes: usize,
}

// Is a count from 1 to `most`?
#[tactic(auto, unfolding(crate::specs::Store::one_to))]
fn one_to(n: u64, most: u64) -> bool
    ensures { result ≡ spec.one_to most n }
{
    1 <= n && n <= most
}

impl Counts {
    pub const HEADER: usize = 16;

    // Filter row: rule, text length, owner length, 256 text, 64 owner.
    pub const FILTER: usize = 326;

    // Eq row: rule, length, 256 text.
    pub const EQ: usize = 260;

    // Note row: session, length, 256 text.
    pub const NOTE: usize = 260;

    // "R is 1 to 32,768; F, E, N 1 to 4,096."
    pub const BYTES: u64 = 32768;

    pub const ROWS: u64 = 4096;

    pub fn new(bytes: u64, filters: u64, eqs: u64, notes: u64) -> Option<Counts>
        ensures { result ≡ check_spec.counts_read (record { bytes = bytes; filters = filters; eqs = eqs; notes = notes }) }
    {
        if one_to(bytes, Self::BYTES)
            && one_to(filters, Self::ROWS)
            && one_to(eqs, Self::ROWS)
            && one_to(notes, Self::ROWS)
        {
            Some(Counts {
                bytes: bytes as u16,
                filters: filters as u16,
                eqs: eqs as u16,
                notes: notes as u16,
            })
        } else {
            None
        }
    }

    // "The length of a store follows from its four counts: 16 + R + 326F + 260E + 260N."
    #[tactic(auto, unfolding(crate::specs::Store::store_length))]
    pub fn length(self) -> usize
        ensures { result ≡ spec.store_length self }
    {
        Self::HEADER
            + self.bytes as usize
            + Self::FILTER * self.filters as usize
            + Self::EQ * self.eqs as usize
            + Self::NOTE * self.notes as usize
    }

    // Where the tables begin.
    #[tactic(auto, unfolding(crate::specs::Layout::filters_at))]
    pub fn filters_at(self) -> usize
        ensures { result ≡ layout.filters_at self }
    {
        Self::HEADER + self.bytes as usize
    }

    #[tactic(auto, unfolding(crate::specs::Layout::filters_at, crate::specs::Layout::eqs_at))]
    pub fn eqs_at(self) -> usize
        ensures { result ≡ layout.eqs_at self }
    {
        self.filters_at() + self.filters as usize * Self::FILTER
    }

    #[tactic(auto, unfolding(crate::specs::Layout::filters_at, crate::specs::Layout::eqs_at, crate::specs::Layout::notes_at))]
    pub fn notes_at(self) -> usize
        ensures { result ≡ layout.notes_at self }
    {
        self.eqs_at() + self.eqs as usize * Self::EQ
    }
}
