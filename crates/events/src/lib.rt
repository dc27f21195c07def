// Events: connected, disconnected and session end on a store (document 01, Events). An event reads the rule text and writes each table
// through its own stretch of the store; refused, it leaves every byte as it was.
#![tactic(auto)]

pub mod connecting;
pub mod leaving;
pub mod templates;

ghost use Rattle.std.specs.Prelude.{◌≡◌};

use store::{Counts, Shape};

// A topic of a rule, filled for a client: no template; a text over 256; a filter or an eq with the length of its text. An enum of its own,
// since a result of an option of a kind and a length says the same in more words.
#[derive(Clone, Copy, Debug, PartialEq, Eq)]
pub enum FilledTopic {
    Static,
    TooLong,
    Filter(usize),
    Eq(usize),
}

// The three tables.
#[derive(Clone, Copy, Debug, PartialEq, Eq)]
pub enum Table {
    Filters,
    Eqs,
    Notes,
}

impl Table {
    ghost use Rattle.events.specs.Pushes as spec;

    // Where its stretch of a store begins, and where it ends.
    #[tactic(auto, unfolding(crate::specs::Pushes::table_at, crate::specs::Pushes::table_end))]
    fn stretch(self, counts: Counts) -> (usize, usize)
        ensures from { result.0 ≡ spec.table_at self counts }
        ensures to { result.1 ≡ spec.table_end self counts }
    {
        match self {
            Table::Filters => (counts.filters_at(), counts.eqs_at()),
            Table::Eqs => (counts.eqs_at(), counts.notes_at()),
            Table::Notes => (counts.notes_at(), counts.length()),
        }
    }

    // How many of its rows are used.
    #[tactic(auto, unfolding(crate::specs::Pushes::table_used))]
    fn used(self, shape: Shape) -> usize
        ensures { result ≡ spec.table_used self shape }
    {
        match self {
            Table::Filters => shape.filters,
            Table::Eqs => shape.eqs,
            Table::Notes => shape.notes,
        }
    }
}
