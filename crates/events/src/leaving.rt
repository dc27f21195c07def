// Disconnected and session end: the rows that pass a test are removed through their table's stretch. The arguments come one by one, as the C
// interface hands them over.
ghost use Rattle.std.specs.Prelude.{◌≡◌, ◌&&◌, length};
ghost use Rattle.topic.specs.Topic as filters;
ghost use Rattle.table.specs.Table.{some_row};
ghost use Rattle.table.specs.Bytes as table;
ghost use Rattle.store.specs.View.{view};
ghost use Rattle.events.specs.Event as event;
ghost use Rattle.events.specs.Leaving as spec;

use rule::{ID, Refusal};
use store::rows::{filter_owner, filter_text, numbered_text};
use store::{Counts, SESSIONS, check};
use table::{RowTest, number_at, put_number, remove};
use topic::{begins_apart, tree_match_known, valid_filter};

// Is the note a valid filter that this filter T-matches? Most differ before the filter's first wildcard; a note that matches is the one to check.
fn text_clears(filter: &[u8], note: &[u8]) -> bool
    ensures { result ≡ (filters.valid_filter note.now && filters.tree_match filter.now note.now) }
{
    !begins_apart(filter, note) && tree_match_known(filter, note, true) && valid_filter(note)
}

// Is the row a note of the session that is a valid filter and that this filter T-matches?
fn note_clears(row: &[u8], session: usize, filter: &[u8]) -> bool
    ensures { result ≡ event.clears session filter.now (spec.note_row row.now) }
{
    number_at(row, 0) == session && text_clears(filter, numbered_text(row))
}

// Is there such a note?
fn any_clears(notes: &[u8], session: usize, filter: &[u8]) -> bool
    ensures { result ≡ some_row (event.clears session filter.now) (spec.note_rows_in notes.now) }
{
    notes
        .chunks_exact(Counts::NOTE)
        .any(|row| note_clears(row, session, filter))
}

// The filter rows that a disconnect of a client clears, by the notes of its session.
#[derive(Clone, Copy)]
struct Cleared<'a> {
    notes: &'a [u8],
    session: usize,
    id: &'a [u8],
}

impl RowTest for Cleared<'_> {
    ghost goes = { λ t row. event.cleared t.session t.id.now (spec.note_rows_in t.notes.now) (spec.filter_row row) };

    fn goes(&self, row: &[u8]) -> bool {
        text::same(filter_owner(row), self.id)
            && any_clears(self.notes, self.session, filter_text(row))
    }
}

// Removes these filter rows. Answers how many stay.
fn remove_cleared(filters: &mut [u8], used: usize, notes: &[u8], session: usize, id: &[u8]) -> usize
    ensures value { result ≡ length (table.left (λ row. event.cleared session id.now (spec.note_rows_in notes.now) (spec.filter_row row)) 326 used filters.old) }
    ensures filters_after { filters.new ≡ table.closed_up (λ row. event.cleared session id.now (spec.note_rows_in notes.now) (spec.filter_row row)) 326 used filters.old }
{
    remove(
        filters,
        Counts::FILTER,
        used,
        &Cleared { notes, session, id },
    )
}

// The notes of a session.
#[derive(Clone, Copy)]
struct NotesOf {
    session: usize,
}

impl RowTest for NotesOf {
    ghost goes = { λ t row. event.of_session t.session (spec.note_row row) };

    fn goes(&self, row: &[u8]) -> bool {
        number_at(row, 0) == self.session
    }
}

// A client has disconnected: its rows that the session's notes name go; the notes stay.
#[tactic(auto, unfolding(store::specs::Store::store_length, store::specs::Layout::filters_at, store::specs::Layout::eqs_at, store::specs::Layout::notes_at))]
pub fn disconnected(store: &mut [u8], session: u64, id: &[u8]) -> Result<(), Refusal>
    ensures result_value { event.says result ≡ event.cause (event.disconnected session id.now) (view store.old) }
    ensures store_after { store.new ≡ event.after (event.disconnected session id.now) store.old }
{
    if ID < id.len() {
        return Err(Refusal::TooLong);
    }
    if SESSIONS <= session as usize {
        return Err(Refusal::OutOfRange);
    }
    let shape = check::shape(store).ok_or(Refusal::Malformed)?;
    let filters_at = shape.counts.filters_at();
    let eqs_at = shape.counts.eqs_at();
    let (front, notes) = store.split_at_mut(shape.counts.notes_at());
    let stay = remove_cleared(
        &mut front[filters_at..eqs_at],
        shape.filters,
        &notes[..shape.notes * Counts::NOTE],
        session as usize,
        id,
    );
    put_number(store, 10, stay as u16);
    Ok(())
}

// A session has ended: its notes go.
#[tactic(auto, unfolding(store::specs::Store::store_length, store::specs::Layout::filters_at, store::specs::Layout::eqs_at, store::specs::Layout::notes_at))]
pub fn ended(store: &mut [u8], session: u64) -> Result<(), Refusal>
    ensures result_value { event.says result ≡ event.cause (event.ended session) (view store.old) }
    ensures store_after { store.new ≡ event.after (event.ended session) store.old }
{
    if SESSIONS <= session as usize {
        return Err(Refusal::OutOfRange);
    }
    let shape = check::shape(store).ok_or(Refusal::Malformed)?;
    let notes_at = shape.counts.notes_at();
    let end = shape.counts.length();
    let test = NotesOf {
        session: session as usize,
    };
    let stay = remove(&mut store[notes_at..end], Counts::NOTE, shape.notes, &test);
    put_number(store, 14, stay as u16);
    Ok(())
}
