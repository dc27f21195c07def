// Connected: the filled templates become rows of the three tables. `connected` takes its texts one by one, as the C interface hands them over;
// inside, who connects is one value.
ghost use Rattle.std.specs.Option.{option_copied};
ghost use Rattle.std.specs.Prelude.{◌≡◌, ◌≤◌, ◌+◌, ◌-◌, false, length, take, drop, None, Some};
ghost use Rattle.json_text.specs.Lines.{lines};
ghost use Rattle.rule.specs.Limits.{id_limit, lines_limit};
ghost use Rattle.rule.specs.Refusals.{first};
ghost use Rattle.store.specs.View.{view};
ghost use Rattle.store.specs.Store.{View};
ghost use Rattle.store.specs.Check.{shape_of};
ghost use Rattle.events.specs.Event as event;
ghost use Rattle.events.specs.Templates as templates;
ghost use Rattle.events.specs.Pushes as spec;

use crate::templates::{fill_topic, topics};
use crate::{FilledTopic, Table};
use json_text::splitting::Lines;
use rule::{ID, Refusal, TEXT};
use store::rows::{put_filter, put_numbered};
use store::{Counts, SESSIONS, Shape, check};
use table::{Pushed, push, put_number, restore};
use text::front;
use topic::valid_filter;

// Who connects: the session, the client id, which isn't over the limit, and the user name, if one is given.
#[derive(Clone, Copy)]
struct Connecting<'a> {
    session: u16,
    id: &'a [u8],
    name: Option<&'a [u8]>,
    ghost short: { length id.now ≤ id_limit },
}

// Pushes a filled filter, if it is valid, as a filter row owned by the client. Beside `push_numbered`: one function for both would take the
// row's size, how it is written and an owner that may be absent.
fn push_filter(part: &mut [u8], used: usize, rule: u16, text: &[u8], id: &[u8]) -> Pushed
    ensures value { result ≡ spec.pushes_answer (spec.filter_bytes rule text.now id.now) used part.old }
    ensures part_after { part.new ≡ spec.pushes (spec.filter_bytes rule text.now id.now) used part.old }
{
    if !valid_filter(text) {
        return Pushed::Present;
    }
    let mut row = [0u8; Counts::FILTER];
    put_filter(&mut row, rule, text, id);
    push(part, used, &row)
}

// Pushes an eq row with its rule, or a note row with its session.
fn push_numbered(part: &mut [u8], used: usize, n: u16, text: &[u8]) -> Pushed
    ensures value { result ≡ spec.pushes_answer (spec.numbered_bytes n text.now) used part.old }
    ensures part_after { part.new ≡ spec.pushes (spec.numbered_bytes n text.now) used part.old }
{
    let mut row = [0u8; Counts::EQ];
    put_numbered(&mut row, n, text);
    push(part, used, &row)
}

// Pushes the row that a filled topic is in this table; where it is none there, nothing is to be added.
#[tactic(auto, unfolding(crate::specs::Pushes::topic_bytes, crate::specs::Pushes::filter_in, crate::specs::Pushes::eq_in, crate::specs::Pushes::pushes, crate::specs::Pushes::pushes_answer))]
fn push_topic(
    part: &mut [u8],
    used: usize,
    table: Table,
    rule: u16,
    who: Connecting,
    topic: FilledTopic,
    text: &[u8],
) -> Pushed
    ensures value { result ≡ spec.pushes_answer (spec.topic_bytes table rule who.entry.session who.entry.id.now topic text.now) used part.old }
    ensures part_after { part.new ≡ spec.pushes (spec.topic_bytes table rule who.entry.session who.entry.id.now topic text.now) used part.old }
{
    match (table, topic) {
        (Table::Filters, FilledTopic::Filter(n)) => {
            push_filter(part, used, rule, front(text, n), who.id)
        }
        (Table::Notes, FilledTopic::Filter(n)) => {
            push_numbered(part, used, who.session, front(text, n))
        }
        (Table::Eqs, FilledTopic::Eq(n)) => push_numbered(part, used, rule, front(text, n)),
        _ => Pushed::Present,
    }
}

// Pushes the rows that the event has for one table, whose used rows are `earlier`.
fn push_rows(
    part: &mut [u8],
    rules: &[u8],
    table: Table,
    earlier: usize,
    who: Connecting,
) -> Option<usize>
    requires few_lines { length (lines rules.now) ≤ lines_limit }
    requires none_over { templates.over_filled rules.now who.id.now (option_copied who.name) ≡ false }
    ensures value { result ≡ spec.all_answer (spec.new_bytes table who.entry.session rules.now who.entry.id.now (option_copied who.entry.name)) earlier part.old }
    ensures part_after { part.new ≡ spec.all_pushed (spec.new_bytes table who.entry.session rules.now who.entry.id.now (option_copied who.entry.name)) earlier part.old }
{
    let mut used = earlier;
    let mut rule = 0;
    for line in Lines::new(rules) {
        for p in topics(line) {
            let mut text = [0u8; TEXT];
            let topic = fill_topic(line, p, who.id, who.name, &mut text);
            match push_topic(part, used, table, rule, who, topic, &text) {
                Pushed::Present => {}
                Pushed::Added => {
                    used += 1;
                }
                Pushed::Full => {
                    return None;
                }
            }
        }
        rule += 1;
    }
    Some(used)
}

// The same for a table of the store, which is written through its own stretch; the rule text stands before the tables.
fn push_all(store: &mut [u8], shape: Shape, table: Table, who: Connecting) -> Option<usize>
    requires in_order { (16 + shape.text ≤ spec.table_at table shape.counts) × (spec.table_at table shape.counts ≤ spec.table_end table shape.counts) × (spec.table_end table shape.counts ≤ length store.old) }
    requires few_lines { length (lines (drop 16 (take (16 + shape.text) store.old))) ≤ lines_limit }
    requires none_over { templates.over_filled (drop 16 (take (16 + shape.text) store.old)) who.id.now (option_copied who.name) ≡ false }
    ensures value { result ≡ spec.all_answer (spec.new_bytes table who.entry.session (drop 16 (take (16 + shape.text) store.old)) who.entry.id.now (option_copied who.entry.name)) (spec.table_used table shape) (take (spec.table_end table shape.counts - spec.table_at table shape.counts) (drop (spec.table_at table shape.counts) store.old)) }
    ensures store_after { store.new ≡ spec.replaced (spec.table_at table shape.counts) (spec.table_end table shape.counts) (spec.all_pushed (spec.new_bytes table who.entry.session (drop 16 (take (16 + shape.text) store.old)) who.entry.id.now (option_copied who.entry.name)) (spec.table_used table shape)) store.old }
{
    let (from, to) = table.stretch(shape.counts);
    let text_end = Counts::HEADER + shape.text;
    let (front, tables) = store.split_at_mut(from);
    let rules = &front[Counts::HEADER..text_end];
    push_rows(
        &mut tables[..to - from],
        rules,
        table,
        table.used(shape),
        who,
    )
}

// Is the topic at this place a template whose text is over 256, filled for the client?
fn topic_over(line: &[u8], topic: usize, who: Connecting) -> bool
    ensures { result ≡ templates.topic_over who.entry.id.now (option_copied who.entry.name) line.now topic }
{
    let mut text = [0u8; TEXT];
    matches!(
        fill_topic(line, topic, who.id, who.name, &mut text),
        FilledTopic::TooLong
    )
}

// Is one of a line's?
fn line_over(line: &[u8], who: Connecting) -> bool
    ensures { result ≡ templates.line_over who.entry.id.now (option_copied who.entry.name) line.now }
{
    topics(line).any(|p| topic_over(line, p, who))
}

// "7 a text over 256 after both replacements": is there one?
fn over_filled(rules: &[u8], who: Connecting) -> bool
    ensures { result ≡ templates.over_filled rules.now who.entry.id.now (option_copied who.entry.name) }
{
    Lines::new(rules).any(|line| line_over(line, who))
}

// Puts back the three tables to the rows used earlier: these many filter, eq and note rows are used now.
#[tactic(auto, unfolding(store::specs::Store::store_length, store::specs::Layout::filters_at, store::specs::Layout::eqs_at, store::specs::Layout::notes_at))]
fn put_back(store: &mut [u8], shape: Shape, filters: usize, eqs: usize, notes: usize)
    ensures { store.new ≡ spec.put_back shape filters eqs notes store.old }
{
    let filters_at = shape.counts.filters_at();
    let eqs_at = shape.counts.eqs_at();
    let notes_at = shape.counts.notes_at();
    let end = shape.counts.length();
    if store.len() < end {
        return;
    }
    restore(
        &mut store[filters_at..eqs_at],
        Counts::FILTER,
        shape.filters,
        filters,
    );
    restore(&mut store[eqs_at..notes_at], Counts::EQ, shape.eqs, eqs);
    restore(&mut store[notes_at..end], Counts::NOTE, shape.notes, notes);
}

// Adds the event's rows to the three tables. Where one is full, all are put back: 8, 9, 10 in this order.
fn fill_tables(store: &mut [u8], shape: Shape, who: Connecting) -> Result<(), Refusal>
    requires store_value { shape_of (view store.old) ≡ Some shape }
    requires names_value { first (event.argument_causes (event.connected who.session who.id.now (option_copied who.name))) ≡ None }
    requires names_value_2 { (v : View) → view store.old ≡ Some v → templates.over_filled v.text who.id.now (option_copied who.name) ≡ false }
    ensures result_value { event.says result ≡ event.cause (event.connected who.entry.session who.entry.id.now (option_copied who.entry.name)) (view store.old) }
    ensures store_after { store.new ≡ event.after (event.connected who.entry.session who.entry.id.now (option_copied who.entry.name)) store.old }
{
    let Some(filters) = push_all(store, shape, Table::Filters, who) else {
        put_back(
            store,
            shape,
            shape.counts.filters as usize,
            shape.eqs,
            shape.notes,
        );
        return Err(Refusal::FiltersFull);
    };
    let Some(eqs) = push_all(store, shape, Table::Eqs, who) else {
        put_back(
            store,
            shape,
            filters,
            shape.counts.eqs as usize,
            shape.notes,
        );
        return Err(Refusal::EqsFull);
    };
    let Some(notes) = push_all(store, shape, Table::Notes, who) else {
        put_back(store, shape, filters, eqs, shape.counts.notes as usize);
        return Err(Refusal::NotesFull);
    };
    put_number(store, 10, filters as u16);
    put_number(store, 12, eqs as u16);
    put_number(store, 14, notes as u16);
    Ok(())
}

// "1 .. name over 64 bytes."
#[tactic(auto, unfolding(crate::specs::Event::over_name))]
fn name_over(name: Option<&[u8]>) -> bool
    ensures { result ≡ event.over_name (option_copied name.entry) }
{
    name.is_some_and(|name| ID < name.len())
}

// A client has connected: its rows are added.
pub fn connected(
    store: &mut [u8],
    session: u64,
    id: &[u8],
    name: Option<&[u8]>,
) -> Result<(), Refusal>
    ensures result_value { event.says result ≡ event.cause (event.connected session id.now (option_copied name.entry)) (view store.old) }
    ensures store_after { store.new ≡ event.after (event.connected session id.now (option_copied name.entry)) store.old }
{
    if ID < id.len() || name_over(name) {
        return Err(Refusal::TooLong);
    }
    if SESSIONS <= session as usize {
        return Err(Refusal::OutOfRange);
    }
    let shape = check::shape(store).ok_or(Refusal::Malformed)?;
    let text_end = Counts::HEADER + shape.text;
    let session = session as u16;
    let who = Connecting { session, id, name };
    if over_filled(&store[Counts::HEADER..text_end], who) {
        return Err(Refusal::FilledTooLong);
    }
    fill_tables(store, shape, who)
}
