// The three events of a line.
ghost use Rattle.std.specs.Prelude.{◌≡◌};
ghost use Rattle.std.specs.Option.{unwrap_or};
ghost use Rattle.events.specs.Event as event;
ghost use Rattle.lines.specs.Call as call;
ghost use Rattle.lines.specs.Said as said;
ghost use Rattle.lines.specs.Reading as spec;

use crate::array::Array;
use crate::elements::{given_at, given_in, text_at};
use crate::output::{refused, says};
use crate::{Said, Word};
use events::connecting::connected;
use events::leaving::{disconnected, ended};
use rule::listed::number_at;
use rule::{LINE, Refusal};
use text::front;

#[tactic(auto, unfolding(crate::specs::Said::cause_said, events::specs::Event::says))]
fn event_said(answer: Result<(), Refusal>) -> Said
    ensures { result ≡ said.cause_said (event.says answer) }
{
    match answer {
        Ok(()) => says(Word::Done, 0),
        Err(cause) => refused(cause),
    }
}

// A connected line.
pub(crate) fn on_connected(store: &mut [u8], array: &Array) -> Option<Said>
    ensures value { unwrap_or result said.malformed ≡ said.call_said (call.connected_in (spec.elements array.now.line.now)) store.old }
    ensures store_after { store.new ≡ said.call_done (call.connected_in (spec.elements array.now.line.now)) store.old }
{
    if array.at.fifth.is_some() {
        return None;
    }
    let session = number_at(array.line, array.at.second)?;
    let mut ids = [0; LINE];
    let id = text_at(array.line, array.at.third, &mut ids).ok()?;
    let mut names = [0; LINE];
    let name = given_at(array.line, array.at.fourth, &mut names)?;
    let answer = connected(store, session, front(&ids, id), given_in(name, &names));
    Some(event_said(answer))
}

// A disconnected line.
pub(crate) fn on_disconnected(store: &mut [u8], array: &Array) -> Option<Said>
    ensures value { unwrap_or result said.malformed ≡ said.call_said (call.disconnected_in (spec.elements array.now.line.now)) store.old }
    ensures store_after { store.new ≡ said.call_done (call.disconnected_in (spec.elements array.now.line.now)) store.old }
{
    if array.at.fourth.is_some() {
        return None;
    }
    let session = number_at(array.line, array.at.second)?;
    let mut ids = [0; LINE];
    let id = text_at(array.line, array.at.third, &mut ids).ok()?;
    Some(event_said(disconnected(store, session, front(&ids, id))))
}

// A line of a session's end.
pub(crate) fn on_ended(store: &mut [u8], array: &Array) -> Option<Said>
    ensures value { unwrap_or result said.malformed ≡ said.call_said (call.ended_in (spec.elements array.now.line.now)) store.old }
    ensures store_after { store.new ≡ said.call_done (call.ended_in (spec.elements array.now.line.now)) store.old }
{
    if array.at.third.is_some() {
        return None;
    }
    let session = number_at(array.line, array.at.second)?;
    Some(event_said(ended(store, session)))
}
