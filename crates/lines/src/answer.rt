// An event line of `decide`: its call, and what came of it.
ghost use Rattle.std.specs.Prelude.{◌≡◌};
ghost use Rattle.std.specs.Option.{unwrap_or};
ghost use Rattle.lines.specs.Said as said;

use crate::array::Array;
use crate::asking::{ask_connect, ask_publish, ask_subscribe};
use crate::elements::form;
use crate::happening::{on_connected, on_disconnected, on_ended};
use crate::output::malformed;
use crate::{Form, Said};

// What is said of the line, if it is well formed.
#[tactic(auto, using(crate::proofs::ClientLaws::calls), unfolding(crate::specs::Said::line_said, crate::specs::Said::line_done, crate::specs::Said::call_said, crate::specs::Said::call_done, crate::proofs::AnswerLaws::call_as))]
fn said_of(store: &mut [u8], line: &[u8]) -> Option<Said>
    ensures value { unwrap_or result said.malformed ≡ said.line_said line.now store.old }
    ensures store_after { store.new ≡ said.line_done line.now store.old }
{
    let array = Array::read(line)?;
    match form(line, array.at.first)? {
        Form::Connect => ask_connect(store, &array),
        Form::Subscribe => ask_subscribe(store, &array),
        Form::Publish => ask_publish(store, &array),
        Form::Connected => on_connected(store, &array),
        Form::Disconnected => on_disconnected(store, &array),
        Form::Ended => on_ended(store, &array),
    }
}

// What is said of the line, on this store; an event changes the store, or, refused, leaves every byte.
pub fn answer(store: &mut [u8], line: &[u8]) -> Said
    ensures value { result ≡ said.line_said line.now store.old }
    ensures store_after { store.new ≡ said.line_done line.now store.old }
{
    said_of(store, line).unwrap_or(malformed())
}
