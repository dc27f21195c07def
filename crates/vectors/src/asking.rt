// A recorded question on a store: its rules opened, the call, and what is answered as a word and a digit. `judging` reads a line by these.
ghost use Rattle.std.specs.Prelude.{◌≡◌};
ghost use Rattle.mqtt_acl.specs.Answers.{packed};
ghost use Rattle.questions.specs.Decision.{ask};
ghost use Rattle.vectors.specs.Asking as spec;

use crate::fields::{Client, digit, field, rest};
use mqtt_acl::{mqtt_acl_connect, mqtt_acl_open, mqtt_acl_publish, mqtt_acl_subscribe};

// The store of a question: R 512, F, E and N 1.
const STORE: usize = 1374;

const RULES: usize = 512;

// The store, opened for rules with `|` between them; none without room for their text.
fn opened(rules: &[u8]) -> Option<[u8; STORE]>
    ensures { result ≡ spec.opened rules.now }
{
    let mut lines = [0u8; RULES];
    let n = text::replace(rules, b"|", b"\n", &mut lines)?;
    let mut store = [0u8; STORE];
    mqtt_acl_open(&mut store, RULES as u64, 1, 1, 1, &lines[..n]);
    Some(store)
}

// May the client of the line connect? Its protocol is always given. The C interface takes an optional value as two, so that each call here
// lists them.
fn connect_answer(line: &[u8], store: &[u8]) -> u32
    ensures { result ≡ packed (ask (spec.connect_of line.now) store.now) }
{
    let client = Client::at(line, 5);
    mqtt_acl_connect(
        store,
        u64::from(digit(field(line, 4))),
        client.id,
        client.name.has,
        client.name.text,
        client.password.has,
        client.password.text,
        client.address.has,
        client.address.text,
        digit(client.protocol.text),
    )
}

// May it subscribe to the line's topic, with this QoS?
#[tactic(auto, unfolding(crate::specs::Asking::subscribe_of))]
fn subscribe_answer(line: &[u8], store: &[u8]) -> u32
    ensures { result ≡ packed (ask (spec.subscribe_of line.now) store.now) }
{
    let client = Client::at(line, 5);
    mqtt_acl_subscribe(
        store,
        u64::from(digit(field(line, 4))),
        client.id,
        client.name.has,
        client.name.text,
        client.password.has,
        client.password.text,
        client.address.has,
        client.address.text,
        client.protocol.has,
        digit(client.protocol.text),
        field(line, 10),
        u64::from(digit(field(line, 11))),
    )
}

// May it publish to the line's topic? With the disconnect flag where the field behind it is 1.
#[tactic(auto, unfolding(crate::specs::Asking::publish_of, mqtt_acl::specs::Rules::yes, mqtt_acl::specs::Rules::flag))]
fn publish_answer(line: &[u8], store: &[u8]) -> u32
    ensures { result ≡ packed (ask (spec.publish_of line.now) store.now) }
{
    let client = Client::at(line, 5);
    mqtt_acl_publish(
        store,
        u64::from(digit(field(line, 4))),
        client.id,
        client.name.has,
        client.name.text,
        client.password.has,
        client.password.text,
        client.address.has,
        client.address.text,
        client.protocol.has,
        digit(client.protocol.text),
        field(line, 10),
        u8::from(digit(field(line, 11)) == 1),
    )
}

// What the line's question is answered; none, where it has no such question, or no room for its rules.
#[tactic(auto, using(text::proofs::Laws::same_lengths, crate::proofs::Laws::same_heads), unfolding(crate::specs::Asking::store_answer, crate::specs::Asking::question_named, text::specs::Text::same))]
pub fn store_answer(line: &[u8]) -> Option<u32>
    ensures { result ≡ spec.store_answer line.now }
{
    let store = opened(rest(line, 12))?;
    match field(line, 1) {
        b"connect" => Some(connect_answer(line, &store)),
        b"subscribe" => Some(subscribe_answer(line, &store)),
        b"publish" => Some(publish_answer(line, &store)),
        _ => None,
    }
}

// The word of what is answered.
#[tactic(auto, unfolding(crate::specs::Asking::word_of))]
fn word_of(what: u32) -> &'static [u8]
    ensures { result.now ≡ spec.word_of what }
{
    match what {
        0 => b"error",
        1 => b"kept",
        2 | 7 => b"allow",
        3 => b"super",
        4 => b"allow-qos0",
        5 => b"allow-qos1",
        6 => b"allow-qos2",
        10 => b"drop",
        _ => b"refuse",
    }
}

// Is this the word of what is answered?
#[tactic(auto, unfolding(crate::specs::Asking::is_word))]
pub fn is_word(what: u32, word: &[u8]) -> bool
    ensures { result ≡ spec.is_word what word.now }
{
    text::same(word, word_of(what))
}
