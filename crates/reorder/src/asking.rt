// Asks both stores the same questions.
use crate::Store;
use crate::listing::LONG;
use acl::{ConnectAnswer, PublishAnswer, SubscribeAnswer};
use rule::agreement::Client;
use rule::{Refusal, refusal_number};

// What a store answers to a question.
trait Answer {
    // A word and a number: that of a rule or of a refusal, or the answer that is kept.
    fn words(&self) -> (&'static str, u64);
}

impl Answer for ConnectAnswer {
    fn words(&self) -> (&'static str, u64) {
        match *self {
            ConnectAnswer::Kept(code) => ("kept", code),
            ConnectAnswer::Allow(rule, false) => ("allow", rule as u64),
            ConnectAnswer::Allow(rule, true) => ("super", rule as u64),
            ConnectAnswer::Refuse(rule) => ("refuse", rule as u64),
        }
    }
}

impl Answer for PublishAnswer {
    fn words(&self) -> (&'static str, u64) {
        match *self {
            PublishAnswer::Kept(code) => ("kept", code),
            PublishAnswer::Allow(rule) => ("allow", rule as u64),
            PublishAnswer::Refuse(rule, false) => ("refuse", rule as u64),
            PublishAnswer::Refuse(rule, true) => ("drop", rule as u64),
        }
    }
}

impl Answer for SubscribeAnswer {
    fn words(&self) -> (&'static str, u64) {
        match *self {
            SubscribeAnswer::Kept(code) => ("kept", code),
            SubscribeAnswer::Allow(rule, _) => ("allow", rule as u64),
            SubscribeAnswer::Refuse(rule) => ("refuse", rule as u64),
        }
    }
}

impl<A: Answer> Answer for Result<A, Refusal> {
    fn words(&self) -> (&'static str, u64) {
        match self {
            Ok(answer) => answer.words(),
            Err(cause) => ("error", refusal_number(*cause) as u64),
        }
    }
}

// Writes two answers side by side. Are they the same?
fn side_by_side<A: Answer + PartialEq + Drop>(rt: &impl Print, one: A, other: A) -> bool {
    let same = one == other;
    let (word, number) = one.words();
    let (word_too, number_too) = other.words();
    let verdict = if same { "same" } else { "DIFFERENT" };
    let _ = println!(rt; ": {word} {number}, {word_too} {number_too}: {verdict}");
    same
}

// The client with this id, name and protocol.
fn client<'a>(id: &'a str, name: Option<&'a str>, protocol: Option<u8>) -> Client<'a> {
    Client::new(
        id.as_bytes(),
        name.map(|name| name.as_bytes()),
        None,
        None,
        protocol,
    )
}

// Connects by each client. Are all answers the same?
fn connects(rt: &impl Print, stores: [&Store; 2]) -> bool {
    let [a, b] = stores;
    let mut same = true;
    for (id, name) in [
        ("g1", "ann"),
        ("g1", "bo"),
        ("g2", "bo"),
        ("g4", "cy"),
        (LONG, "bo"),
    ] {
        let _ = print!(rt; "connect {id} {name}");
        let client = client(id, Some(name), Some(4));
        same &= side_by_side(rt, acl::connect(a, 0, &client), acl::connect(b, 0, &client));
    }
    same
}

// Writes a question on a topic.
fn question(rt: &impl Print, word: &str, id: &str, name: Option<&str>, topic: &str) {
    let _ = match name {
        Some(name) => print!(rt; "{word} {id} {name} {topic}"),
        None => print!(rt; "{word} {id} {topic}"),
    };
}

// Asks both stores a question on a topic for each of these clients. Are all answers the same?
fn asked<A: Answer + PartialEq + Drop, F: Fn(&Store, &Client, &[u8]) -> A>(
    rt: &impl Print,
    stores: [&Store; 2],
    word: &str,
    questions: &[(&str, Option<&str>, &str)],
    ask: F,
) -> bool
    requires { F.IsAlwaysCallable ask }
{
    let [a, b] = stores;
    let mut same = true;
    for &(id, name, topic) in questions {
        question(rt, word, id, name, topic);
        let client = client(id, name, None);
        let topic = topic.as_bytes();
        same &= side_by_side(rt, ask(a, &client, topic), ask(b, &client, topic));
    }
    same
}

// Publishes by each client, with the disconnect flag. Are all answers the same?
fn publishes(rt: &impl Print, stores: [&Store; 2]) -> bool {
    let questions = [
        ("g1", Some("bo"), "bench/g1/step"),
        ("g1", Some("bo"), "room/bo/g1"),
        ("g1", Some("ann"), "room/ann/g1"),
        ("g2", Some("bo"), "bench/g2/step"),
        ("g3", None, "bench/g3/step"),
        ("g3", None, "bench/g2/step"),
        ("g4", Some("bo"), "bench/g4/step"),
        ("g4", Some("bo"), "eq/bo"),
        ("g5", Some("cy"), "bench/g5/step"),
        ("g5", Some("cy"), "eq/cy"),
        (LONG, Some("bo"), "eq/bo"),
    ];
    asked(rt, stores, "publish", &questions, |store, client, topic| {
        acl::publish(store, 0, client, topic, true)
    })
}

// Subscribes by each client with QoS 1. Are all answers the same?
fn subscribes(rt: &impl Print, stores: [&Store; 2]) -> bool {
    let questions = [
        ("g1", Some("bo"), "bench/g1/#"),
        ("g2", Some("bo"), "bench/g2/#"),
        ("g3", None, "room//g3"),
        ("g4", Some("bo"), "bench/g4/#"),
        ("g4", Some("bo"), "eq/ann"),
        ("g5", Some("cy"), "bench/#"),
    ];
    asked(
        rt,
        stores,
        "subscribe",
        &questions,
        |store, client, topic| { acl::subscribe(store, 0, client, topic, 1) },
    )
}

// All questions. Are all answers the same?
pub(crate) fn ask_all(rt: &impl Print, stores: [&Store; 2]) -> bool {
    connects(rt, stores) & publishes(rt, stores) & subscribes(rt, stores)
}
