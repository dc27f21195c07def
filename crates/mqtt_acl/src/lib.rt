// The library for C and Rust: what a host calls, under names that begin with `mqtt_acl_`; `mqtt_acl_c` exports it. Of the other crates only
// `vectors` calls it. A text and a store are lent; `mqtt_acl_open` and the events write the store, the questions only read it. An optional
// value is a flag, which is a byte, and the value beside it, and an answer a number, since C has no `Option` and no `Result`. Answers on a
// store are the numbers of specs/Answers.antt, and `unpacking` takes them apart.
#![tactic(auto)]

pub mod clients;
pub mod hosts;
pub mod unpacking;

ghost use Rattle.std.specs.Prelude.{◌≡◌, ◌≤◌, length, Some};
ghost use Rattle.std.specs.Option.{option_map};
ghost use Rattle.json_text.specs.Json.{line_value};
ghost use Rattle.json_text.specs.Access.{is_document, document_within};
ghost use Rattle.topic.specs.Topic as spec;
ghost use Rattle.std.specs.Option.{option_copied};
ghost use Rattle.store.specs.Opening as opening;
ghost use Rattle.store.specs.View.{view};
ghost use Rattle.events.specs.Event as event;
ghost use Rattle.questions.specs.Question as question;
ghost use Rattle.questions.specs.Decision.{ask};
ghost use Rattle.questions.specs.Answers as said;
ghost use Rattle.mqtt_acl.specs.Rules as rules;
ghost use Rattle.mqtt_acl.specs.Answers as answers;

use events::connecting::connected;
use events::leaving::{disconnected, ended};
use questions::ask::{connect, publish, subscribe};
use questions::{ConnectAnswer, PublishAnswer, SubscribeAnswer};
use rule::agreement::{Client, identity};
use rule::read::read_rule;
use rule::{Fault, Refusal, refusal_number};
use store::opening::open;

// A flag: 0 is false, every other number true.
#[tactic(auto, unfolding(crate::specs::Rules::flag))]
fn flag(n: u8) -> bool
    ensures { result ≡ rules.flag n }
{
    n != 0
}

// 1 yes, 0 no.
#[tactic(auto, unfolding(crate::specs::Rules::yes))]
fn yes(is: bool) -> u8
    ensures { result ≡ rules.yes is }
{
    u8::from(is)
}

// The version of the library: 10,000 times its first number, 100 times its second, and its third.
#[tactic(auto, unfolding(crate::specs::Rules::version))]
pub fn mqtt_acl_version() -> u32
    ensures { result ≡ rules.version }
{
    300
}

// Is the text a valid filter?
pub fn mqtt_acl_valid_filter(text: &[u8]) -> u8
    ensures { result ≡ rules.yes (spec.valid_filter text.now) }
{
    yes(topic::valid_filter(text))
}

// Tree match T: does the filter take the checked text?
pub fn mqtt_acl_tree_match(filter: &[u8], text: &[u8]) -> u8
    ensures { result ≡ rules.yes (spec.tree_match filter.now text.now) }
{
    yes(topic::tree_match(filter, text))
}

// Plain match P: does the filter take the checked text?
pub fn mqtt_acl_plain_match(filter: &[u8], text: &[u8]) -> u8
    ensures { result ≡ rules.yes (spec.plain_match filter.now text.now) }
{
    yes(topic::plain_match(filter, text))
}

// Is the line one of document 01's JSON documents?
pub fn mqtt_acl_is_document(line: &[u8]) -> u8
    ensures { result ≡ rules.yes (is_document (line_value line.now)) }
{
    yes(json_text::values::is_document(line))
}

// And one whose decoded strings, member names included, have at most this many bytes?
pub fn mqtt_acl_is_document_within(line: &[u8], most: usize) -> u8
    ensures { result ≡ rules.yes (document_within most (line_value line.now)) }
{
    yes(json_text::values::is_document_within(line, most))
}

// The number of document 01 for a rule line that is refused, 0 for a rule.
#[tactic(auto, using(crate::proofs::Laws::refusal_by_lem), unfolding(crate::proofs::Laws::refusal_by))]
pub fn mqtt_acl_rule_refusal(line: &[u8]) -> u8
    ensures { result ≡ rules.refusal_of line.now }
{
    match read_rule(line) {
        Ok(_) => 0,
        Err(cause) => refusal_number(cause),
    }
}

// A value of a call, where its flag is true. The calls hand these to `Client::new` one by one: `clients` has a `client_of` for its client with one
// optional text, but one for three texts and a protocol would take eight arguments, which the layout puts on ten lines in each call, for seven now.
#[tactic(auto, unfolding(crate::specs::Rules::where_true))]
fn given<T: Copy>(has: u8, value: T) -> Option<T>
    ensures { result ≡ rules.where_true (rules.flag has) value }
{
    flag(has).then_some(value)
}

// The same of a text.
#[tactic(auto, unfolding(crate::specs::Rules::where_true))]
fn given_text(has: u8, text: &[u8]) -> Option<&[u8]>
    ensures { option_copied result ≡ rules.where_true (rules.flag has) text.now }
{
    given(has, text)
}

// How the users agree, as a number.
#[tactic(auto, unfolding(crate::specs::Rules::identity_number))]
fn identity_number(answer: Option<bool>) -> u8
    ensures { result ≡ rules.identity_number answer }
{
    match answer {
        None => 0,
        Some(false) => 1,
        Some(true) => 2,
    }
}

// Do the users that the line's rule lists agree with the client? 0: they differ; 1: they agree; 2: they agree, with the superuser
// flag; 3: the line is no rule. An optional text, and the protocol, counts where its flag is true.
#[tactic(auto, using(crate::proofs::Laws::identity_by_lem), unfolding(crate::specs::Rules::identity_of, crate::proofs::Laws::identity_by))]
pub fn mqtt_acl_identity(
    line: &[u8],
    id: &[u8],
    has_name: u8,
    name: &[u8],
    has_password: u8,
    password: &[u8],
    has_address: u8,
    address: &[u8],
    has_protocol: u8,
    protocol: u8,
) -> u8
    ensures { result ≡ rules.identity_of line.now id.now (rules.where_true (rules.flag has_name) name.now) (rules.where_true (rules.flag has_password) password.now) (rules.where_true (rules.flag has_address) address.now) (rules.where_true (rules.flag has_protocol) protocol) }
{
    let Ok(found) = read_rule(line) else {
        return 3;
    };
    let client = Client::new(
        id,
        given_text(has_name, name),
        given_text(has_password, password),
        given_text(has_address, address),
        given(has_protocol, protocol),
    );
    identity_number(identity(line, found.users, &client))
}

// What opening answered, as a number. It requires that this is small: the rule text bounds the line, and the line's type, `usize`, doesn't say so.
#[tactic(auto, unfolding(crate::specs::Answers::open_number, store::specs::Opening::says))]
fn opened_number(answer: Result<(), Fault>) -> u32
    requires { answers.open_number (opening.says answer) ≤ 66047 }
    ensures { result ≡ answers.open_number (opening.says answer) }
{
    match answer {
        Ok(()) => 0,
        Err(fault) => refusal_number(fault.cause) as u32 + 256 * fault.line as u32,
    }
}

// Opens a store for a rule text: 0 done, else the number of document 01 plus 256 times the line. Refused, the store is unchanged.
#[tactic(auto, using(crate::proofs::AnswerLaws::open_small))]
pub fn mqtt_acl_open(
    store: &mut [u8],
    bytes: u64,
    filters: u64,
    eqs: u64,
    notes: u64,
    text: &[u8],
) -> u32
    ensures value { result ≡ answers.open_number (option_map opening.told (opening.open_fault (record { bytes = bytes; filters = filters; eqs = eqs; notes = notes }) text.now (length store.old))) }
    ensures store_after { store.new ≡ opening.after_open (record { bytes = bytes; filters = filters; eqs = eqs; notes = notes }) text.now store.old }
{
    opened_number(open(store, bytes, filters, eqs, notes, text))
}

// What an event answered, as a number.
#[tactic(auto, unfolding(crate::specs::Answers::event_number, events::specs::Event::says))]
fn event_number(answer: Result<(), Refusal>) -> u8
    ensures { result ≡ answers.event_number (event.says answer) }
{
    match answer {
        Ok(()) => 0,
        Err(cause) => refusal_number(cause),
    }
}

// A client has connected: 0 done, else the number of document 01, and the store is unchanged. The name counts where its flag is true.
pub fn mqtt_acl_connected(
    store: &mut [u8],
    session: u64,
    id: &[u8],
    has_name: u8,
    name: &[u8],
) -> u8
    ensures value { result ≡ answers.event_number (event.cause (event.connected session id.now (rules.where_true (rules.flag has_name) name.now)) (view store.old)) }
    ensures store_after { store.new ≡ event.after (event.connected session id.now (rules.where_true (rules.flag has_name) name.now)) store.old }
{
    event_number(connected(store, session, id, given_text(has_name, name)))
}

// A client has disconnected: answers as above.
pub fn mqtt_acl_disconnected(store: &mut [u8], session: u64, id: &[u8]) -> u8
    ensures value { result ≡ answers.event_number (event.cause (event.disconnected session id.now) (view store.old)) }
    ensures store_after { store.new ≡ event.after (event.disconnected session id.now) store.old }
{
    event_number(disconnected(store, session, id))
}

// A session has ended: answers as above.
pub fn mqtt_acl_ended(store: &mut [u8], session: u64) -> u8
    ensures value { result ≡ answers.event_number (event.cause (event.ended session) (view store.old)) }
    ensures store_after { store.new ≡ event.after (event.ended session) store.old }
{
    event_number(ended(store, session))
}

// What a connect is answered, as a number. Three functions for the three questions: a trait would share the arm of a refusal alone, and each
// answer would need its decision as a definition, with a lemma that ties it to `connect_says` and the like. Each requires that the number is
// small: the store and the question bound the rule and the code, and the answer's type, with a `usize` and a `u64`, doesn't say so.
#[tactic(auto, unfolding(crate::specs::Answers::packed, crate::specs::Answers::decision_number, questions::specs::Answers::connect_says))]
fn connect_number(answer: Result<ConnectAnswer, Refusal>) -> u32
    requires { answers.packed (said.connect_says answer) ≤ 4111 }
    ensures { result ≡ answers.packed (said.connect_says answer) }
{
    match answer {
        Ok(ConnectAnswer::Kept(code)) => 16 * code as u32 + 1,
        Ok(ConnectAnswer::Allow(rule, true)) => 16 * rule as u32 + 3,
        Ok(ConnectAnswer::Allow(rule, false)) => 16 * rule as u32 + 2,
        Ok(ConnectAnswer::Refuse(rule)) => 16 * rule as u32 + 8,
        Err(cause) => 16 * refusal_number(cause) as u32,
    }
}

// May the client connect? The answer is `packed` of specs/Answers.antt: what is answered below 16, the rule 16 times. An optional text counts
// where its flag is true.
#[tactic(auto, using(crate::proofs::AnswerLaws::answer_small))]
pub fn mqtt_acl_connect(
    store: &[u8],
    earlier: u64,
    id: &[u8],
    has_name: u8,
    name: &[u8],
    has_password: u8,
    password: &[u8],
    has_address: u8,
    address: &[u8],
    protocol: u8,
) -> u32
    ensures { result ≡ answers.packed (ask (question.connect earlier (record { id = id.now; name = rules.where_true (rules.flag has_name) name.now; password = rules.where_true (rules.flag has_password) password.now; address = rules.where_true (rules.flag has_address) address.now; protocol = Some protocol })) store.now) }
{
    let client = Client::new(
        id,
        given_text(has_name, name),
        given_text(has_password, password),
        given_text(has_address, address),
        Some(protocol),
    );
    connect_number(connect(store, earlier, &client))
}

// What a subscribe is answered, as a number.
#[tactic(auto, unfolding(crate::specs::Answers::packed, crate::specs::Answers::decision_number, questions::specs::Answers::subscribe_says))]
fn subscribe_number(answer: Result<SubscribeAnswer, Refusal>) -> u32
    requires { answers.packed (said.subscribe_says answer) ≤ 4111 }
    ensures { result ≡ answers.packed (said.subscribe_says answer) }
{
    match answer {
        Ok(SubscribeAnswer::Kept(code)) => 16 * code as u32 + 1,
        Ok(SubscribeAnswer::Allow(rule, qos)) => 16 * rule as u32 + 4 + qos as u32,
        Ok(SubscribeAnswer::Refuse(rule)) => 16 * rule as u32 + 11,
        Err(cause) => 16 * refusal_number(cause) as u32,
    }
}

// May the client subscribe to the topic? The protocol counts where its flag is true.
#[tactic(auto, using(crate::proofs::AnswerLaws::answer_small))]
pub fn mqtt_acl_subscribe(
    store: &[u8],
    earlier: u64,
    id: &[u8],
    has_name: u8,
    name: &[u8],
    has_password: u8,
    password: &[u8],
    has_address: u8,
    address: &[u8],
    has_protocol: u8,
    protocol: u8,
    topic: &[u8],
    qos: u64,
) -> u32
    ensures { result ≡ answers.packed (ask (question.subscribe earlier (record { id = id.now; name = rules.where_true (rules.flag has_name) name.now; password = rules.where_true (rules.flag has_password) password.now; address = rules.where_true (rules.flag has_address) address.now; protocol = rules.where_true (rules.flag has_protocol) protocol }) topic.now qos) store.now) }
{
    let client = Client::new(
        id,
        given_text(has_name, name),
        given_text(has_password, password),
        given_text(has_address, address),
        given(has_protocol, protocol),
    );
    subscribe_number(subscribe(store, earlier, &client, topic, qos))
}

// What a publish is answered, as a number.
#[tactic(auto, unfolding(crate::specs::Answers::packed, crate::specs::Answers::decision_number, questions::specs::Answers::publish_says))]
fn publish_number(answer: Result<PublishAnswer, Refusal>) -> u32
    requires { answers.packed (said.publish_says answer) ≤ 4111 }
    ensures { result ≡ answers.packed (said.publish_says answer) }
{
    match answer {
        Ok(PublishAnswer::Kept(code)) => 16 * code as u32 + 1,
        Ok(PublishAnswer::Allow(rule)) => 16 * rule as u32 + 7,
        Ok(PublishAnswer::Refuse(rule, true)) => 16 * rule as u32 + 10,
        Ok(PublishAnswer::Refuse(rule, false)) => 16 * rule as u32 + 9,
        Err(refusal) => 16 * refusal_number(refusal) as u32,
    }
}

// May the client publish to the topic? A refusal by a rule carries the disconnect flag.
#[tactic(auto, using(crate::proofs::AnswerLaws::answer_small))]
pub fn mqtt_acl_publish(
    store: &[u8],
    earlier: u64,
    id: &[u8],
    has_name: u8,
    name: &[u8],
    has_password: u8,
    password: &[u8],
    has_address: u8,
    address: &[u8],
    has_protocol: u8,
    protocol: u8,
    topic: &[u8],
    disconnect: u8,
) -> u32
    ensures { result ≡ answers.packed (ask (question.publish earlier (record { id = id.now; name = rules.where_true (rules.flag has_name) name.now; password = rules.where_true (rules.flag has_password) password.now; address = rules.where_true (rules.flag has_address) address.now; protocol = rules.where_true (rules.flag has_protocol) protocol }) topic.now (rules.flag disconnect)) store.now) }
{
    let client = Client::new(
        id,
        given_text(has_name, name),
        given_text(has_password, password),
        given_text(has_address, address),
        given(has_protocol, protocol),
    );
    publish_number(publish(store, earlier, &client, topic, flag(disconnect)))
}
