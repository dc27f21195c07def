// The three questions of a line.
ghost use Rattle.std.specs.Prelude.{◌≡◌, true, cond, length, take, replicate};
ghost use Rattle.std.specs.Option.{unwrap_or};
ghost use Rattle.json_text.specs.Access.{decoded_into};
ghost use Rattle.rule.specs.Limits.{line_limit};
ghost use Rattle.authinfo.specs.Given.{given};
ghost use Rattle.questions.specs.Question as question;
ghost use Rattle.questions.specs.Decision as decision;
ghost use Rattle.questions.specs.Answers as answers;
ghost use Rattle.lines.specs.Call as call;
ghost use Rattle.lines.specs.Said as said;
ghost use Rattle.lines.specs.Reading as spec;

use crate::array::Array;
use crate::elements::{earlier_at, given_at, given_in, protocol_at, text_at};
use crate::output::{refused, says};
use crate::{Asker, Said, Word};
use questions::ask::{connect, publish, subscribe};
use questions::{ConnectAnswer, PublishAnswer, SubscribeAnswer};
use rule::agreement::Client;
use rule::{LINE, Refusal};
use text::front;

// What is said of a connect. Three functions for the three questions: a trait would share the arm of a refusal alone, and each answer would
// need its decision as a definition.
#[tactic(auto, unfolding(crate::specs::Said::reply_said, crate::specs::Said::decision_said, crate::specs::Said::connected, crate::specs::Said::refused_with, questions::specs::Answers::connect_says))]
fn connect_said(answer: Result<ConnectAnswer, Refusal>) -> Said
    ensures { result ≡ said.reply_said (answers.connect_says answer) }
{
    match answer {
        Ok(ConnectAnswer::Kept(_)) => says(Word::Kept, 0),
        Ok(ConnectAnswer::Allow(rule, true)) => says(Word::Super, rule as u64),
        Ok(ConnectAnswer::Allow(rule, false)) => says(Word::Allow, rule as u64),
        Ok(ConnectAnswer::Refuse(rule)) => says(Word::Refuse, rule as u64),
        Err(cause) => refused(cause),
    }
}

// What is said of a subscribe.
#[tactic(auto, unfolding(crate::specs::Said::reply_said, crate::specs::Said::decision_said, crate::specs::Said::connected, crate::specs::Said::refused_with, questions::specs::Answers::subscribe_says))]
fn subscribe_said(answer: Result<SubscribeAnswer, Refusal>) -> Said
    ensures { result ≡ said.reply_said (answers.subscribe_says answer) }
{
    match answer {
        Ok(SubscribeAnswer::Kept(_)) => says(Word::Kept, 0),
        Ok(SubscribeAnswer::Allow(rule, _)) => says(Word::Allow, rule as u64),
        Ok(SubscribeAnswer::Refuse(rule)) => says(Word::Refuse, rule as u64),
        Err(cause) => refused(cause),
    }
}

// What is said of a publish.
#[tactic(auto, unfolding(crate::specs::Said::reply_said, crate::specs::Said::decision_said, crate::specs::Said::connected, crate::specs::Said::refused_with, questions::specs::Answers::publish_says))]
fn publish_said(answer: Result<PublishAnswer, Refusal>) -> Said
    ensures { result ≡ said.reply_said (answers.publish_says answer) }
{
    match answer {
        Ok(PublishAnswer::Kept(_)) => says(Word::Kept, 0),
        Ok(PublishAnswer::Allow(rule)) => says(Word::Allow, rule as u64),
        Ok(PublishAnswer::Refuse(rule, true)) => says(Word::Drop, rule as u64),
        Ok(PublishAnswer::Refuse(rule, false)) => says(Word::Refuse, rule as u64),
        Err(cause) => refused(cause),
    }
}

// The texts of who asks, each in a buffer of its own.
#[derive(Drop)]
struct Texts {
    ids: [u8; LINE],
    names: [u8; LINE],
    passwords: [u8; LINE],
    addresses: [u8; LINE],
}

impl Texts {
    fn new() -> Self
        ensures { let zeros = replicate line_limit 0 in result ≡ record { ids = zeros; names = zeros; passwords = zeros; addresses = zeros } }
    {
        Texts {
            ids: [0; LINE],
            names: [0; LINE],
            passwords: [0; LINE],
            addresses: [0; LINE],
        }
    }

    // Who asks: "earlier, id, name, password, address, protocol". Each text is decoded into its buffer.
    #[tactic(auto, unfolding(crate::specs::Reading::asker_here, crate::specs::Reading::with_id, crate::specs::Reading::with_texts, crate::specs::Reading::with_protocol))]
    fn asker_at(&mut self, array: &Array) -> Option<Asker>
        ensures value { result ≡ spec.asker_here (length self.old.ids) (length self.old.names) (length self.old.passwords) (length self.old.addresses) array.now.line.now array.now.at }
        ensures ids_after { self.new.ids ≡ decoded_into self.old.ids (spec.string_from array.now.line.now array.now.at.third) }
        ensures names_after { self.new.names ≡ decoded_into self.old.names (spec.string_from array.now.line.now array.now.at.fourth) }
        ensures passwords_after { self.new.passwords ≡ decoded_into self.old.passwords (spec.string_from array.now.line.now array.now.at.fifth) }
        ensures addresses_after { self.new.addresses ≡ decoded_into self.old.addresses (spec.string_from array.now.line.now array.now.at.sixth) }
    {
        let Array { line, at } = *array;
        let id = text_at(line, at.third, &mut self.ids);
        let name = given_at(line, at.fourth, &mut self.names);
        let password = given_at(line, at.fifth, &mut self.passwords);
        let address = given_at(line, at.sixth, &mut self.addresses);
        let earlier = earlier_at(line, at.second);
        let protocol = protocol_at(line, at.seventh);
        Some(Asker {
            earlier: earlier?,
            id: id.ok()?,
            name: name?,
            password: password?,
            address: address?,
            protocol: protocol?,
        })
    }

    // The client who asks.
    fn client(&self, a: Asker) -> Client<'_>
        ensures { result ≡ record { id = take a.id self.now.ids; name = given a.name self.now.names; password = given a.password self.now.passwords; address = given a.address self.now.addresses; protocol = a.protocol } }
    {
        Client::new(
            front(&self.ids, a.id),
            given_in(a.name, &self.names),
            given_in(a.password, &self.passwords),
            given_in(a.address, &self.addresses),
            a.protocol,
        )
    }
}

// A connect line.
pub(crate) fn ask_connect(store: &[u8], array: &Array) -> Option<Said>
    ensures { unwrap_or result said.malformed ≡ said.call_said (call.connect_in (spec.elements array.now.line.now)) store.now }
{
    if array.at.eighth.is_some() {
        return None;
    }
    let mut texts = Texts::new();
    let a = texts.asker_at(array)?;
    if a.protocol.is_none() {
        return None;
    }
    Some(connect_said(connect(store, a.earlier, &texts.client(a))))
}

// What is said of a question on a topic: publish, with the disconnect flag, or subscribe, with QoS 0. `publishing` is a flag here and in
// `ask_topic`, not a closure that asks: with one, the contract would say of each client and topic what `cond` says in a word.
fn topic_said(store: &[u8], publishing: bool, earlier: u64, client: &Client, topic: &[u8]) -> Said
    ensures { result ≡ said.reply_said (decision.ask (cond publishing (question.publish earlier client.now topic.now true) (question.subscribe earlier client.now topic.now 0)) store.now) }
{
    if publishing {
        publish_said(publish(store, earlier, client, topic, true))
    } else {
        subscribe_said(subscribe(store, earlier, client, topic, 0))
    }
}

// A line that asks on a topic, publish or subscribe.
fn ask_topic(store: &[u8], publishing: bool, array: &Array) -> Option<Said>
    ensures { unwrap_or result said.malformed ≡ said.call_said (cond publishing (call.publish_in (spec.elements array.now.line.now)) (call.subscribe_in (spec.elements array.now.line.now))) store.now }
{
    if array.at.ninth.is_some() {
        return None;
    }
    let mut texts = Texts::new();
    let a = texts.asker_at(array)?;
    let mut topics = [0; LINE];
    let topic = text_at(array.line, array.at.eighth, &mut topics).ok()?;
    Some(topic_said(
        store,
        publishing,
        a.earlier,
        &texts.client(a),
        front(&topics, topic),
    ))
}

// A subscribe line.
pub(crate) fn ask_subscribe(store: &[u8], array: &Array) -> Option<Said>
    ensures { unwrap_or result said.malformed ≡ said.call_said (call.subscribe_in (spec.elements array.now.line.now)) store.now }
{
    ask_topic(store, false, array)
}

// A publish line.
pub(crate) fn ask_publish(store: &[u8], array: &Array) -> Option<Said>
    ensures { unwrap_or result said.malformed ≡ said.call_said (call.publish_in (spec.elements array.now.line.now)) store.now }
{
    ask_topic(store, true, array)
}
