// The three questions on a store: number 1 and 2 by their arguments, 3 by the store, then kept, then the deciding rule.
// Each writes these steps out: a function for what they share would have to answer by more cases than it saves lines. Store, earlier code and
// client come one by one, as the C interface hands them over.
ghost use Rattle.std.specs.Prelude.{◌≡◌, None, Some};
ghost use Rattle.std.specs.Option.{option_copied};
ghost use Rattle.store.specs.Store.{View};
ghost use Rattle.store.specs.View.{view};
ghost use Rattle.store.specs.Check.{shape_of};
ghost use Rattle.questions.specs.Question as question;
ghost use Rattle.questions.specs.Decision as decision;
ghost use Rattle.questions.specs.Answers as answers;
ghost use Rattle.questions.specs.Parts as spec;

use crate::decision::deciding_in;
use crate::{Asked, ConnectAnswer, Deciding, PublishAnswer, SubscribeAnswer};
use rule::agreement::Client;
use rule::{ID, Refusal, TEXT};
use store::{Counts, Shape, check};

// "Password over 128, address over 45."
const PASSWORD: usize = 128;

const ADDRESS: usize = 45;

// Codes of earlier answers: the largest, and from which on one is kept.
const CONNECT_CODE: u64 = 4;

const CONNECT_KEPT: u64 = 3;

const CODE: u64 = 2;

const QOS: u64 = 2;

// Is a text that is given over the limit?
#[tactic(auto, unfolding(crate::specs::Question::over_given, store::specs::Store::over))]
fn given_over(text: Option<&[u8]>, limit: usize) -> bool
    ensures { result ≡ question.over_given limit (option_copied text.entry) }
{
    text.is_some_and(|text| limit < text.len())
}

// "1 id or name over 64, password over 128, address over 45."
#[tactic(auto, unfolding(crate::specs::Question::client_over, store::specs::Store::over))]
fn client_over(client: &Client) -> bool
    ensures { result ≡ question.client_over client.now }
{
    ID < client.id().len()
        || given_over(client.name(), ID)
        || given_over(client.password(), PASSWORD)
        || given_over(client.address(), ADDRESS)
}

// The rule that decides on a store as laid out, whose shape this is.
fn deciding_on(
    store: &[u8],
    shape: Shape,
    asked: Asked,
    client: &Client,
    topic: &[u8],
) -> Option<Deciding>
    requires { shape_of (view store.now) ≡ Some shape }
    ensures { (v : View) → view store.now ≡ Some v → result ≡ spec.deciding_on client.now (spec.wish_of asked topic.now) v }
{
    let text_end = Counts::HEADER + shape.text;
    let filters_at = shape.counts.filters_at();
    let filters_end = filters_at + shape.filters * Counts::FILTER;
    let eqs_at = shape.counts.eqs_at();
    let eqs_end = eqs_at + shape.eqs * Counts::EQ;
    deciding_in(
        &store[Counts::HEADER..text_end],
        true,
        &store[filters_at..filters_end],
        &store[eqs_at..eqs_end],
        asked,
        client,
        topic,
    )
}

// May the client connect? The store is read only.
#[tactic(auto, using(crate::proofs::AskLaws::asks), unfolding(crate::specs::Answers::connect_says, crate::specs::Question::question_cause, crate::specs::Decision::keeps, rule::specs::Refusals::number, rule::specs::Refusals::first))]
pub fn connect(store: &[u8], earlier: u64, client: &Client) -> Result<ConnectAnswer, Refusal>
    ensures { answers.connect_says result ≡ decision.ask (question.connect earlier client.now) store.now }
{
    if client_over(client) {
        return Err(Refusal::TooLong);
    }
    if CONNECT_CODE < earlier {
        return Err(Refusal::OutOfRange);
    }
    let shape = check::shape(store).ok_or(Refusal::Malformed)?;
    if CONNECT_KEPT <= earlier {
        return Ok(ConnectAnswer::Kept(earlier));
    }
    match deciding_on(store, shape, Asked::Connect, client, b"") {
        Some(by) if by.allow => Ok(ConnectAnswer::Allow(by.rule, by.superuser)),
        Some(by) => Ok(ConnectAnswer::Refuse(by.rule)),
        None => Ok(ConnectAnswer::Refuse(0)),
    }
}

// May the client subscribe to the topic?
#[tactic(auto, using(crate::proofs::AskLaws::asks), unfolding(crate::specs::Answers::subscribe_says, crate::specs::Question::question_cause, crate::specs::Decision::keeps, rule::specs::Refusals::number, rule::specs::Refusals::first))]
pub fn subscribe(
    store: &[u8],
    earlier: u64,
    client: &Client,
    topic: &[u8],
    qos: u64,
) -> Result<SubscribeAnswer, Refusal>
    ensures { answers.subscribe_says result ≡ decision.ask (question.subscribe earlier client.now topic.now qos) store.now }
{
    if client_over(client) || TEXT < topic.len() {
        return Err(Refusal::TooLong);
    }
    if CODE < earlier || QOS < qos {
        return Err(Refusal::OutOfRange);
    }
    let shape = check::shape(store).ok_or(Refusal::Malformed)?;
    if earlier == CODE {
        return Ok(SubscribeAnswer::Kept(earlier));
    }
    match deciding_on(store, shape, Asked::Subscribe, client, topic) {
        Some(by) if by.allow => Ok(SubscribeAnswer::Allow(by.rule, qos)),
        Some(by) => Ok(SubscribeAnswer::Refuse(by.rule)),
        None => Ok(SubscribeAnswer::Refuse(0)),
    }
}

// May the client publish to the topic?
#[tactic(auto, using(crate::proofs::AskLaws::asks), unfolding(crate::specs::Answers::publish_says, crate::specs::Question::question_cause, crate::specs::Decision::keeps, rule::specs::Refusals::number, rule::specs::Refusals::first))]
pub fn publish(
    store: &[u8],
    earlier: u64,
    client: &Client,
    topic: &[u8],
    disconnect: bool,
) -> Result<PublishAnswer, Refusal>
    ensures { answers.publish_says result ≡ decision.ask (question.publish earlier client.now topic.now disconnect) store.now }
{
    if client_over(client) || TEXT < topic.len() {
        return Err(Refusal::TooLong);
    }
    if CODE < earlier {
        return Err(Refusal::OutOfRange);
    }
    let shape = check::shape(store).ok_or(Refusal::Malformed)?;
    if earlier == CODE {
        return Ok(PublishAnswer::Kept(earlier));
    }
    match deciding_on(store, shape, Asked::Publish, client, topic) {
        Some(by) if by.allow => Ok(PublishAnswer::Allow(by.rule)),
        Some(by) => Ok(PublishAnswer::Refuse(by.rule, disconnect)),
        None => Ok(PublishAnswer::Refuse(0, disconnect)),
    }
}
