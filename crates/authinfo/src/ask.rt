// The per-client questions: 1 and 2 by their arguments, then line by line; all lines are read, whoever asks.
ghost use Rattle.std.specs.Prelude.{◌≡◌};
ghost use Rattle.json_text.specs.Lines.{lines};
ghost use Rattle.authinfo.specs.Decision as decision;
ghost use Rattle.authinfo.specs.Answers as answers;
ghost use Rattle.authinfo.specs.Places as spec;

use crate::client::{Client, Question};
use crate::reading::line_says;
use crate::{Asked, Hit, PublishAnswer, QOS, SubscribeAnswer};
use json_text::splitting::{Lines, count_lines};
use rule::{Fault, ID, LINES, Refusal, TEXT};

// "Text over 32,768."
const RULES: usize = 32768;

// The first hit, with what a later rule says.
fn or_hit(found: Option<Hit>, said: Option<bool>, rule: usize) -> Option<Hit>
    ensures { result ≡ spec.or_hit found said rule }
{
    found.or(said.map(|allow| Hit { rule, allow }))
}

// The first rule of the text that hits, or its first faulty line.
fn first_hit(rules: &[u8], asks: &Question) -> Result<Option<Hit>, Fault>
    ensures { result ≡ spec.hit_in (spec.question_of asks.now.asked asks.now.topic.now) (decision.read_lines asks.now.client.now.id asks.now.client.now.name 1 (lines rules.now)) }
{
    let mut found = None;
    let mut n = 0;
    for line in Lines::new(rules) {
        n += 1;
        let said = line_says(line, asks).map_err(|cause| Fault { cause, line: n })?;
        found = or_hit(found, said, n);
    }
    Ok(found)
}

// Is a name that is given over 64 bytes?
#[tactic(auto, unfolding(crate::specs::Decision::name_over, crate::specs::Given::given))]
fn name_over(client: &Client) -> bool
    ensures { result ≡ decision.name_over client.now.name }
{
    match client.name {
        Some(n) => ID < text::front(client.names, n).len(),
        None => false,
    }
}

// "1 id, name or topic as above, text over 32,768."
#[tactic(auto, unfolding(crate::specs::Places::too_long))]
fn too_long(client: &Client, topic: &[u8], rules: &[u8]) -> bool
    ensures { result ≡ spec.too_long client.now.id client.now.name topic.now rules.now }
{
    ID < client.id.len() || name_over(client) || TEXT < topic.len() || RULES < rules.len()
}

// The rule that decides, for a superuser number 0 that allows; or the first refusal by number.
fn deciding(client: &Client, rules: &[u8], asked: Asked, topic: &[u8]) -> Result<Option<Hit>, Fault>
    ensures { result ≡ spec.deciding client.now rules.now (spec.question_of asked topic.now) }
{
    if too_long(client, topic, rules) {
        return Err(Fault {
            cause: Refusal::TooLong,
            line: 0,
        });
    }
    if LINES < count_lines(rules, LINES) {
        return Err(Fault {
            cause: Refusal::TooLong,
            line: LINES + 1,
        });
    }
    if QOS < asked.qos() {
        return Err(Fault {
            cause: Refusal::OutOfRange,
            line: 0,
        });
    }
    let asks = Question {
        client,
        asked,
        topic,
    };
    let found = first_hit(rules, &asks)?;
    if client.superuser {
        return Ok(Some(Hit {
            rule: 0,
            allow: true,
        }));
    }
    Ok(found)
}

// May the client subscribe to the topic, by the rules that came with its credentials?
#[tactic(auto, using(crate::proofs::AskLaws::replies), unfolding(crate::specs::Answers::subscribe_says, crate::proofs::AskLaws::reply_to, crate::specs::Decision::allowance, crate::specs::Decision::refusal, crate::specs::Places::question_of))]
pub fn client_subscribe(
    client: &Client,
    rules: &[u8],
    qos: u64,
    topic: &[u8],
) -> Result<SubscribeAnswer, Fault>
    ensures { answers.subscribe_says result ≡ decision.ask client.now rules.now (decision.subscribe qos topic.now) }
{
    match deciding(client, rules, Asked::Subscribe(qos), topic)? {
        Some(hit) if hit.allow => Ok(SubscribeAnswer::Allow(hit.rule, qos)),
        Some(hit) => Ok(SubscribeAnswer::Refuse(hit.rule)),
        None => Ok(SubscribeAnswer::NoDecision),
    }
}

// May the client publish to the topic, by the rules that came with its credentials?
#[tactic(auto, using(crate::proofs::AskLaws::replies), unfolding(crate::specs::Answers::publish_says, crate::proofs::AskLaws::reply_to, crate::specs::Decision::allowance, crate::specs::Decision::refusal, crate::specs::Places::question_of))]
pub fn client_publish(
    client: &Client,
    rules: &[u8],
    qos: u64,
    retain: bool,
    disconnect: bool,
    topic: &[u8],
) -> Result<PublishAnswer, Fault>
    ensures { answers.publish_says result ≡ decision.ask client.now rules.now (decision.publish qos retain disconnect topic.now) }
{
    match deciding(client, rules, Asked::Publish(qos, retain), topic)? {
        Some(hit) if hit.allow => Ok(PublishAnswer::Allow(hit.rule)),
        Some(hit) => Ok(PublishAnswer::Refuse(hit.rule, disconnect)),
        None => Ok(PublishAnswer::NoDecision),
    }
}
