// The per-client rules for a host: subscribe and publish by the rules that came with a client's credentials, and whether these still hold.
// Answers are the numbers of specs/Clients.antt; an optional value counts where its flag is true.
ghost use Rattle.std.specs.Prelude.{◌≡◌, ◌≤◌};
ghost use Rattle.authinfo.specs.Decision as decision;
ghost use Rattle.authinfo.specs.Answers as said;
ghost use Rattle.authinfo.specs.Expiry as expiry;
ghost use Rattle.mqtt_acl.specs.Rules.{where_true, flag};
ghost use Rattle.mqtt_acl.specs.Clients as clients;

use crate::{flag, given};
use authinfo::ask::{client_publish, client_subscribe};
use authinfo::client::Client;
use authinfo::times::expired;
use authinfo::{PublishAnswer, SubscribeAnswer, Time};
use rule::{Fault, Refusal, refusal_number};

// What a subscribe is answered, as a number. A function for each question, as in `lib`: a trait would share the arm of a refusal alone. Each
// requires that the number is small: the rules and the question bound the rule, the line and the QoS, and their types don't say so.
#[tactic(auto, unfolding(crate::specs::Clients::packed, crate::specs::Clients::decision_number, authinfo::specs::Answers::subscribe_says))]
fn subscribe_number(answer: Result<SubscribeAnswer, Fault>) -> u64
    requires { clients.packed (said.subscribe_says answer) ≤ 1052832 }
    ensures { result ≡ clients.packed (said.subscribe_says answer) }
{
    match answer {
        Ok(SubscribeAnswer::Allow(rule, qos)) => 16 * rule as u64 + 4 + qos,
        Ok(SubscribeAnswer::Refuse(rule)) => 16 * rule as u64 + 8,
        Ok(SubscribeAnswer::NoDecision) => 12,
        Err(fault) => 16 * (refusal_number(fault.cause) as u64 + 256 * fault.line as u64),
    }
}

// The client of a call; his name counts where its flag is true.
#[tactic(auto, unfolding(crate::specs::Rules::where_true, authinfo::specs::Given::given))]
fn client_of<'a>(superuser: u8, id: &'a [u8], has_name: u8, name: &'a [u8]) -> Client<'a>
    ensures { result ≡ record { superuser = flag superuser; id = id.now; name = where_true (flag has_name) name.now } }
{
    Client::new(flag(superuser), id, given(has_name, name.len()), name)
}

// May the client subscribe to the topic, by its rules?
#[tactic(auto, using(crate::proofs::ClientLaws::client_small))]
pub fn mqtt_acl_client_subscribe(
    superuser: u8,
    id: &[u8],
    has_name: u8,
    name: &[u8],
    rules: &[u8],
    topic: &[u8],
    qos: u64,
) -> u64
    ensures { result ≡ clients.packed (decision.ask (record { superuser = flag superuser; id = id.now; name = where_true (flag has_name) name.now }) rules.now (decision.subscribe qos topic.now)) }
{
    let client = client_of(superuser, id, has_name, name);
    subscribe_number(client_subscribe(&client, rules, qos, topic))
}

// What a publish is answered, as a number.
#[tactic(auto, unfolding(crate::specs::Clients::packed, crate::specs::Clients::decision_number, authinfo::specs::Answers::publish_says))]
fn publish_number(answer: Result<PublishAnswer, Fault>) -> u64
    requires { clients.packed (said.publish_says answer) ≤ 1052832 }
    ensures { result ≡ clients.packed (said.publish_says answer) }
{
    match answer {
        Ok(PublishAnswer::Allow(rule)) => 16 * rule as u64 + 7,
        Ok(PublishAnswer::Refuse(rule, true)) => 16 * rule as u64 + 10,
        Ok(PublishAnswer::Refuse(rule, false)) => 16 * rule as u64 + 9,
        Ok(PublishAnswer::NoDecision) => 12,
        Err(fault) => 16 * (refusal_number(fault.cause) as u64 + 256 * fault.line as u64),
    }
}

// May the client publish to the topic, by its rules? A refusal by a rule carries the disconnect flag.
#[tactic(auto, using(crate::proofs::ClientLaws::client_small))]
pub fn mqtt_acl_client_publish(
    superuser: u8,
    id: &[u8],
    has_name: u8,
    name: &[u8],
    rules: &[u8],
    topic: &[u8],
    qos: u64,
    retain: u8,
    disconnect: u8,
) -> u64
    ensures { result ≡ clients.packed (decision.ask (record { superuser = flag superuser; id = id.now; name = where_true (flag has_name) name.now }) rules.now (decision.publish qos (flag retain) (flag disconnect) topic.now)) }
{
    let client = client_of(superuser, id, has_name, name);
    publish_number(client_publish(&client, rules, qos, flag(retain), flag(disconnect), topic))
}

// What is answered of an expiry, as a number.
#[tactic(auto, unfolding(crate::specs::Clients::expiry_number, authinfo::specs::Expiry::expiry_says))]
fn expiry_number(answer: Result<bool, Refusal>) -> u64
    ensures { result ≡ clients.expiry_number (expiry.expiry_says answer) }
{
    match answer {
        Ok(false) => 13,
        Ok(true) => 14,
        Err(cause) => 16 * refusal_number(cause) as u64,
    }
}

// Are the credentials expired now, at these seconds and nanoseconds?
#[tactic(auto, unfolding(crate::specs::Clients::expiry_of, crate::specs::Rules::where_true))]
pub fn mqtt_acl_expired(
    has_expiry: u8,
    expiry_seconds: u64,
    expiry_nanoseconds: u64,
    seconds: u64,
    nanoseconds: u64,
) -> u64
    ensures { result ≡ clients.expiry_number (expiry.expiry (clients.expiry_of (flag has_expiry) expiry_seconds expiry_nanoseconds) (record { seconds = seconds; nanoseconds = nanoseconds })) }
{
    let expiry = Time {
        seconds: expiry_seconds,
        nanoseconds: expiry_nanoseconds,
    };
    let now = Time {
        seconds,
        nanoseconds,
    };
    expiry_number(expired(given(has_expiry, expiry), now))
}
