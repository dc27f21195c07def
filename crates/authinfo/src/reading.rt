// What the rule of a line says to a question.
ghost use Rattle.std.specs.Prelude.{◌≡◌};
ghost use Rattle.authinfo.specs.ClientRule as rule;
ghost use Rattle.authinfo.specs.Decision as decision;
ghost use Rattle.authinfo.specs.Places as spec;
ghost use Rattle.authinfo.specs.OnePass as pass;

use crate::client::Question;
use crate::filling::topic_at;
use crate::members::places_at;
use crate::one_pass::in_one_pass;
use crate::words::{Word, action_at, permission_at};
use crate::{Action, Asked, QOS, RuleParts, RulePlaces};
use json_text::Kind;
use json_text::access::{Elements, kind_at, number_value, plain_text};
use json_text::values::{check, skip_blanks};
use rule::listed::truth_at;
use rule::{LINE, Refusal, TEXT};

// One more number of a rule's QoS: "each modulo 256 and then 0 to 2".
#[tactic(auto, unfolding(crate::specs::Places::with_level))]
fn with_level(n: u64, asked: u64, takes: bool) -> Option<bool>
    ensures { result ≡ spec.with_level asked takes n }
{
    let level = n % 256;
    if QOS < level {
        return None;
    }
    Some(level == asked || takes)
}

// The numbers of the array at a place; other elements are dropped.
fn qos_list(line: &[u8], at: usize, asked: u64) -> Option<bool>
    ensures { result ≡ spec.levels_from line.now asked at }
{
    let mut takes = false;
    for p in Elements::new(line, at) {
        if let Some(n) = number_value(line, p) {
            takes = with_level(n, asked, takes)?;
        }
    }
    Some(takes)
}

// The rule's QoS at a place: absent, a number or an array.
#[tactic(auto, unfolding(crate::specs::Places::qos_here, crate::specs::Places::one_level))]
fn qos_at(line: &[u8], at: Option<usize>, asked: u64) -> Option<bool>
    ensures { result ≡ spec.qos_here line.now asked at }
{
    let Some(p) = at else {
        return Some(true);
    };
    match kind_at(line, p) {
        Kind::Array => qos_list(line, p, asked),
        Kind::Number => with_level(number_value(line, p)?, asked, false),
        _ => None,
    }
}

// Does a rule's retain, by its permission, take a publish that is retained or not? All three are values, the rule's and the question's.
#[tactic(auto, unfolding(crate::specs::Decision::publish_retain))]
fn takes_retain(allow: bool, retain: Option<bool>, retained: bool) -> bool
    ensures { result ≡ decision.publish_retain allow retain retained }
{
    let Some(flag) = retain else {
        return true;
    };
    if allow {
        return flag || !retained;
    }
    flag == retained
}

// Do a rule's action and its retain take what is asked?
#[tactic(auto, unfolding(crate::specs::Places::takes_kind, crate::specs::Decision::covers, crate::specs::Decision::retain_hits, crate::specs::Places::question_of))]
fn takes_kind(allow: bool, action: Action, retain: Option<bool>, asked: Asked) -> bool
    ensures { result ≡ spec.takes_kind allow action retain asked }
{
    match asked {
        Asked::Subscribe(_) => action != Action::Publish,
        Asked::Publish(_, retained) => action != Action::Subscribe
            && takes_retain(allow, retain, retained),
    }
}

// The closing quote of the string at a place, if it is plain.
#[tactic(auto, unfolding(crate::specs::OnePass::quote_at))]
fn quote_at(line: &[u8], at: Option<usize>) -> Option<usize>
    ensures { result ≡ pass.quote_at line.now at }
{
    plain_text(line, at?)
}

// What the members at these places tell.
#[tactic(auto, unfolding(crate::specs::OnePass::parts_at))]
fn parts_at(line: &[u8], places: RulePlaces) -> RuleParts
    ensures { result ≡ pass.parts_at line.now places }
{
    RuleParts {
        permission: permission_at(line, places.permission),
        action: action_at(line, places.action),
        qos: places.qos,
        retain: places.retain,
        topic: places.topic,
        quote: quote_at(line, places.topic),
    }
}

// The rule of an object whose members tell this; no string of the line is over 256 bytes.
fn rule_says(line: &[u8], parts: RuleParts, asks: &Question) -> Result<Option<bool>, Refusal>
    requires short_topic { spec.ShortTopic line.now parts.topic }
    requires quote_value { parts.quote ≡ pass.quote_at line.now parts.topic }
    ensures { result ≡ pass.parts_say line.now parts asks.now.asked asks.now.client.now.id asks.now.client.now.name asks.now.topic.now }
{
    let allow = parts.permission.ok_or(Refusal::NotARule)?;
    let action = parts.action.ok_or(Refusal::NotARule)?;
    let level = qos_at(line, parts.qos, asks.asked.qos()).ok_or(Refusal::NotARule)?;
    let at = parts.topic.ok_or(Refusal::NotARule)?;
    let topic = Word {
        line,
        at,
        quote: parts.quote,
    };
    let taken = topic_at(&topic, asks)?;
    let kind = takes_kind(allow, action, truth_at(line, parts.retain), asks.asked);
    let hits = level && kind && taken;
    Ok(hits.then_some(allow))
}

// What the line's rule says, or the first refusal in document 01's order.
pub(crate) fn line_says(line: &[u8], asks: &Question) -> Result<Option<bool>, Refusal>
    ensures { result ≡ spec.line_says (spec.question_of asks.now.asked asks.now.topic.now) (rule.read_line asks.now.client.now.id asks.now.client.now.name line.now) }
{
    if LINE < line.len() {
        return Err(Refusal::TooLong);
    }
    if let Some(parts) = in_one_pass(line) {
        return rule_says(line, parts, asks);
    }
    let longest = check(line).ok_or(Refusal::NotJson)?;
    if TEXT < longest {
        return Err(Refusal::TooLong);
    }
    let places = places_at(line, skip_blanks(line, 0));
    rule_says(line, parts_at(line, places), asks)
}
