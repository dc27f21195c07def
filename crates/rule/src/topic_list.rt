// The topics of a rule, one after the other: the place of an element says which it is.
ghost use Rattle.std.specs.Prelude.{◌≡◌};
ghost use Rattle.text.specs.Maybe.{bind};
ghost use Rattle.json_text.specs.Access.{first_item};
ghost use Rattle.rule.specs.Rule as rule;
ghost use Rattle.rule.specs.Places as spec;

use crate::listed::text_member;
use crate::{TEXT, Topic};
use json_text::Kind;
use json_text::access::{Elements, kind_at, plain_text};
use json_text::strings::decode;

// "A text with `%u` or `%c` is a template." Most texts have no `%` at all.
pub fn is_template(text: &[u8]) -> bool
    ensures { result ≡ rule.is_template text.now }
{
    text.contains(&b'%') && has_mark(text)
}

#[tactic(auto, unfolding(crate::specs::Rule::is_template))]
fn has_mark(text: &[u8]) -> bool
    ensures { result ≡ rule.is_template text.now }
{
    text::contains(text, b"%u") || text::contains(text, b"%c")
}

// The topic that a text at this place is: a template, or a valid filter; under `eq` it may be any text. `eq` is what the line says.
#[tactic(auto, unfolding(crate::specs::Places::text_topic, crate::specs::Places::placed_topic))]
fn text_topic(text: &[u8], at: usize, eq: bool) -> Option<Topic>
    ensures { result ≡ spec.text_topic eq at text.now }
{
    if TEXT < text.len() {
        return None;
    }
    if is_template(text) {
        return Some(if eq {
            Topic::EqTemplate(at)
        } else {
            Topic::Template(at)
        });
    }
    if eq {
        return Some(Topic::Eq(at));
    }
    topic::valid_filter(text).then_some(Topic::Filter(at))
}

// The topic that the string at this place is. A plain one is tested as it stands.
#[tactic(auto, using(crate::proofs::DecodeLaws::plain_bounds))]
fn string_topic(line: &[u8], at: usize, eq: bool) -> Option<Topic>
    ensures { result ≡ spec.string_topic eq line.now at }
{
    if let Some(end) = plain_text(line, at) {
        return text_topic(&line[at + 1..end], at, eq);
    }
    let mut text = [0u8; TEXT];
    let n = decode(line, at, &mut text).ok()?;
    text_topic(&text[..n], at, eq)
}

// The topic that the element at this place is.
pub fn topic_at(line: &[u8], at: usize) -> Option<Topic>
    ensures { result ≡ spec.topic_answer (bind (spec.value_of line.now at) rule.topic_of) }
{
    match kind_at(line, at) {
        Kind::Text => string_topic(line, at, false),
        Kind::Object => string_topic(line, text_member(line, at, b"eq")?, true),
        _ => None,
    }
}

// Is each element of the array at this place a topic?
fn are_topics(line: &[u8], at: usize) -> bool
    ensures { result ≡ spec.are_topics line.now (first_item 0x5b 0x5d line.now at) }
{
    Elements::new(line, at).all(|p| topic_at(line, p).is_some())
}

// Is the value at this place an array of topics?
pub fn topics_at(line: &[u8], at: usize) -> bool
    ensures { result ≡ spec.topics_here line.now at }
{
    match kind_at(line, at) {
        Kind::Array => are_topics(line, at),
        _ => false,
    }
}
