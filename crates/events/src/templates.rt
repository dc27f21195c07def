// The templates of a rule, filled for a client, in the order in which they stand: topics by their places in the rule's line.
ghost use Rattle.std.specs.Option.{option_copied};
ghost use Rattle.std.specs.Prelude.{◌≡◌, length};
ghost use Rattle.events.specs.Templates as spec;

use crate::FilledTopic;
use json_text::access::{Elements, first_element};
use rule::Topic;
use rule::fill::fill;
use rule::read::read_rule;
use rule::topic_list::topic_at;

// The first topic of a line's rule.
fn first_in(line: &[u8]) -> Option<usize>
    ensures { result ≡ spec.first_topic line.now }
{
    first_element(line, read_rule(line).ok()?.topics?)
}

// The topics of a line's rule, one after another.
pub fn topics(line: &[u8]) -> Elements<'_>
    ensures of_line { result.line ≡ line.entry }
    ensures from_first { result.next ≡ spec.first_topic line.now }
{
    Elements {
        line,
        next: first_in(line),
    }
}

// What filling a template comes to. `eq` is a value, whether the topic stands under `eq`, and not a switch.
#[tactic(auto, unfolding(crate::specs::Templates::filled_as))]
fn filled_as(eq: bool, filling: Option<usize>) -> FilledTopic
    ensures { result ≡ spec.filled_as eq filling }
{
    match filling {
        None => FilledTopic::TooLong,
        Some(n) if eq => FilledTopic::Eq(n),
        Some(n) => FilledTopic::Filter(n),
    }
}

// The topic at this place of a line, if it is a template, filled into the front of a buffer of 256 bytes.
pub fn fill_topic(
    line: &[u8],
    topic: usize,
    id: &[u8],
    name: Option<&[u8]>,
    buffer: &mut [u8],
) -> FilledTopic
    ensures value { result ≡ spec.topic_filling (length buffer.old) id.now (option_copied name.entry) (spec.template_at line.now topic) }
    ensures buffer_after { buffer.new ≡ spec.topic_filled buffer.old id.now (option_copied name.entry) (spec.template_at line.now topic) }
{
    let Some(found) = topic_at(line, topic) else {
        return FilledTopic::Static;
    };
    match found {
        Topic::Template(p) => filled_as(false, fill(line, p, id, name, buffer)),
        Topic::EqTemplate(p) => filled_as(true, fill(line, p, id, name, buffer)),
        _ => FilledTopic::Static,
    }
}
