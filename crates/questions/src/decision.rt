// The decision on a rule text and used rows (document 01, Plugin decisions). Total: a line that is no rule agrees with nothing, and rows are
// the whole rows of their part. `rule_agrees` and `deciding_rule` are public and take these parts and the question's one by one, so the functions
// below them do.
ghost use Rattle.std.specs.Prelude.{◌≡◌, true, length, IfSome};
ghost use Rattle.topic.specs.Topic.{valid_filter};
ghost use Rattle.json_text.specs.Access.{first_item};
ghost use Rattle.json_text.specs.Lines.{lines};
ghost use Rattle.rule.specs.RuleText.{read_rule};
ghost use Rattle.rule.specs.Front.{item_behind};
ghost use Rattle.table.specs.Table.{some_row};
ghost use Rattle.questions.specs.Decision as decision;
ghost use Rattle.questions.specs.Parts as spec;

use crate::{Asked, Deciding, Head, TopicPassed};
use json_text::access::{Elements, first_element, kind_at, next_item, plain_text};
use json_text::splitting::{line_at, line_behind};
use json_text::strings::{decode, string_is};
use json_text::values::separator;
use json_text::{Kind, Separator};
use rule::agreement::{Client, identity};
use rule::ahead::{eq_text, rest};
use rule::one_pass::{access_end, users_end};
use rule::read::read_rule;
use rule::topic_list::{is_template, topic_at};
use rule::{Control, TEXT, Topic};
use store::Counts;
use store::rows::{filter_owner, filter_text, numbered_text};
use table::number_at;
use topic::{begins_apart, tree_match, tree_match_known, valid_filter};

// Does a rule's control cover what is asked?
#[tactic(auto, unfolding(crate::specs::Parts::covers_asked, crate::specs::Parts::wish_of, crate::specs::Decision::covers))]
fn covers(control: Control, asked: Asked) -> bool
    ensures { result ≡ spec.covers_asked control asked }
{
    match control {
        Control::All => true,
        Control::Connect => asked == Asked::Connect,
        Control::Publish => asked == Asked::Publish,
        Control::Subscribe => asked == Asked::Subscribe,
        Control::Pubsub => asked != Asked::Connect,
    }
}

// "Connect skips topics."
#[tactic(auto, unfolding(crate::specs::Parts::topics_for))]
fn asked_topics(asked: Asked, topics: Option<usize>) -> Option<usize>
    ensures { result ≡ spec.topics_for asked topics }
{
    match asked {
        Asked::Connect => None,
        Asked::Subscribe | Asked::Publish => topics,
    }
}

// A rule's line before its topics.
fn head(line: &[u8], asked: Asked, client: &Client) -> Option<Head>
    ensures { result ≡ spec.head_at client.now asked line.now }
{
    let rule = read_rule(line).ok()?;
    if !covers(rule.control, asked) {
        return None;
    }
    let superuser = identity(line, rule.users, client)?;
    Some(Head {
        allow: rule.allow,
        superuser,
        topics: asked_topics(asked, rule.topics),
    })
}

// The head of a line that is a rule. Where the users differ, nothing behind them is read.
#[tactic(auto, using(crate::proofs::PassLaws::fronts))]
fn front_head(line: &[u8], asked: Asked, client: &Client) -> Option<Option<Head>>
    requires { spec.is_rule (read_rule line.now) ≡ true }
    ensures { IfSome result (λ head. head ≡ spec.head_at client.now asked line.now) }
{
    let access = access_end(line)?;
    let users = users_end(line, access.value, access.next)?;
    let Some(superuser) = identity(line, users.value, client) else {
        return Some(None);
    };
    let rest = rest(line, users.next)?;
    if !covers(rest.control, asked) {
        return Some(None);
    }
    Some(Some(Head {
        allow: access.value,
        superuser,
        topics: asked_topics(asked, rest.topics),
    }))
}

// A line before its topics; with `checked`, the line is known to be a rule. A flag, not a closure that reads the line: a closure's contract
// would have to say of every line of the text what the flag's one clause says.
fn head_of(line: &[u8], checked: bool, asked: Asked, client: &Client) -> Option<Head>
    requires { checked ≡ true → spec.is_rule (read_rule line.now) ≡ true }
    ensures { result ≡ spec.head_at client.now asked line.now }
{
    if checked && let Some(known) = front_head(line, asked, client) {
        return known;
    }
    head(line, asked, client)
}

// Does the filter at this place of the line T-match the topic?
fn filter_matches(line: &[u8], at: usize, topic: &[u8]) -> bool
    ensures { result ≡ spec.filter_matches_at topic.now line.now at }
{
    let mut filter = [0u8; TEXT];
    match decode(line, at, &mut filter) {
        Ok(n) => tree_match(&filter[..n], topic),
        Err(_) => false,
    }
}

// Does the topic at this place of the rule's array agree by itself? A template doesn't.
#[tactic(auto, unfolding(crate::proofs::HeadLaws::agrees_by), using(crate::proofs::HeadLaws::topic_by))]
fn topic_agrees(line: &[u8], at: usize, topic: &[u8]) -> bool
    ensures { result ≡ spec.topic_agrees_at topic.now line.now at }
{
    match topic_at(line, at) {
        Some(Topic::Filter(p)) => filter_matches(line, p, topic),
        Some(Topic::Eq(p)) => string_is(line, p, topic),
        Some(Topic::Template(_) | Topic::EqTemplate(_)) | None => false,
    }
}

// The topic that is asked on, and whether it is a valid filter, which each filter that may match it would test again.
#[derive(Clone, Copy)]
struct AskedTopic<'a> {
    text: &'a [u8],
    valid: bool,
    ghost known: { valid ≡ valid_filter text.now },
}

impl<'a> AskedTopic<'a> {
    fn new(text: &'a [u8]) -> Self
        ensures { result.text ≡ text.entry }
    {
        AskedTopic {
            text,
            valid: valid_filter(text),
        }
    }
}

// Does the text, a filter as it stands in the line, agree by itself? Most begin apart; what matches must be a rule's filter and no template.
#[tactic(auto, using(crate::proofs::PassLaws::known_match, topic::proofs::Apart::apart_no_match), unfolding(crate::specs::Parts::text_agrees, store::specs::Store::over))]
fn text_agrees(text: &[u8], topic: &AskedTopic) -> bool
    ensures { result ≡ spec.text_agrees topic.now.text.now text.now }
{
    !begins_apart(text, topic.text)
        && tree_match_known(text, topic.text, topic.valid)
        && text.len() <= TEXT
        && !is_template(text)
        && valid_filter(text)
}

// The element behind one that ends before this place.
fn element_behind(line: &[u8], at: usize) -> Option<usize>
    ensures { result ≡ item_behind line.now at }
{
    match separator(line, at, b']')? {
        Separator::Comma(next) => Some(next),
        Separator::Close(_) => None,
    }
}

// The same of a text under `eq`.
#[tactic(auto, unfolding(crate::specs::Parts::eq_text_agrees, store::specs::Store::over))]
fn eq_agrees(text: &[u8], topic: &[u8]) -> bool
    ensures { result ≡ spec.eq_text_agrees topic.now text.now }
{
    text::same(text, topic) && text.len() <= TEXT && !is_template(text)
}

// A topic that is read through its value: it agrees by itself, or this is the next one.
#[tactic(auto, unfolding(crate::specs::Parts::passed_topic))]
fn pass_value(line: &[u8], at: usize, topic: &[u8]) -> TopicPassed
    ensures { result ≡ spec.passed_topic topic.now line.now at }
{
    if topic_agrees(line, at, topic) {
        return TopicPassed::Agrees;
    }
    TopicPassed::Onward(next_item(line, at))
}

// The topic at this place of the rule's array, by its kind: it agrees by itself, or this is the next one. A plain string is tested where it
// is, and so is one under `eq`; any other topic is read through its value.
#[tactic(auto, using(rule::proofs::DecodeLaws::plain_bounds, crate::proofs::PassLaws::eq_bounds))]
fn pass_topic(line: &[u8], at: usize, topic: &AskedTopic) -> TopicPassed
    ensures { result ≡ spec.passed_topic topic.now.text.now line.now at }
{
    match kind_at(line, at) {
        Kind::Text => {
            if let Some(end) = plain_text(line, at) {
                if text_agrees(&line[at + 1..end], topic) {
                    return TopicPassed::Agrees;
                }
                return TopicPassed::Onward(element_behind(line, end + 1));
            }
        }
        Kind::Object => {
            if let Some(eq) = eq_text(line, at) {
                if eq_agrees(&line[eq.opens + 1..eq.closes], topic.text) {
                    return TopicPassed::Agrees;
                }
                return TopicPassed::Onward(element_behind(line, eq.next));
            }
        }
        _ => {}
    }
    pass_value(line, at, topic.text)
}

// Is there an eq row of the rule, counted from 0, that is the topic?
fn eq_row_agrees(eqs: &[u8], rule: usize, topic: &[u8]) -> bool
    ensures { result ≡ some_row (decision.eq_agrees rule topic.now) (spec.eq_rows eqs.now) }
{
    eqs.chunks_exact(Counts::EQ).any(|row| {
        number_at(row, 0) == rule && text::same(numbered_text(row), topic)
    })
}

// Is there a filter row of the rule and the client that T-matches the topic?
fn filter_row_agrees(filters: &[u8], rule: usize, id: &[u8], topic: &AskedTopic) -> bool
    ensures { result ≡ some_row (decision.filter_agrees rule id.now topic.now.text.now) (spec.filter_rows filters.now) }
{
    filters.chunks_exact(Counts::FILTER).any(|row| {
        number_at(row, 0) == rule
            && text::same(filter_owner(row), id)
            && tree_match_known(filter_text(row), topic.text, topic.valid)
    })
}

// Does one of the topics of the array at this place agree by itself?
fn some_topic_agrees(line: &[u8], array: usize, topic: &[u8]) -> bool
    ensures { result ≡ spec.some_topic_from topic.now (length line.now) line.now (first_item 0x5b 0x5d line.now array) }
{
    Elements::new(line, array).any(|p| topic_agrees(line, p, topic))
}

// Does the rule of a line agree, whose number, from 0, this is? A line that is no rule agrees with nothing.
pub fn rule_agrees(
    line: &[u8],
    rule: usize,
    filters: &[u8],
    eqs: &[u8],
    asked: Asked,
    client: &Client,
    topic: &[u8],
) -> bool
    ensures { result ≡ spec.line_agrees client.now (spec.wish_of asked topic.now) rule line.now filters.now eqs.now }
{
    let Some(head) = head(line, asked, client) else {
        return false;
    };
    let Some(array) = head.topics else {
        return true;
    };
    some_topic_agrees(line, array, topic)
        || eq_row_agrees(eqs, rule, topic)
        || filter_row_agrees(filters, rule, client.id(), &AskedTopic::new(topic))
}

// "The first rule whose control, users and topics all agree decides." With `checked`, each line is known to be a rule. Document 01 gives the
// form: a labelled loop over rules and, inside, topics, left by `break` with the deciding rule's number. So it is no chain of iterators.
pub(crate) fn deciding_in(
    rules: &[u8],
    checked: bool,
    filters: &[u8],
    eqs: &[u8],
    asked: Asked,
    client: &Client,
    topic: &[u8],
) -> Option<Deciding>
    requires { checked ≡ true → spec.every_rule (lines rules.now) ≡ true }
    ensures { result ≡ spec.deciding client.now (spec.wish_of asked topic.now) rules.now filters.now eqs.now }
{
    let known = AskedTopic::new(topic);
    let mut allow = false;
    let mut superuser = false;
    let mut n = 0;
    let mut at = 0;
    let rule = 'rules: loop {
        if rules.len() <= at {
            return None;
        }
        let line = line_at(rules, at);
        at = line_behind(rules, at + line.len());
        n += 1;
        let Some(head) = head_of(line, checked, asked, client) else {
            continue 'rules;
        };
        allow = head.allow;
        superuser = head.superuser;
        let Some(array) = head.topics else {
            break 'rules n;
        };
        let mut next = first_element(line, array);
        // Each topic takes a byte of the line at least, so there are never more topics than bytes, and none is lost.
        'topics: for _ in 0..line.len() {
            let Some(p) = next else {
                break 'topics;
            };
            match pass_topic(line, p, &known) {
                TopicPassed::Agrees => break 'rules n,
                TopicPassed::Onward(place) => next = place,
            }
        }
        if eq_row_agrees(eqs, n - 1, topic)
            || filter_row_agrees(filters, n - 1, client.id(), &known)
        {
            break 'rules n;
        }
    };
    Some(Deciding {
        rule,
        allow,
        superuser,
    })
}

// The rule that decides, of a text of any lines.
pub fn deciding_rule(
    rules: &[u8],
    filters: &[u8],
    eqs: &[u8],
    asked: Asked,
    client: &Client,
    topic: &[u8],
) -> Option<Deciding>
    ensures { result ≡ spec.deciding client.now (spec.wish_of asked topic.now) rules.now filters.now eqs.now }
{
    deciding_in(rules, false, filters, eqs, asked, client, topic)
}
