// A rule from its line, and a whole rule text.
ghost use Rattle.std.specs.Prelude.{◌≡◌, length, option_and_then};
ghost use Rattle.json_text.specs.Json.{line_value};
ghost use Rattle.json_text.specs.Access.{next_item};
ghost use Rattle.json_text.specs.Lines.{lines};
ghost use Rattle.rule.specs.Rule as rule;
ghost use Rattle.rule.specs.RuleText as text_spec;
ghost use Rattle.rule.specs.Places as spec;

use crate::listed::users_at;
use crate::one_pass::in_one_pass;
use crate::topic_list::topics_at;
use crate::words::{access_of, control_of, word_at};
use crate::{Control, Fault, LINE, LINES, Parts, Refusal, Rule, TEXT, TOPICS};
use json_text::access::{count_elements, first_element, next_item};
use json_text::splitting::{Lines, count_lines};
use json_text::values::{check, skip_blanks};

// The element behind one, if there is one.
pub fn next_part(line: &[u8], at: Option<usize>) -> Option<usize>
    ensures { result ≡ option_and_then (next_item line.now) at }
{
    next_item(line, at?)
}

// The first four elements of the line's array.
#[tactic(auto, unfolding(crate::specs::Places::parts_here))]
pub fn parts(line: &[u8]) -> Parts
    ensures { result ≡ spec.parts_here line.now }
{
    let access = first_element(line, skip_blanks(line, 0));
    let users = next_part(line, access);
    let control = next_part(line, users);
    let topics = next_part(line, control);
    Parts {
        access,
        users,
        control,
        topics,
    }
}

// "A fourth element that is an array of over 64."
#[tactic(auto, unfolding(crate::specs::Places::too_many, crate::specs::Places::over_topics))]
fn too_many_topics(line: &[u8], topics: Option<usize>) -> bool
    ensures { result ≡ spec.too_many line.now topics }
{
    topics.is_some_and(|p| count_elements(line, p) > Some(TOPICS))
}

// The control at a place, if there is one.
#[tactic(auto, unfolding(crate::specs::Places::control_here))]
fn control_at(line: &[u8], at: Option<usize>) -> Option<Control>
    ensures { result ≡ spec.control_here line.now at }
{
    match at {
        Some(p) => control_of(word_at(line, p)?),
        None => Some(Control::All),
    }
}

// The access at a place, if there is one.
#[tactic(auto, unfolding(crate::specs::Places::access_here))]
fn access_at(line: &[u8], at: Option<usize>) -> Option<bool>
    ensures { result ≡ option_and_then (spec.access_here line.now) at }
{
    access_of(word_at(line, at?)?)
}

// The rule behind its access: users, control, topics.
#[tactic(auto, unfolding(crate::specs::Places::rule_behind, crate::specs::Places::with_users, crate::specs::Places::with_control, crate::specs::Places::with_topics, crate::specs::Places::users_of_place))]
fn rule_behind(line: &[u8], parts: Parts, allow: bool) -> Option<Rule>
    ensures { result ≡ spec.rule_behind line.now parts allow }
{
    let users = users_at(line, parts.users?, allow)?;
    let control = control_at(line, parts.control)?;
    if let Some(t) = parts.topics {
        if !topics_at(line, t) {
            return None;
        }
    }
    Some(Rule {
        allow,
        users,
        control,
        topics: parts.topics,
    })
}

// The rule of a line that is a document without a string over 256 bytes.
#[tactic(auto, unfolding(crate::specs::Places::rule_here, crate::specs::Places::with_access, crate::specs::RuleText::or_not_a_rule))]
fn rule_of(line: &[u8]) -> Result<Rule, Refusal>
    ensures { result ≡ spec.rule_here line.now }
{
    let parts = parts(line);
    if too_many_topics(line, parts.topics) {
        return Err(Refusal::TooLong);
    }
    let allow = access_at(line, parts.access).ok_or(Refusal::NotARule)?;
    rule_behind(line, parts, allow).ok_or(Refusal::NotARule)
}

// The rule of a line, or the first refusal in document 01's order.
pub fn read_rule(line: &[u8]) -> Result<Rule, Refusal>
    ensures { result ≡ spec.rule_answer (spec.fourth_of (line_value line.now)) (text_spec.read_rule line.now) }
{
    if LINE < line.len() {
        return Err(Refusal::TooLong);
    }
    // Most lines are rules that one pass reads.
    if let Some(rule) = in_one_pass(line) {
        return Ok(rule);
    }
    let longest = check(line).ok_or(Refusal::NotJson)?;
    if TEXT < longest {
        return Err(Refusal::TooLong);
    }
    rule_of(line)
}

// The fault of a text with more lines than a store takes.
const OVER_LINES: Fault = Fault {
    cause: Refusal::TooLong,
    line: LINES + 1,
};

// What a faulty line of a text is answered by: over 256 lines come first in document 01's order.
#[tactic(auto, using(crate::proofs::ReadLaws::faulty_over, crate::proofs::ReadLaws::faulty_here))]
fn faulty_line(text: &[u8], cause: Refusal, line: usize) -> Fault
    ensures { result ≡ spec.faulty_line (length (lines text.now)) cause line }
{
    if LINES < count_lines(text, LINES) {
        return OVER_LINES;
    }
    Fault { cause, line }
}

// The rules of a text, in one pass over its lines.
pub fn count_rules(text: &[u8]) -> Result<usize, Fault>
    ensures { result ≡ spec.rules_answer (length (lines text.now)) (text_spec.text_fault text.now) }
{
    let mut n = 0;
    for line in Lines::new(text) {
        if n == LINES {
            return Err(OVER_LINES);
        }
        if let Err(cause) = read_rule(line) {
            return Err(faulty_line(text, cause, n + 1));
        }
        n += 1;
    }
    Ok(n)
}

// A rule text: over 256 lines, or its first faulty line, or none.
#[tactic(auto, unfolding(crate::specs::Places::text_answer, crate::specs::Places::rules_answer))]
pub fn check_text(text: &[u8]) -> Result<(), Fault>
    ensures { result ≡ spec.text_answer (text_spec.text_fault text.now) }
{
    count_rules(text)?;
    Ok(())
}
