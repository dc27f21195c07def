// A rule from its line in one pass, where its words are plain: each value is passed over once, as it is read. Whatever such a rule has
// not is left to the caller, which reads the line step by step; so nothing here refuses a line.
ghost use Rattle.std.specs.Prelude.{◌≡◌, ◌||◌, cond, eqb, length, None, Some, IfSome};
ghost use Rattle.topic.specs.Topic.{valid_filter};
ghost use Rattle.rule.specs.Rule as rule;
ghost use Rattle.rule.specs.OnePass as spec;
ghost use Rattle.rule.specs.Members as members;
ghost use Rattle.rule.specs.Front as front;
ghost use Rattle.text.specs.Text.{same};
ghost use Rattle.json_text.specs.Json.{skip_blanks};
ghost use Rattle.json_text.specs.Plain.{plain_text};

use crate::ahead::eq_text;
use crate::listed::{users_at, users_of, value_behind};
use crate::topic_list::{is_template, topic_at};
use crate::words::{access_of, control_of, word_of};
use crate::{Control, EVERYONE, MemberPlaces, Rule, TEXT, TOPICS, Users, Word};
use json_text::access::{kind_at, plain_text};
use json_text::values::{is_at, separator, skip_blanks, value};
use json_text::{Cursor, Kind, Read, Separator};

// How many brackets may be open inside the line's array, and inside the users' object or the topics' array.
const IN_LINE: usize = 7;

const IN_PART: usize = 6;

// The place behind a value of the users' object or the topics' array, if no string of it is over the limit, nor one of `longest` bytes.
fn part_end(line: &[u8], at: usize, longest: usize) -> Option<usize>
    ensures { IfSome result (spec.PartTo 6 line.now at longest) }
{
    let behind = value(Cursor { at, longest }, line, IN_PART)?;
    (behind.longest <= TEXT).then_some(behind.at)
}

// Is the text a template, or a valid filter? Most are valid, so that is tested first.
fn is_topic(text: &[u8]) -> bool
    ensures { result ≡ (rule.is_template text.now || valid_filter text.now) }
{
    topic::valid_filter(text) || is_template(text)
}

// The place behind the topic at this place, which is passed over and then read.
fn topic_passed(line: &[u8], at: usize) -> Option<usize>
    ensures { IfSome result (spec.TopicTo line.now at) }
{
    let end = part_end(line, at, 0)?;
    topic_at(line, at).is_some().then_some(end)
}

// The place behind the object at this place: one whose only member is a plain `eq` is read as it stands.
fn eq_end(line: &[u8], at: usize) -> Option<usize>
    ensures { IfSome result (spec.TopicTo line.now at) }
{
    let Some(eq) = eq_text(line, at) else {
        return topic_passed(line, at);
    };
    (eq.closes - (eq.opens + 1) <= TEXT).then_some(eq.next)
}

// The place behind the string at this place: a plain one is tested as it stands.
#[tactic(auto, using(crate::proofs::DecodeLaws::plain_bounds))]
fn string_end(line: &[u8], at: usize) -> Option<usize>
    ensures { IfSome result (spec.TopicTo line.now at) }
{
    let Some(end) = plain_text(line, at) else {
        return topic_passed(line, at);
    };
    if end - (at + 1) <= TEXT && is_topic(&line[at + 1..end]) {
        Some(end + 1)
    } else {
        None
    }
}

// The place behind the topic at this place: a string or an object.
fn topic_end(line: &[u8], at: usize) -> Option<usize>
    ensures { IfSome result (spec.TopicTo line.now at) }
{
    match kind_at(line, at) {
        Kind::Text => string_end(line, at),
        Kind::Object => eq_end(line, at),
        _ => None,
    }
}

// The place behind the array of topics at this place.
fn topics_end(line: &[u8], at: usize) -> Option<usize>
    ensures { IfSome result (spec.TopicsTo line.now at) }
{
    let Kind::Array = kind_at(line, at) else {
        return None;
    };
    let mut i = skip_blanks(line, at + 1);
    for _ in 0..TOPICS {
        let end = topic_end(line, i)?;
        match separator(line, end, b']')? {
            Separator::Close(next) => {
                return Some(next);
            }
            Separator::Comma(next) => {
                i = next;
            }
        }
    }
    None
}

// The rule, if the line ends behind it.
fn at_end(line: &[u8], next: usize, rule: Rule) -> Option<Rule>
    ensures { result ≡ cond (eqb (skip_blanks line.now next) (length line.now)) (Some rule) None }
{
    (skip_blanks(line, next) == line.len()).then_some(rule)
}

// The rule, from its topics on.
fn from_topics(line: &[u8], allow: bool, users: Users, control: Control, at: usize) -> Option<Rule>
    ensures { IfSome result (spec.FromTopics line.now allow users control at) }
{
    let end = topics_end(line, at)?;
    let Separator::Close(next) = separator(line, end, b']')? else {
        return None;
    };
    at_end(
        line,
        next,
        Rule {
            allow,
            users,
            control,
            topics: Some(at),
        },
    )
}

// The rule, from its control on.
#[tactic(auto, using(crate::proofs::DecodeLaws::plain_bounds))]
fn from_control(line: &[u8], allow: bool, users: Users, at: usize) -> Option<Rule>
    ensures { IfSome result (spec.FromControl line.now allow users at) }
{
    let end = plain_text(line, at)?;
    let control = control_of(word_of(&line[at + 1..end])?)?;
    match separator(line, end + 1, b']')? {
        Separator::Comma(next) => from_topics(line, allow, users, control, next),
        Separator::Close(next) => at_end(
            line,
            next,
            Rule {
                allow,
                users,
                control,
                topics: None,
            },
        ),
    }
}

// A member's place, by its name: that of the value `p`, if this is the name.
fn noted(text: &[u8], name: &[u8], p: usize, before: Option<usize>) -> Option<usize>
    ensures { result ≡ cond (same text.now name.now) (Some p) before }
{
    if text::same(text, name) {
        Some(p)
    } else {
        before
    }
}

// The members' places with those of one member more.
#[tactic(auto, unfolding(crate::specs::Members::noted))]
fn with_member(text: &[u8], p: usize, found: MemberPlaces) -> MemberPlaces
    ensures { result ≡ members.noted text.now p found }
{
    MemberPlaces {
        user: noted(text, b"user", p, found.user),
        password: noted(text, b"password", p, found.password),
        superuser: noted(text, b"superuser", p, found.superuser),
        clientid: noted(text, b"clientid", p, found.clientid),
        ipaddr: noted(text, b"ipaddr", p, found.ipaddr),
        protocol: noted(text, b"protocol", p, found.protocol),
    }
}

// The members of the object at this place, if their names are plain. A loop: each begins where the one before was read to, if it was.
#[tactic(auto, using(crate::proofs::DecodeLaws::plain_bounds))]
fn members_end(line: &[u8], at: usize) -> Option<Read<MemberPlaces>>
    ensures { IfSome result (λ r. members.MembersTo line.now at r.value r.next) }
{
    if !is_at(line, at, b'{') {
        return None;
    }
    let mut found = MemberPlaces::default();
    let mut i = skip_blanks(line, at + 1);
    while i < line.len() {
        let end = plain_text(line, i)?;
        let p = value_behind(line, end + 1)?;
        found = with_member(&line[i + 1..end], p, found);
        let behind = part_end(line, p, end - (i + 1))?;
        match separator(line, behind, b'}')? {
            Separator::Close(next) => {
                return Some(Read { value: found, next });
            }
            Separator::Comma(next) => {
                i = next;
            }
        }
    }
    None
}

// Everyone, if the word `all` stands plain at this place, and the place behind it.
#[tactic(auto, using(crate::proofs::DecodeLaws::plain_bounds))]
fn everyone_end(line: &[u8], at: usize) -> Option<Read<Users>>
    ensures { (allow : _) → IfSome result (λ r. members.UsersTo line.now allow at r.value r.next) }
{
    let end = plain_text(line, at)?;
    match word_of(&line[at + 1..end])? {
        Word::All => Some(Read {
            value: EVERYONE,
            next: end + 1,
        }),
        _ => None,
    }
}

// The users at this place, which are passed over and then read, and the place behind them.
fn users_passed(line: &[u8], allow: bool, at: usize) -> Option<Read<Users>>
    ensures { result ≡ front.users_up_to line.now allow at }
{
    let c = value(Cursor { at, longest: 0 }, line, IN_LINE)?;
    if TEXT < c.longest {
        return None;
    }
    Some(Read {
        value: users_at(line, at, allow)?,
        next: c.at,
    })
}

// The users at this place, a word or an object, and the place behind them.
pub fn users_end(line: &[u8], allow: bool, at: usize) -> Option<Read<Users>>
    ensures { result ≡ front.users_up_to line.now allow at }
{
    match kind_at(line, at) {
        Kind::Text => {
            let everyone = everyone_end(line, at);
            if everyone.is_some() {
                everyone
            } else {
                users_passed(line, allow, at)
            }
        }
        Kind::Object => {
            let Some(places) = members_end(line, at) else {
                return users_passed(line, allow, at);
            };
            Some(Read {
                value: users_of(line, places.value, allow)?,
                next: places.next,
            })
        }
        _ => None,
    }
}

// The rule, from its users on: its access was read, up to them.
fn from_users(line: &[u8], access: Read<bool>) -> Option<Rule>
    ensures { IfSome result (spec.FromUsers line.now access.value access.next) }
{
    let Read { value: allow, next } = access;
    let users = users_end(line, allow, next)?;
    match separator(line, users.next, b']')? {
        Separator::Comma(next) => from_control(line, allow, users.value, next),
        Separator::Close(next) => at_end(
            line,
            next,
            Rule {
                allow,
                users: users.value,
                control: Control::All,
                topics: None,
            },
        ),
    }
}

// The access, if it is a plain word at this place, and the place of the users.
#[tactic(auto, using(crate::proofs::DecodeLaws::plain_bounds), unfolding(crate::specs::Front::access_from, crate::specs::Front::access_before, crate::specs::Front::told_to, crate::specs::Front::word_between))]
fn access_word(line: &[u8], at: usize) -> Option<Read<bool>>
    ensures { result ≡ front.access_from line.now at (plain_text line.now at) }
{
    let end = plain_text(line, at)?;
    match separator(line, end + 1, b']')? {
        Separator::Comma(users) => Some(Read {
            value: access_of(word_of(&line[at + 1..end])?)?,
            next: users,
        }),
        Separator::Close(_) => None,
    }
}

// The access of the line's array, if it is a plain word, and the place of the users.
pub fn access_end(line: &[u8]) -> Option<Read<bool>>
    ensures { result ≡ front.access_of line.now }
{
    let first = skip_blanks(line, 0);
    match kind_at(line, first) {
        Kind::Array => access_word(line, skip_blanks(line, first + 1)),
        _ => None,
    }
}

// The rule of the line, if this is one to be read in one pass.
pub(crate) fn in_one_pass(line: &[u8]) -> Option<Rule>
    ensures { IfSome result (spec.IsRule line.now) }
{
    from_users(line, access_end(line)?)
}
