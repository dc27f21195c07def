// The users that a rule lists.
ghost use Rattle.std.specs.Prelude.{◌≡◌, ◌%◌, option_map};
ghost use Rattle.text.specs.Maybe.{bind};
ghost use Rattle.rule.specs.Rule as rule;
ghost use Rattle.rule.specs.Places as spec;
ghost use Rattle.rule.specs.Members as members;

use crate::words::word_at;
use crate::{EVERYONE, MemberPlaces, User, Users, Word};
use json_text::Kind;
use json_text::access::{kind_at, member, number_value, skip_value, truth};
use json_text::values::{is_at, skip_blanks};

// The value behind a member's name that ends before this place.
#[tactic(auto, unfolding(crate::specs::Members::value_behind))]
pub fn value_behind(line: &[u8], at: usize) -> Option<usize>
    ensures { result ≡ members.value_behind line.now at }
{
    let p = skip_blanks(line, at);
    if is_at(line, p, b':') {
        Some(skip_blanks(line, p + 1))
    } else {
        None
    }
}

// Is the value at this place a string?
#[tactic(auto, unfolding(crate::specs::Places::is_text_at, crate::specs::Places::is_text_kind))]
fn is_text(line: &[u8], at: usize) -> bool
    ensures { result ≡ spec.is_text_at line.now at }
{
    kind_at(line, at) == Kind::Text
}

// The string at a place, if one stands there.
#[tactic(auto, unfolding(crate::specs::Members::text_from))]
fn text_at(line: &[u8], at: Option<usize>) -> Option<usize>
    ensures { result ≡ members.text_from line.now at }
{
    at.filter(|&p| is_text(line, p))
}

// The string that the last member with this name has, of the object at this place.
pub fn text_member(line: &[u8], at: usize, name: &[u8]) -> Option<usize>
    ensures { result ≡ spec.text_place (bind (spec.member_of line.now at name.now) rule.as_text) }
{
    text_at(line, member(line, at, name))
}

// "`password` must be absent or a string."
#[tactic(auto, unfolding(crate::specs::Members::password_from))]
fn password_at(line: &[u8], at: Option<usize>) -> Option<Option<usize>>
    ensures { result ≡ members.password_from line.now at }
{
    match at {
        Some(p) => if is_text(line, p) {
            Some(Some(p))
        } else {
            None
        },
        None => Some(None),
    }
}

// The bool at a place, if one stands there.
#[tactic(auto, unfolding(crate::specs::Members::truth_from))]
pub fn truth_at(line: &[u8], at: Option<usize>) -> Option<bool>
    ensures { result ≡ members.truth_from line.now at }
{
    truth(line, at?)
}

// The number at a place, if one stands there.
#[tactic(auto, unfolding(crate::specs::Members::number_from))]
pub fn number_at(line: &[u8], at: Option<usize>) -> Option<u64>
    ensures { result ≡ members.number_from line.now at }
{
    number_value(line, at?)
}

// The name, and under allow its password and flag: `allow` is what the rule's line says, no switch of the caller's.
#[tactic(auto, unfolding(crate::specs::Members::user_listed, crate::specs::Members::user_from, crate::specs::Members::with_password, crate::specs::Rule::flag))]
fn user_at(line: &[u8], places: MemberPlaces, allow: bool) -> Option<Option<User>>
    ensures { result ≡ members.user_listed allow line.now places }
{
    let Some(name) = text_at(line, places.user) else {
        return Some(None);
    };
    if !allow {
        return Some(Some(User {
            name,
            password: None,
            superuser: false,
        }));
    }
    let password = password_at(line, places.password)?;
    let superuser = truth_at(line, places.superuser).unwrap_or(false);
    Some(Some(User {
        name,
        password,
        superuser,
    }))
}

// "`protocol` (number modulo 256)."
fn protocol_at(line: &[u8], at: Option<usize>) -> Option<u8>
    ensures { result ≡ option_map (λ n. n % 256) (members.number_from line.now at) }
{
    number_at(line, at).map(|n| (n % 256) as u8)
}

// The users, by the members of their object.
#[tactic(auto, unfolding(crate::specs::Members::users_listed, crate::specs::Members::users_from))]
pub fn users_of(line: &[u8], places: MemberPlaces, allow: bool) -> Option<Users>
    ensures { result ≡ members.users_listed allow line.now places }
{
    let user = user_at(line, places, allow)?;
    Some(Users {
        user,
        clientid: text_at(line, places.clientid),
        ipaddr: text_at(line, places.ipaddr),
        protocol: protocol_at(line, places.protocol),
    })
}

// The users that the value at this place lists: `all`, or an object.
pub fn users_at(line: &[u8], at: usize, allow: bool) -> Option<Users>
    ensures { result ≡ option_map spec.placed_users (bind (spec.value_of line.now at) (rule.users_of allow)) }
{
    match kind_at(line, at) {
        Kind::Text => match word_at(line, at)? {
            Word::All => Some(EVERYONE),
            _ => None,
        },
        Kind::Object => listed_users(line, at, allow),
        _ => None,
    }
}

// The users of the object at this place.
fn listed_users(line: &[u8], at: usize, allow: bool) -> Option<Users>
    ensures { result ≡ option_map spec.placed_users (spec.users_here allow line.now at) }
{
    let _ = skip_value(line, at)?;
    let places = MemberPlaces {
        user: member(line, at, b"user"),
        password: member(line, at, b"password"),
        superuser: member(line, at, b"superuser"),
        clientid: member(line, at, b"clientid"),
        ipaddr: member(line, at, b"ipaddr"),
        protocol: member(line, at, b"protocol"),
    };
    users_of(line, places, allow)
}
