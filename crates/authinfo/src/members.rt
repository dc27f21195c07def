// The members of a rule's object, in one pass: the places of the values that say something.
ghost use Rattle.std.specs.Prelude.{◌≡◌, cond};
ghost use Rattle.json_text.specs.Access.{string_is, member_value};
ghost use Rattle.authinfo.specs.Places as spec;

use crate::words::Word;
use crate::{INSIDE, RulePlaces};
use json_text::access::{first_member, member_value};
use json_text::values::{item, separator};
use json_text::{Cursor, Separator};

// No places.
const NONE: RulePlaces = RulePlaces {
    permission: None,
    action: None,
    qos: None,
    retain: None,
    topic: None,
};

// The value of the member whose name this is, if it is called `name`; else the one before.
fn noted(word: &Word, name: &[u8], before: Option<usize>) -> Option<usize>
    ensures { result ≡ cond (string_is word.now.line.now word.now.at name.now) (member_value word.now.line.now word.now.at) before }
{
    if word.is(name) {
        return member_value(word.line, word.at);
    }
    before
}

// The places with those of the member whose name stands at this place.
#[tactic(auto, unfolding(crate::specs::Places::noted_at))]
fn with_member(line: &[u8], at: usize, found: RulePlaces) -> RulePlaces
    ensures { result ≡ spec.noted_at line.now at found }
{
    let word = Word::new(line, at);
    RulePlaces {
        permission: noted(&word, b"permission", found.permission),
        action: noted(&word, b"action", found.action),
        qos: noted(&word, b"qos", found.qos),
        retain: noted(&word, b"retain", found.retain),
        topic: noted(&word, b"topic", found.topic),
    }
}

// The places of the members of the object at this place; of each name the last counts. None, where no object stands there.
pub fn places_at(line: &[u8], at: usize) -> RulePlaces
    ensures { result ≡ spec.places_at line.now at }
{
    let Some(first) = first_member(line, at) else {
        return NONE;
    };
    let mut found = NONE;
    let mut i = first;
    // An iterator is no plainer: each member begins where the one before is read to, which may fail.
    while i < line.len() {
        found = with_member(line, i, found);
        let Some(c) = item(Cursor { at: i, longest: 0 }, line, INSIDE, true) else {
            return NONE;
        };
        match separator(line, c.at, b'}') {
            Some(Separator::Close(_)) => {
                return found;
            }
            Some(Separator::Comma(next)) => {
                i = next;
            }
            None => {
                return NONE;
            }
        }
    }
    NONE
}
