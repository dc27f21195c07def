// The members of a line's object in one pass, where their names are plain: each value is passed over once, and its words are read as they
// stand. Whatever such a line has not is left to the caller, which reads the line step by step; so nothing here refuses a line.
ghost use Rattle.std.specs.Prelude.{◌≡◌, IfSome};
ghost use Rattle.authinfo.specs.OnePass as spec;

use crate::RuleParts;
use crate::words::Word;
use json_text::access::{kind_at, plain_text};
use json_text::values::{separator, skip_blanks};
use json_text::{Kind, Separator};
use rule::listed::value_behind;

// No parts.
const NONE: RuleParts = RuleParts {
    permission: None,
    action: None,
    qos: None,
    retain: None,
    topic: None,
    quote: None,
};

// The parts with those of one member more: its name and its value.
fn with_member(name: &[u8], value: &Word, found: RuleParts) -> RuleParts
    ensures { result ≡ spec.with_member value.now.line.now name.now value.now.at found }
{
    if text::same(name, b"permission") {
        return RuleParts {
            permission: value.permission(),
            ..found
        };
    }
    if text::same(name, b"action") {
        return RuleParts {
            action: value.action(),
            ..found
        };
    }
    if text::same(name, b"topic") {
        return RuleParts {
            topic: Some(value.at),
            quote: value.quote,
            ..found
        };
    }
    if text::same(name, b"qos") {
        return RuleParts {
            qos: Some(value.at),
            ..found
        };
    }
    if text::same(name, b"retain") {
        return RuleParts {
            retain: Some(value.at),
            ..found
        };
    }
    found
}

// What the line's object tells of a rule, if its members' names are plain.
#[tactic(auto, using(rule::proofs::DecodeLaws::plain_bounds))]
pub(crate) fn in_one_pass(line: &[u8]) -> Option<RuleParts>
    ensures { IfSome result (spec.LineTo line.now) }
{
    let first = skip_blanks(line, 0);
    let Kind::Object = kind_at(line, first) else {
        return None;
    };
    let mut found = NONE;
    // An iterator is no plainer: each member begins where the one before is read to, which may fail.
    let mut i = skip_blanks(line, first + 1);
    while i < line.len() {
        let end = plain_text(line, i)?;
        let p = value_behind(line, end + 1)?;
        let value = Word::new(line, p);
        found = with_member(&line[i + 1..end], &value, found);
        let behind = value.end(end - (i + 1))?;
        match separator(line, behind, b'}')? {
            Separator::Close(next) => {
                if skip_blanks(line, next) != line.len() {
                    return None;
                }
                return Some(found);
            }
            Separator::Comma(next) => {
                i = next;
            }
        }
    }
    None
}
