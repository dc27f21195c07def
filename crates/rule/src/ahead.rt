// What stands behind the users of a rule's line, no further than is asked: control and the place of the topics. A caller who knows that the
// line is a rule reads access and users first (`one_pass`) and need not read on where they differ. Where a word isn't plain nothing is
// answered.
ghost use Rattle.std.specs.Prelude.{◌≡◌};
ghost use Rattle.json_text.specs.Plain.{plain_text};
ghost use Rattle.rule.specs.Front as spec;

use crate::listed::value_behind;
use crate::words::{control_of, word_of};
use crate::{Control, EqText, Rest};
use json_text::access::{kind_at, plain_text};
use json_text::values::{separator, skip_blanks};
use json_text::{Kind, Separator};

// The control and the topics behind users that end before this place.
#[tactic(auto, unfolding(crate::specs::Front::rest_of, crate::specs::Front::rest_behind))]
pub fn rest(line: &[u8], at: usize) -> Option<Rest>
    ensures { result ≡ spec.rest_of line.now at }
{
    match separator(line, at, b']')? {
        Separator::Close(_) => Some(Rest {
            control: Control::All,
            topics: None,
        }),
        Separator::Comma(p) => from_word(line, p),
    }
}

// The same, from the control's place on.
#[tactic(auto, using(crate::proofs::DecodeLaws::plain_bounds), unfolding(crate::specs::Front::word_from, crate::specs::Front::word_between, crate::specs::Front::topics_before))]
fn from_word(line: &[u8], at: usize) -> Option<Rest>
    ensures { result ≡ spec.word_from line.now at (plain_text line.now at) }
{
    let end = plain_text(line, at)?;
    let control = control_of(word_of(&line[at + 1..end])?)?;
    let topics = match separator(line, end + 1, b']')? {
        Separator::Comma(next) => Some(next),
        Separator::Close(_) => None,
    };
    Some(Rest { control, topics })
}

// The string of the object at this place whose only member is a plain `eq`, and the place behind the object.
pub fn eq_text(line: &[u8], at: usize) -> Option<EqText>
    ensures { result ≡ spec.eq_of line.now at }
{
    match kind_at(line, at) {
        Kind::Object => eq_member(line, skip_blanks(line, at + 1)),
        _ => None,
    }
}

// The same, from the member's name on.
#[tactic(auto, using(crate::proofs::DecodeLaws::plain_bounds), unfolding(crate::specs::Front::eq_named, crate::specs::Front::eq_valued, crate::specs::Front::eq_before))]
fn eq_member(line: &[u8], name: usize) -> Option<EqText>
    ensures { result ≡ spec.eq_named line.now name (plain_text line.now name) }
{
    let end = plain_text(line, name)?;
    if !text::same(&line[name + 1..end], b"eq") {
        return None;
    }
    let opens = value_behind(line, end + 1)?;
    let closes = plain_text(line, opens)?;
    match separator(line, closes + 1, b'}')? {
        Separator::Close(next) => Some(EqText {
            opens,
            closes,
            next,
        }),
        Separator::Comma(_) => None,
    }
}
