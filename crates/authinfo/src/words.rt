// A rule's permission and action, by the words of their strings.
ghost use Rattle.std.specs.Prelude.{◌≡◌, IfSome, Some};
ghost use Rattle.json_text.specs.Access.{string_is};
ghost use Rattle.json_text.specs.Plain.{plain_text};
ghost use Rattle.rule.specs.OnePass as rule;
ghost use Rattle.authinfo.specs.Places as spec;

use crate::{Action, INSIDE};
use json_text::access::{kind_at, plain_text};
use json_text::strings::string_is;
use json_text::values::value;
use json_text::{Cursor, Kind};
use rule::TEXT;

// The closing quote of a value, if that is a plain string: a number, an array or a word has none. By the value's kind, the form that document
// 01's 'One byte decides what kind of value comes next' asks for (decision 61).
fn closing_quote(line: &[u8], at: usize) -> Option<usize>
    ensures { result ≡ plain_text line.now at }
{
    match kind_at(line, at) {
        Kind::Text => plain_text(line, at),
        _ => None,
    }
}

// What stands at a place of a line, with its closing quote if it is a plain string, which is then read as it stands.
#[derive(Clone, Copy)]
pub(crate) struct Word<'a> {
    pub(crate) line: &'a [u8],
    pub(crate) at: usize,
    pub(crate) quote: Option<usize>,
    ghost closes: { quote ≡ plain_text line.now at },
}

impl<'a> Word<'a> {
    pub(crate) fn new(line: &'a [u8], at: usize) -> Self
        ensures { (result.line ≡ line.entry) × (result.at ≡ at) }
    {
        Word {
            line,
            at,
            quote: closing_quote(line, at),
        }
    }

    // Is it a string that is this word?
    #[tactic(auto, using(rule::proofs::DecodeLaws::plain_bounds))]
    pub(crate) fn is(&self, word: &[u8]) -> bool
        ensures { result ≡ string_is self.now.line.now self.now.at word.now }
    {
        match self.quote {
            Some(end) => text::same(&self.line[self.at + 1..end], word),
            None => string_is(self.line, self.at, word),
        }
    }

    // The permission: exactly `allow` or `deny`.
    #[tactic(auto, unfolding(crate::specs::Places::permission_here))]
    pub(crate) fn permission(&self) -> Option<bool>
        ensures { result ≡ spec.permission_here self.now.line.now (Some self.now.at) }
    {
        if self.is(b"allow") {
            return Some(true);
        }
        if self.is(b"deny") {
            return Some(false);
        }
        None
    }

    // The action: exactly `all`, `publish` or `subscribe`.
    #[tactic(auto, unfolding(crate::specs::Places::action_here))]
    pub(crate) fn action(&self) -> Option<Action>
        ensures { result ≡ spec.action_here self.now.line.now (Some self.now.at) }
    {
        if self.is(b"all") {
            return Some(Action::All);
        }
        if self.is(b"publish") {
            return Some(Action::Publish);
        }
        if self.is(b"subscribe") {
            return Some(Action::Subscribe);
        }
        None
    }

    // The place behind it, if no string of it is over the limit, nor one of `longest` bytes.
    #[tactic(auto, using(rule::proofs::DecodeLaws::plain_bounds))]
    pub(crate) fn end(&self, longest: usize) -> Option<usize>
        ensures { IfSome result (rule.PartTo 7 self.now.line.now self.now.at longest) }
    {
        if let Some(end) = self.quote {
            if TEXT < longest {
                return None;
            }
            if TEXT < end - (self.at + 1) {
                return None;
            }
            return Some(end + 1);
        }
        let begins = Cursor {
            at: self.at,
            longest,
        };
        let c = value(begins, self.line, INSIDE)?;
        if TEXT < c.longest {
            return None;
        }
        Some(c.at)
    }
}

// The permission, and the action, of a member that may be absent.
#[tactic(auto, unfolding(crate::specs::Places::permission_here))]
pub(crate) fn permission_at(line: &[u8], at: Option<usize>) -> Option<bool>
    ensures { result ≡ spec.permission_here line.now at }
{
    Word::new(line, at?).permission()
}

#[tactic(auto, unfolding(crate::specs::Places::action_here))]
pub(crate) fn action_at(line: &[u8], at: Option<usize>) -> Option<Action>
    ensures { result ≡ spec.action_here line.now at }
{
    Word::new(line, at?).action()
}
