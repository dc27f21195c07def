// What is at an element of a line: a word, a text, a number, or `null`. Its place is one that `reader` found. A line and a place are two parameters
// here, as in `number_at` and `truth_at` of rule::listed, which are called beside these; a method of `Array` would name it twice, as in
// `array.text_at(array.at.third, ..)`.
ghost use Rattle.std.specs.Prelude.{◌≡◌, length};
ghost use Rattle.json_text.specs.Access.{copied, decoded_into};
ghost use Rattle.std.specs.Option.{option_copied};
ghost use Rattle.authinfo.specs.Given.{given};
ghost use Rattle.lines.specs.Reading as spec;

use crate::Form;
use json_text::strings::{decode, string_is};
use json_text::values::literal_at;
use json_text::{DecodeError, Literal};
use rule::listed::number_at;
use text::front;

const PROTOCOL: u64 = 255;

// Is it this word that stands there?
#[tactic(auto, unfolding(crate::specs::Reading::word_from))]
fn is_word(line: &[u8], at: Option<usize>, word: &[u8]) -> bool
    ensures { result ≡ spec.word_from line.now at word.now }
{
    at.is_some_and(|p| string_is(line, p, word))
}

// The form of a line, by its word, if it is one of the six. Test by test, not by a `match` on bytes: a string may spell its word with escapes.
#[tactic(auto, unfolding(crate::specs::Reading::form_here))]
pub fn form(line: &[u8], at: Option<usize>) -> Option<Form>
    ensures { result ≡ spec.form_here line.now at }
{
    if is_word(line, at, b"connect") {
        return Some(Form::Connect);
    }
    if is_word(line, at, b"subscribe") {
        return Some(Form::Subscribe);
    }
    if is_word(line, at, b"publish") {
        return Some(Form::Publish);
    }
    if is_word(line, at, b"connected") {
        return Some(Form::Connected);
    }
    if is_word(line, at, b"disconnected") {
        return Some(Form::Disconnected);
    }
    if is_word(line, at, b"ended") {
        return Some(Form::Ended);
    }
    None
}

// Does `null` stand there?
#[tactic(auto, unfolding(crate::specs::Reading::null_from, crate::specs::Reading::is_null_word))]
fn is_null(line: &[u8], at: Option<usize>) -> bool
    ensures { result ≡ spec.null_from line.now at }
{
    at.and_then(|p| literal_at(line, p)) == Some(Literal::Null)
}

// The text that stands there, decoded to the front of the buffer.
#[tactic(auto, unfolding(crate::specs::Reading::string_from, json_text::specs::Access::copied, json_text::specs::Access::decoded_into))]
pub fn text_at(line: &[u8], at: Option<usize>, buffer: &mut [u8]) -> Result<usize, DecodeError>
    ensures value { result ≡ copied (length buffer.old) (spec.string_from line.now at) }
    ensures buffer_after { buffer.new ≡ decoded_into buffer.old (spec.string_from line.now at) }
{
    match at {
        Some(p) => decode(line, p, buffer),
        None => Err(DecodeError::NoText),
    }
}

// The text or `null`.
#[tactic(auto, unfolding(crate::specs::Reading::given_from, crate::specs::Reading::given_by))]
pub fn given_at(line: &[u8], at: Option<usize>, buffer: &mut [u8]) -> Option<Option<usize>>
    ensures value { result ≡ spec.given_from (length buffer.old) line.now at }
    ensures buffer_after { buffer.new ≡ decoded_into buffer.old (spec.string_from line.now at) }
{
    match text_at(line, at, buffer) {
        Ok(n) => Some(Some(n)),
        Err(DecodeError::NoText) if is_null(line, at) => Some(None),
        Err(DecodeError::NoText | DecodeError::TooLong) => None,
    }
}

// An earlier answer's code, or `null`, which is none.
#[tactic(auto, unfolding(crate::specs::Reading::earlier_from))]
pub fn earlier_at(line: &[u8], at: Option<usize>) -> Option<u64>
    ensures { result ≡ spec.earlier_from line.now at }
{
    if is_null(line, at) {
        return Some(0);
    }
    number_at(line, at)
}

// A protocol up to 255, or `null`.
#[tactic(auto, unfolding(crate::specs::Reading::protocol_from, crate::specs::Reading::protocol_by))]
pub fn protocol_at(line: &[u8], at: Option<usize>) -> Option<Option<u8>>
    ensures { result ≡ spec.protocol_from line.now at }
{
    if is_null(line, at) {
        return Some(None);
    }
    let n = number_at(line, at)?;
    if PROTOCOL < n {
        return None;
    }
    Some(Some(n as u8))
}

// The text of this length at the front of its buffer, where there is one.
#[tactic(auto, unfolding(authinfo::specs::Given::given))]
pub fn given_in<'a>(length: Option<usize>, buffer: &'a [u8]) -> Option<&'a [u8]>
    ensures { option_copied result ≡ given length buffer.now }
{
    length.map(|n| front(buffer, n))
}
