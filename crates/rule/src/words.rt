// The words of a rule, in any case of their ASCII letters.
ghost use Rattle.std.specs.Prelude.{◌≡◌};
ghost use Rattle.rule.specs.Rule as rule;
ghost use Rattle.rule.specs.Places as spec;

use crate::{Control, Word};
use json_text::strings::decode;

// The longest word has nine letters.
const LONGEST: usize = 9;

#[tactic(auto, unfolding(crate::specs::Rule::lower, json_text::specs::Utf8::between))]
fn lower(b: u8) -> u8
    ensures { result ≡ rule.lower b }
{
    match b {
        b'A'..=b'Z' => b + 32,
        _ => b,
    }
}

// Are the bytes, with their letters lowered, this word? `eq_ignore_ascii_case` would lower the word too, which promises something else.
pub fn is_word(text: &[u8], word: &[u8]) -> bool
    ensures { result ≡ rule.is_word word.now text.now }
{
    text.len() == word.len()
        && text
            .iter()
            .zip(word)
            .all(|(&b, &letter)| lower(b) == letter)
}

// The word that the text is.
#[tactic(auto, unfolding(crate::specs::Places::word_of))]
pub fn word_of(text: &[u8]) -> Option<Word>
    ensures { result ≡ spec.word_of text.now }
{
    if is_word(text, b"allow") {
        return Some(Word::Allow);
    }
    if is_word(text, b"deny") {
        return Some(Word::Deny);
    }
    if is_word(text, b"all") {
        return Some(Word::All);
    }
    if is_word(text, b"connect") {
        return Some(Word::Connect);
    }
    if is_word(text, b"publish") {
        return Some(Word::Publish);
    }
    if is_word(text, b"subscribe") {
        return Some(Word::Subscribe);
    }
    if is_word(text, b"pubsub") {
        return Some(Word::Pubsub);
    }
    None
}

// "Access: `allow`, `deny`."
#[tactic(auto, unfolding(crate::specs::Places::access_of_word))]
pub fn access_of(word: Word) -> Option<bool>
    ensures { result ≡ spec.access_of_word word }
{
    match word {
        Word::Allow => Some(true),
        Word::Deny => Some(false),
        Word::All | Word::Connect | Word::Publish | Word::Subscribe | Word::Pubsub => None,
    }
}

// "Control: absent, `all`, `connect`, `publish`, `subscribe`, `pubsub`."
#[tactic(auto, unfolding(crate::specs::Places::control_of_word))]
pub fn control_of(word: Word) -> Option<Control>
    ensures { result ≡ spec.control_of_word word }
{
    match word {
        Word::All => Some(Control::All),
        Word::Connect => Some(Control::Connect),
        Word::Publish => Some(Control::Publish),
        Word::Subscribe => Some(Control::Subscribe),
        Word::Pubsub => Some(Control::Pubsub),
        Word::Allow | Word::Deny => None,
    }
}

// The word that the string at this place is, decoded. No word is longer than nine bytes, so no more is decoded.
pub fn word_at(line: &[u8], at: usize) -> Option<Word>
    ensures { result ≡ spec.word_at line.now at }
{
    let mut text = [0u8; LONGEST];
    let n = decode(line, at, &mut text).ok()?;
    word_of(&text[..n])
}
