// A rule's topic, filled for the client and held against the asked one. `eq`, whether it stands under `eq`, is a part of it as in the specs'
// record, not a switch: it is handed on, and `taken` alone looks at it.
ghost use Rattle.std.specs.Prelude.{◌≡◌, ◌+◌, ◌≤◌, length, Some};
ghost use Rattle.json_text.specs.Strings.{string_at};
ghost use Rattle.authinfo.specs.ClientRule as rule;
ghost use Rattle.authinfo.specs.Places as spec;
ghost use Rattle.authinfo.specs.Filling as words;

use crate::client::Question;
use crate::words::Word;
use json_text::strings::decode;
use rule::{Refusal, TEXT};

const USERNAME: [u8; 11] = *b"${username}";

const CLIENTID: [u8; 11] = *b"${clientid}";

// The bytes of either word.
const WORD: usize = 11;

// A topic of 256 bytes has 23 places of 11 bytes for a user name of 64: 1,475 bytes at the most, and this bound is simpler to see.
const BETWEEN: usize = 1489;

// Does the filled text take the asked topic? Over 256 bytes it is refused, and where it is neither an eq nor a filter.
fn taken(filled: &[u8], eq: bool, topic: &[u8]) -> Result<bool, Refusal>
    ensures { result ≡ spec.taken_by topic.now (rule.filled_topic eq (Some filled.now)) }
{
    if TEXT < filled.len() {
        return Err(Refusal::FilledTooLong);
    }
    if eq {
        return Ok(text::same(filled, topic));
    }
    if !topic::valid_filter(filled) {
        return Err(Refusal::NotARule);
    }
    Ok(topic::plain_match(filled, topic))
}

// The text, with the client id for `${clientid}` where the configured topic held it. `held` is what was seen before a user name was put in.
fn with_id(before: &[u8], held: bool, eq: bool, id: &[u8], topic: &[u8]) -> Result<bool, Refusal>
    ensures { result ≡ spec.taken_by topic.now (rule.filled_topic eq (Some (spec.id_put held id.now before.now))) }
{
    if !held {
        return taken(before, eq, topic);
    }
    let mut filled = [0u8; TEXT];
    match text::replace(before, &CLIENTID, id, &mut filled) {
        None => Err(Refusal::FilledTooLong),
        Some(n) => taken(&filled[..n], eq, topic),
    }
}

// The place of the first `$` from `at` on; the text's end where there is none.
fn dollar_from(text: &[u8], at: usize) -> usize
    requires { at ≤ length text.now }
    ensures { result ≡ words.dollar_from text.now at }
{
    match text[at..].iter().position(|&b| b == b'$') {
        Some(n) => at + n,
        None => text.len(),
    }
}

// Does the word stand at this place, with no `$` behind it?
#[tactic(auto, unfolding(crate::specs::Filling::stands_last))]
fn stands_last(text: &[u8], at: usize, word: &[u8; WORD]) -> bool
    requires { at ≤ length text.now }
    ensures { result ≡ words.stands_last text.now at word.now }
{
    text::begins(&text[at..], word) && dollar_from(text, at + WORD) == text.len()
}

// The text, with `new` for the word at this place.
fn with_word(text: &[u8], at: usize, new: &[u8], eq: bool, topic: &[u8]) -> Result<bool, Refusal>
    requires short { spec.Short text.now }
    requires word_length_in_bounds { at + words.word_length ≤ length text.now }
    ensures { result ≡ spec.taken_by topic.now (rule.filled_topic eq (Some (words.word_put text.now at new.now))) }
{
    let kept = text.len() - WORD;
    if TEXT - kept < new.len() {
        return Err(Refusal::FilledTooLong);
    }
    let mut filled = [0u8; TEXT];
    text::paste(&text[..at], &mut filled, 0);
    text::paste(new, &mut filled, at);
    text::paste(&text[at + WORD..], &mut filled, at + new.len());
    taken(&filled[..kept + new.len()], eq, topic)
}

// The configured text, without its `eq `, filled. Most have no `$`, or one, at which one of the words stands.
fn filled(configured: &[u8], eq: bool, asks: &Question) -> Result<bool, Refusal>
    requires { spec.Short configured.now }
    ensures { result ≡ spec.taken_by asks.now.topic.now (rule.filled_topic eq (rule.fill_for asks.now.client.now.id asks.now.client.now.name configured.now)) }
{
    let Question { client, topic, .. } = *asks;
    let at = dollar_from(configured, 0);
    if at == configured.len() {
        return taken(configured, eq, topic);
    }
    if stands_last(configured, at, &CLIENTID) {
        return with_word(configured, at, client.id, eq, topic);
    }
    if stands_last(configured, at, &USERNAME) {
        let Some(n) = client.name else {
            return Err(Refusal::NotARule);
        };
        let name = text::front(client.names, n);
        return with_word(configured, at, name, eq, topic);
    }
    filled_in_turn(configured, eq, asks)
}

// The configured text, without its `eq `, with the user name for `${username}`, then the client id for `${clientid}`.
fn filled_in_turn(configured: &[u8], eq: bool, asks: &Question) -> Result<bool, Refusal>
    requires { spec.Short configured.now }
    ensures { result ≡ spec.taken_by asks.now.topic.now (rule.filled_topic eq (rule.fill_for asks.now.client.now.id asks.now.client.now.name configured.now)) }
{
    let Question { client, topic, .. } = *asks;
    let held = text::contains(configured, &CLIENTID);
    if !text::contains(configured, &USERNAME) {
        return with_id(configured, held, eq, client.id, topic);
    }
    // "Without a user name such a topic is refused."
    let Some(n) = client.name else {
        return Err(Refusal::NotARule);
    };
    let name = text::front(client.names, n);
    let mut between = [0u8; BETWEEN];
    match text::replace(configured, &USERNAME, name, &mut between) {
        None => Err(Refusal::FilledTooLong),
        Some(m) => with_id(&between[..m], held, eq, client.id, topic),
    }
}

// A configured topic: behind `eq ` a text, else a filter that isn't empty.
fn configured(text: &[u8], asks: &Question) -> Result<bool, Refusal>
    requires { spec.Short text.now }
    ensures { result ≡ spec.topic_takes asks.now.topic.now asks.now.client.now.id asks.now.client.now.name (Some text.now) }
{
    if text::begins(text, b"eq ") {
        return filled(&text[3..], true, asks);
    }
    if text.len() == 0 {
        return Err(Refusal::NotARule);
    }
    filled(text, false, asks)
}

// The topic whose string this is. A plain one is read in place.
#[tactic(auto, using(rule::proofs::DecodeLaws::plain_bounds))]
pub(crate) fn topic_at(word: &Word, asks: &Question) -> Result<bool, Refusal>
    requires { spec.ShortAt (string_at word.now.line.now word.now.at) }
    ensures { result ≡ spec.topic_takes asks.now.topic.now asks.now.client.now.id asks.now.client.now.name (spec.text_of (string_at word.now.line.now word.now.at)) }
{
    if let Some(end) = word.quote {
        return configured(&word.line[word.at + 1..end], asks);
    }
    let mut decoded = [0u8; TEXT];
    match decode(word.line, word.at, &mut decoded) {
        Ok(n) => configured(&decoded[..n], asks),
        Err(_) => Err(Refusal::NotARule),
    }
}
