// What a recorded line asks, and whether this port gives its answer. A further kind of line is a variant of `Kind`, with a place in `ALL`, a
// letter in `letter`, an arm of `agrees`, and a clause of each in specs/Judging.antt and specs/Tallies.antt.
ghost use Rattle.std.specs.Prelude.{◌≡◌, [], ◌∷◌, Some};
ghost use Rattle.vectors.specs.Judging as spec;

use crate::asking::{is_word, store_answer};
use crate::clients::{client_answer, is_packed};
use crate::fields::{Client, field, number, rest};
use json_text::values::{is_document, is_document_within};
use mqtt_acl::{mqtt_acl_identity, mqtt_acl_rule_refusal};
use topic::{plain_match, tree_match, valid_filter};

// The kinds of questions: is it a valid filter (`V`), Tree match (`T`), Plain match (`P`), is it a JSON document (`J`), one whose
// strings are within the limit (`L`), is it a rule, or why not (`R`), does the rule mean a client (`I`), connect, subscribe or
// publish on a store (`Q`), and what does a client's own rule say (`C`).
#[derive(Clone, Copy, Debug, PartialEq, Eq)]
pub enum Kind {
    Valid,
    Tree,
    Plain,
    Document,
    Within,
    RuleLine,
    Identity,
    OnStore,
    Client,
}

// The number of kinds, and all of them, in the order in which they are declared.
pub const KINDS: usize = 9;

pub const ALL: [Kind; KINDS] = [
    Kind::Valid,
    Kind::Tree,
    Kind::Plain,
    Kind::Document,
    Kind::Within,
    Kind::RuleLine,
    Kind::Identity,
    Kind::OnStore,
    Kind::Client,
];

// What a line comes to: its kind, and whether it agrees.
#[derive(Clone, Copy, Debug, PartialEq, Eq)]
pub struct Judged {
    pub kind: Kind,
    pub agrees: bool,
}

// The kind that the first field of a line names.
fn kind_of(word: &[u8]) -> Option<Kind>
    ensures { result ≡ spec.kind_of word.now }
{
    ALL.iter()
        .find(|kind| text::same(word, &[kind.letter()]))
        .copied()
}

// Is the answer the recorded one, which is `yes` or `no`?
#[tactic(auto, using(text::proofs::Laws::same_lengths, crate::proofs::Laws::same_heads), unfolding(crate::specs::Judging::compared, text::specs::Text::same))]
fn compared(answer: bool, recorded: &[u8]) -> Option<bool>
    ensures { result ≡ spec.compared answer recorded.now }
{
    match recorded {
        b"yes" => Some(answer),
        b"no" => Some(!answer),
        _ => None,
    }
}

// Is the recorded answer this digit?
#[tactic(auto, using(text::proofs::Laws::same_lengths), unfolding(crate::specs::Judging::is_digit, text::specs::Text::same))]
fn is_digit(answer: u32, recorded: &[u8]) -> bool
    ensures { result ≡ spec.is_digit answer recorded.now }
{
    matches!(recorded, [digit] if u64::from(*digit) == u64::from(answer) + 48)
}

// The longest decoded string.
const LIMIT: usize = 256;

// What the exported function answers to a line `I`, answer, client id, name, password, address, protocol, rule line.
#[tactic(auto, unfolding(crate::specs::Judging::identity_asked, mqtt_acl::specs::Rules::identity_of))]
fn identity_answer(line: &[u8]) -> u8
    ensures { result ≡ spec.identity_asked line.now }
{
    let client = Client::at(line, 2);
    mqtt_acl_identity(
        rest(line, 7),
        client.id,
        client.name.has,
        client.name.text,
        client.password.has,
        client.password.text,
        client.address.has,
        client.address.text,
        client.protocol.has,
        number(client.protocol.text),
    )
}

// Is the answer to a question on a store the recorded word and digit?
#[tactic(auto, unfolding(crate::specs::Judging::is_answer))]
fn is_answer(answer: u32, word: &[u8], recorded: &[u8]) -> bool
    ensures { result ≡ spec.is_answer answer word.now recorded.now }
{
    is_digit(answer / 16, recorded) && is_word(answer % 16, word)
}

impl Kind {
    // The letter that names the kind.
    #[tactic(auto, unfolding(crate::specs::Judging::letter, crate::specs::Judging::kind_of, text::specs::Text::same))]
    pub fn letter(self) -> u8
        ensures value { result ∷ [] ≡ spec.letter self }
        ensures names { spec.kind_of (result ∷ []) ≡ Some self }
    {
        match self {
            Kind::Valid => b'V',
            Kind::Tree => b'T',
            Kind::Plain => b'P',
            Kind::Document => b'J',
            Kind::Within => b'L',
            Kind::RuleLine => b'R',
            Kind::Identity => b'I',
            Kind::OnStore => b'Q',
            Kind::Client => b'C',
        }
    }

    // Does a line of this kind agree? `V`, text, answer; `T` and `P`, filter, text, answer; `J` and `L`, answer, JSON line; `R`, number of
    // document 01 or 0, rule line; `Q`, question, word and digit of the answer, earlier code, client id, name, password, address, protocol,
    // topic, QoS or disconnect flag, rules; `C`, answer, and a question that `clients` asks.
    #[tactic(auto, unfolding(crate::specs::Judging::agrees))]
    fn agrees(self, line: &[u8]) -> Option<bool>
        ensures { result ≡ spec.agrees line.now self }
    {
        match self {
            Kind::Valid => compared(valid_filter(field(line, 1)), rest(line, 2)),
            Kind::Tree => compared(tree_match(field(line, 1), field(line, 2)), rest(line, 3)),
            Kind::Plain => compared(plain_match(field(line, 1), field(line, 2)), rest(line, 3)),
            Kind::Document => compared(is_document(rest(line, 2)), field(line, 1)),
            Kind::Within => compared(is_document_within(rest(line, 2), LIMIT), field(line, 1)),
            Kind::RuleLine => Some(is_digit(
                u32::from(mqtt_acl_rule_refusal(rest(line, 2))),
                field(line, 1),
            )),
            Kind::Identity => Some(is_digit(u32::from(identity_answer(line)), field(line, 1))),
            Kind::OnStore => {
                let answer = store_answer(line)?;
                Some(is_answer(answer, field(line, 2), field(line, 3)))
            }
            Kind::Client => Some(is_packed(client_answer(line), field(line, 1))),
        }
    }
}

// What the line comes to; none, where it is malformed.
#[tactic(auto, unfolding(crate::specs::Judging::judge, crate::specs::Judging::judge_as))]
pub fn judge(line: &[u8]) -> Option<Judged>
    ensures { result ≡ spec.judge line.now }
{
    let kind = kind_of(field(line, 0))?;
    let agrees = kind.agrees(line)?;
    Some(Judged { kind, agrees })
}
