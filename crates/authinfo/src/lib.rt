// Per-client rules and expiry (document 01, Per-client rules; rmqtt/src/acl.rs): `ask` answers by a text of rules, `reading` reads a line, its
// members by `one_pass` where their names are plain, else by `members`; `words` has its two words, `filling` fills its topic. `times` compares
// times.
#![tactic(auto)]

pub mod ask;
pub mod client;
mod filling;
mod members;
mod one_pass;
mod reading;
pub mod times;
mod words;

ghost use Rattle.std.specs.Prelude.{◌≡◌};

use json_text::values::DEPTH;

// The highest QoS.
const QOS: u64 = 2;

// How many brackets may be open inside a line's object.
const INSIDE: usize = DEPTH - 1;

// Which questions a rule covers.
#[derive(Clone, Copy, Debug, PartialEq, Eq)]
pub enum Action {
    All,
    Publish,
    Subscribe,
}

// What is asked, but for the topic: a subscribe with its QoS, a publish with its QoS and whether it is retained. No `Option`: neither is the
// absence of the other, and both have a QoS.
#[derive(Clone, Copy, Debug, PartialEq, Eq)]
pub enum Asked {
    Subscribe(u64),
    Publish(u64, bool),
}

impl Asked {
    ghost use Rattle.authinfo.specs.Places as spec;

    // The QoS that is asked for.
    #[tactic(auto, unfolding(crate::specs::Places::qos_of_asked, crate::specs::Decision::qos_asked, crate::specs::Places::question_of))]
    fn qos(self) -> u64
        ensures { result ≡ spec.qos_of_asked self }
    {
        match self {
            Asked::Subscribe(qos) | Asked::Publish(qos, _) => qos,
        }
    }
}

// Allowed by a rule, or rule 0 for a superuser, with the asked QoS; refused by a rule; no rule hits; refused by number, with the line.
#[derive(Clone, Copy, Debug, PartialEq, Eq)]
pub enum SubscribeAnswer {
    Allow(usize, u64),
    Refuse(usize),
    NoDecision,
}

// Refused with the caller's disconnect flag.
#[derive(Clone, Copy, Debug, PartialEq, Eq)]
pub enum PublishAnswer {
    Allow(usize),
    Refuse(usize, bool),
    NoDecision,
}

// The values of an object's members that say something of a rule, by their places.
#[derive(Clone, Copy, Debug, PartialEq, Eq)]
pub struct RulePlaces {
    pub permission: Option<usize>,
    pub action: Option<usize>,
    pub qos: Option<usize>,
    pub retain: Option<usize>,
    pub topic: Option<usize>,
}

// What an object's members tell of a rule: two words, three values by their places, and the topic's closing quote if its string is plain.
#[derive(Clone, Copy, Debug, PartialEq, Eq)]
pub struct RuleParts {
    pub permission: Option<bool>,
    pub action: Option<Action>,
    pub qos: Option<usize>,
    pub retain: Option<usize>,
    pub topic: Option<usize>,
    pub quote: Option<usize>,
}

// The first rule that hits, with its number from 1, or 0 for a superuser, and its permission.
#[derive(Clone, Copy, Debug, PartialEq, Eq)]
pub struct Hit {
    pub rule: usize,
    pub allow: bool,
}

// A time, in seconds and nanoseconds.
#[derive(Clone, Copy, Debug, PartialEq, Eq, PartialOrd, Ord)]
pub struct Time {
    pub seconds: u64,
    pub nanoseconds: u64,
}
