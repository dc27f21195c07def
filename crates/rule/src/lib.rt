// Plugin rules, read from lines of JSON, and whom they mean (document 01, Plugin rule and Identity; config.rs).
#![tactic(auto)]

pub mod agreement;
pub mod ahead;
pub mod fill;
pub mod listed;
pub mod one_pass;
pub mod read;
pub mod topic_list;
pub mod words;

ghost use Rattle.std.specs.Prelude.{◌≡◌};
ghost use Rattle.rule.specs.Refusals.{number};

// The limits of document 01: bytes of a line, of a decoded string and of a client id, topics of a rule, lines of a text.
pub const LINE: usize = 2048;

pub const TEXT: usize = 256;

pub const ID: usize = 64;

pub const TOPICS: u64 = 64;

pub const LINES: usize = 256;

// Why a call is refused.
#[derive(Clone, Copy, Debug, PartialEq, Eq)]
pub enum Refusal {
    TooLong,
    OutOfRange,
    Malformed,
    Counts,
    NotJson,
    NotARule,
    FilledTooLong,
    FiltersFull,
    EqsFull,
    NotesFull,
}

// The number of document 01 for a refusal, as `number` of specs/Refusals.antt lists them.
#[tactic(auto, unfolding(crate::specs::Refusals::number))]
pub fn refusal_number(cause: Refusal) -> u8
    ensures { result ≡ number cause }
{
    match cause {
        Refusal::TooLong => 1,
        Refusal::OutOfRange => 2,
        Refusal::Malformed => 3,
        Refusal::Counts => 4,
        Refusal::NotJson => 5,
        Refusal::NotARule => 6,
        Refusal::FilledTooLong => 7,
        Refusal::FiltersFull => 8,
        Refusal::EqsFull => 9,
        Refusal::NotesFull => 10,
    }
}

#[derive(Clone, Copy, Debug, PartialEq, Eq)]
pub enum Control {
    All,
    Connect,
    Publish,
    Subscribe,
    Pubsub,
}

// The words of a rule, in any case of their ASCII letters.
#[derive(Clone, Copy, Debug, PartialEq, Eq)]
pub enum Word {
    Allow,
    Deny,
    All,
    Connect,
    Publish,
    Subscribe,
    Pubsub,
}

// The listed users, by the places of their strings in the line.
#[derive(Clone, Copy, Debug, PartialEq, Eq)]
pub struct Users {
    pub user: Option<User>,
    pub clientid: Option<usize>,
    pub ipaddr: Option<usize>,
    pub protocol: Option<u8>,
}

// Where a rule lists nobody, everyone is meant.
pub const EVERYONE: Users = Users {
    user: None,
    clientid: None,
    ipaddr: None,
    protocol: None,
};

// The values of an object's members that say something of users, by their places.
#[derive(Clone, Copy, Debug, Default, PartialEq, Eq)]
pub struct MemberPlaces {
    pub user: Option<usize>,
    pub password: Option<usize>,
    pub superuser: Option<usize>,
    pub clientid: Option<usize>,
    pub ipaddr: Option<usize>,
    pub protocol: Option<usize>,
}

// A topic of a rule, by the place of its string in the line.
#[derive(Clone, Copy, Debug, PartialEq, Eq)]
pub enum Topic {
    Filter(usize),
    Template(usize),
    Eq(usize),
    EqTemplate(usize),
}

// A rule, by places in its line.
#[derive(Clone, Copy, Debug, PartialEq, Eq)]
pub struct Rule {
    pub allow: bool,
    pub users: Users,
    pub control: Control,
    pub topics: Option<usize>,
}

// The first four elements of a line's array.
#[derive(Clone, Copy, Debug, PartialEq, Eq)]
pub struct Parts {
    pub access: Option<usize>,
    pub users: Option<usize>,
    pub control: Option<usize>,
    pub topics: Option<usize>,
}

// The name that a rule asks for, by the places of its strings in the line, and the flag.
#[derive(Clone, Copy, Debug, PartialEq, Eq)]
pub struct User {
    pub name: usize,
    pub password: Option<usize>,
    pub superuser: bool,
}

// The string of a topic under `eq`, by the places of its quotes, and the place behind the object.
#[derive(Clone, Copy, Debug, PartialEq, Eq)]
pub struct EqText {
    pub opens: usize,
    pub closes: usize,
    pub next: usize,
}

// What stands behind a line's users: the control, and the place of the topics, where there are any.
#[derive(Clone, Copy, Debug, PartialEq, Eq)]
pub struct Rest {
    pub control: Control,
    pub topics: Option<usize>,
}

// The first fault of a rule text, with its line (0 the whole text, 257 too many lines, else from 1).
#[derive(Clone, Copy, Debug, PartialEq, Eq)]
pub struct Fault {
    pub cause: Refusal,
    pub line: usize,
}
