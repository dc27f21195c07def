// Questions: connect, subscribe and publish on a store (document 01, Plugin decisions). `decision` decides on a rule text and used rows that
// are lent as parts of their own; the three questions check their arguments and the store first.
#![tactic(auto)]

pub mod ask;
pub mod decision;

// What is asked.
#[derive(Clone, Copy, Debug, PartialEq, Eq)]
pub enum Asked {
    Connect,
    Subscribe,
    Publish,
}

// A topic that is passed: it agrees by itself, or this is the next one. The variants' names say more here than `ControlFlow`'s, and no `?` passes
// one on.
#[derive(Clone, Copy, Debug, PartialEq, Eq)]
pub enum TopicPassed {
    Agrees,
    Onward(Option<usize>),
}

// The earlier answer is kept; allowed by a rule, with the superuser flag; refused by a rule (0 none).
#[derive(Clone, Copy, Debug, PartialEq, Eq)]
pub enum ConnectAnswer {
    Kept(u64),
    Allow(usize, bool),
    Refuse(usize),
}

// Allowed with the asked QoS.
#[derive(Clone, Copy, Debug, PartialEq, Eq)]
pub enum SubscribeAnswer {
    Kept(u64),
    Allow(usize, u64),
    Refuse(usize),
}

// Refused with the caller's disconnect flag.
#[derive(Clone, Copy, Debug, PartialEq, Eq)]
pub enum PublishAnswer {
    Kept(u64),
    Allow(usize),
    Refuse(usize, bool),
}

// A rule's line before its topics, where it agrees: its access, the superuser flag, and the place of the topics that are left to agree.
#[derive(Clone, Copy, Debug, PartialEq, Eq)]
pub struct Head {
    pub allow: bool,
    pub superuser: bool,
    pub topics: Option<usize>,
}

// The first rule that agrees: its number from 1, its access and the superuser flag.
#[derive(Clone, Copy, Debug, PartialEq, Eq)]
pub struct Deciding {
    pub rule: usize,
    pub allow: bool,
    pub superuser: bool,
}
