// The list of events, what each does to a store, and its text. Nothing is printed here: crate::telling does that afterwards.
ghost use Rattle.std.specs.Prelude.{◌≡◌};
ghost use Rattle.store.specs.View.{view};
ghost use Rattle.events.specs.Event as event;
ghost use Rattle.acl.specs.Demand3 as demand;
ghost use Rattle.reorder.specs.Listing as spec;

use crate::Store;
use rule::Refusal;
use std::fmt;

// A byte more than document 01 allows for a client id.
pub const LONG: &str = "xxxxxxxxxxxxxxxxxxxxxxxxxxxxxxxxxxxxxxxxxxxxxxxxxxxxxxxxxxxxxxxxx";

// A session; the client's id; and his user name, if he has one.
#[derive(Clone, Copy, Debug)]
pub enum Event<'a> {
    Connected(u64, &'a str, Option<&'a str>),
    Disconnected(u64, &'a str),
    Ended(u64),
}

// The event of a number.
#[tactic(auto, unfolding(crate::specs::Listing::listed, crate::specs::Listing::meant, crate::specs::Listing::long))]
pub fn listed(n: u8) -> Event<'static>
    ensures { spec.meant result ≡ spec.listed n }
{
    match n {
        1 => Event::Connected(1, "g1", Some("ann")),
        2 => Event::Connected(2, "g2", Some("bo")),
        3 => Event::Connected(256, "g1", Some("ann")),
        4 => Event::Connected(3, "g3", None),
        5 => Event::Connected(4, LONG, Some("bo")),
        6 => Event::Connected(4, "g4", Some("bo")),
        7 => Event::Connected(5, "g5", Some("cy")),
        8 => Event::Disconnected(1, "g1"),
        9 => Event::Ended(2),
        10 => Event::Disconnected(2, "g2"),
        11 => Event::Connected(1, "g1", Some("bo")),
        12 => Event::Ended(256),
        13 => Event::Disconnected(4, "g4"),
        14 => Event::Disconnected(3, LONG),
        _ => Event::Ended(4),
    }
}

impl<'a> Event<'a> {
    ghost use Rattle.std.specs.Option.{option_copied};
    ghost use Rattle.store.specs.View.{view};
    ghost use Rattle.events.specs.Event as event;
    ghost use Rattle.acl.specs.Demand3 as demand;
    ghost use Rattle.reorder.specs.Listing as spec;
    ghost use Rattle.reorder.specs.Running as running;

    // Hands the event to a store.
    #[tactic(auto, unfolding(crate::specs::Listing::meant))]
    pub fn apply(&self, store: &mut Store) -> Result<(), Refusal>
        ensures value { event.says result ≡ event.cause (spec.meant self.now) (view store.old) }
        ensures store_after { store.new ≡ event.after (spec.meant self.now) store.old }
    {
        match *self {
            Event::Connected(session, id, name) => {
                acl::connected(
                    store,
                    session,
                    id.as_bytes(),
                    name.map(|name| name.as_bytes()),
                )
            }
            Event::Disconnected(session, id) => acl::disconnected(store, session, id.as_bytes()),
            Event::Ended(session) => acl::ended(store, session),
        }
    }

    // The event's session.
    #[tactic(auto, unfolding(acl::specs::Demand3::session, crate::specs::Listing::meant))]
    fn session(&self) -> u64
        ensures { result ≡ demand.session (spec.meant self.now) }
    {
        match *self {
            Event::Connected(session, _, _)
            | Event::Disconnected(session, _)
            | Event::Ended(session) => session,
        }
    }

    // The client's id, if the event has one.
    #[tactic(auto, unfolding(acl::specs::Demand3::client, crate::specs::Listing::meant))]
    fn client(&self) -> Option<&'a str>
        ensures { option_copied result ≡ demand.client (spec.meant self.now) }
    {
        match *self {
            Event::Connected(_, id, _) | Event::Disconnected(_, id) => Some(id),
            Event::Ended(_) => None,
        }
    }

    // Do the two events share a client id or a session number?
    #[tactic(auto, unfolding(acl::specs::Demand3::shares, acl::specs::Demand3::same_client), using(text::proofs::Laws::same_pointwise, crate::proofs::Shares::listed_shares))]
    pub fn shares(&self, other: &Event) -> bool
        ensures value { result ≡ demand.shares (spec.meant self.now) (spec.meant other.now) }
        ensures by_parts { result ≡ running.share self.now other.now }
    {
        self.session() == other.session()
            || match (self.client(), other.client()) {
                (Some(id), Some(other)) => id == other,
                _ => false,
            }
    }
}

impl fmt::Display for Event<'_> {
    // What happened, the session, the id and the name.
    fn fmt<W: fmt::Write>(&self, f: &mut fmt::Formatter<W>) -> fmt::Result {
        match self {
            Event::Connected(session, id, Some(name)) => write!(
                f,
                "connected {session} {id} {name}"
            ),
            Event::Connected(session, id, None) => write!(f, "connected {session} {id}"),
            Event::Disconnected(session, id) => write!(f, "disconnected {session} {id}"),
            Event::Ended(session) => write!(f, "ended {session}"),
        }
    }
}
