// Runs a list of events and a reordering of it on two equal stores, and compares the stores and their answers afterwards (demand 3;
// document 01, Events): first on stores as they were opened, then on stores that hold rows. The runs are `run` of the theorem
// (crates/acl/specs/Demand3.antt) by contract. What it writes is compared with the file `stdout`: the recorded answers of the events, the
// used rows, all other bytes, and each answer to connect, publish and subscribe, side by side.
// What cannot be written is lost; the run goes on.
#![tactic(auto)]

mod asking;
mod comparing;
mod listing;
mod running;
mod saying;
mod telling;

use acl::open;
use running::{Answered, EVENTS, Order};
use saying::whether;

// R 256; F, E, N 8.
const LENGTH: usize = 7040;

// A store of these counts.
type Store = [u8; LENGTH];

// Two filters and an eq, filled for each client; every other topic is refused. Who is called bo connects as a superuser, and g1 may connect.
const RULES: &str = r#"["allow","all","pubsub",["bench/%c/#","room/%u/%c",{"eq":"eq/%u"}]]
["deny","all","pubsub"]
["allow",{"user":"bo","superuser":true},"connect"]
["allow",{"clientid":"g1"},"connect"]
"#;

const LISTED: Order = [1, 2, 3, 4, 5, 6, 7, 8, 9, 10, 11, 12, 13, 14, 15];

const REORDERED: Order = [4, 2, 5, 6, 1, 3, 7, 14, 9, 12, 10, 13, 15, 8, 11];

// Run before both orders, so that rows are there: those of 7 and 1 stay. With them 7 is done, and 6 is refused.
const EARLIER: Order = [6, 13, 15, 2, 10, 9, 7, 1, 8, 1, 7, 3, 5, 12, 14];

// Opens a store for the rules. Says so where it is refused.
fn opened(rt: &impl Print, store: &mut Store) {
    if open(store, 256, 8, 8, 8, RULES.as_bytes()).is_err() {
        let _ = println!(rt; "the rules are refused");
    }
}

// Runs the events of an order, and writes what was answered.
fn ran(rt: &impl Print, store: &mut Store, order: &Order) -> [Answered; EVENTS] {
    let run = running::run(store, order);
    telling::tell(rt, &run);
    run
}

// Runs both orders. Is the second one of those that demand 3 means, and are the same events refused?
fn both(rt: &impl Print, first: &mut Store, second: &mut Store) -> bool {
    let _ = println!(rt; "The events in their order");
    let run = ran(rt, first, &LISTED);
    let _ = println!(rt; "The events in another order");
    let other = ran(rt, second, &REORDERED);
    let kept = running::keeps(&REORDERED);
    whether(
        rt,
        kept,
        "a reordering, in which events that share a client id or a session number keep their order",
    );
    let refused = running::same_refused(&run, &other);
    whether(rt, refused, "the same events are refused");
    kept & refused
}

// Opens both stores and, where earlier events are given, runs them on both.
fn prepared(rt: &impl Print, first: &mut Store, second: &mut Store, earlier: Option<&Order>) {
    opened(rt, first);
    opened(rt, second);
    if let Some(order) = earlier {
        let _ = println!(rt; "The stores hold rows already, of these events");
        ran(rt, first, order);
        running::run(second, order);
    }
}

// Do two stores of the rules agree after the two orders, whatever they held before they were opened?
fn round(rt: &impl Print, earlier: Option<&Order>) -> bool {
    let mut first = [0; LENGTH];
    let mut second = [255; LENGTH];
    prepared(rt, &mut first, &mut second, earlier);
    let equal = first == second;
    whether(rt, equal, "the stores are equal before the first event");
    let meant = both(rt, &mut first, &mut second);
    let alike = comparing::alike(rt, &first, &second);
    let answered = asking::ask_all(rt, [&first, &second]);
    equal & meant & alike & answered
}

fn main(rt: HostRuntime) {
    let _ = print!(rt; "{RULES}");
    let opened = round(&rt, None);
    let filled = round(&rt, Some(&EARLIER));
    let verdict = if opened & filled { "agree" } else { "differ" };
    let _ = println!(rt; "the stores {verdict}");
}
