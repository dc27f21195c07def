// Runs of the events in an order, and what two of them have in common.
ghost use Rattle.std.specs.Prelude.{◌≡◌, find, drop, ◌==◌};
ghost use Rattle.std.specs.List.{list_all};
ghost use Rattle.std.specs.Option.{option_copied};
ghost use Rattle.acl.specs.Demand3 as demand;
ghost use Rattle.reorder.specs.declared.running.Answered.{Answered};
ghost use Rattle.reorder.specs.Running as spec;

use crate::Store;
use crate::listing::listed;
use rule::Refusal;

// So many events are listed.
pub const EVENTS: usize = 15;

// The numbers of the events, in the order in which they come.
pub type Order = [u8; EVENTS];

// May the event `later` come behind `n`? Not `n` again, and none that is listed before it and shares a client id or a session number with it.
#[tactic(auto, unfolding(crate::specs::Running::may_follow))]
fn may_follow(n: u8, later: u8) -> bool
    ensures { result ≡ spec.may_follow n later }
{
    later > n || (later < n && !listed(n).shares(&listed(later)))
}

// May all the events from this place on come behind `n`?
fn leads(n: u8, order: &[u8], at: usize) -> bool
    ensures { result ≡ list_all (spec.may_follow n) (drop at order.now) }
{
    order.iter().skip(at).all(|&later| may_follow(n, later))
}

// The same, and is `n` the number of an event?
fn fits(n: u8, order: &[u8], at: usize) -> bool
    ensures { result ≡ spec.fits n (drop at order.now) }
{
    (1..=EVENTS).contains(&(n as usize)) && leads(n, order, at)
}

// Is it an order of events, none twice, in which those that share a client id or a session number keep their order?
pub fn keeps(order: &[u8]) -> bool
    ensures { result ≡ spec.keeps order.now }
{
    order
        .iter()
        .enumerate()
        .all(|(i, &n)| fits(n, order, i + 1))
}

// The number of an event, and what a store answered to it.
#[derive(Clone, Copy, Debug, PartialEq, Eq)]
pub struct Answered {
    pub number: u8,
    pub answer: Result<(), Refusal>,
}

// Hands the events of this order to the store, each getting it as the one before left it.
#[tactic(auto, using(crate::proofs::Runs::running_end, crate::proofs::Runs::outcomes_run, crate::proofs::Runs::records_run))]
pub fn run(store: &mut Store, order: &Order) -> [Answered; EVENTS]
    ensures numbers { spec.numbers result ≡ order.now }
    ensures answers { spec.told result ≡ spec.causes (spec.events_of order.now) store.old }
    ensures records { spec.records result ≡ spec.records_of (spec.events_of order.now) store.old }
    ensures outcomes { spec.outcomes_of result ≡ demand.outcomes (spec.events_of order.now) store.old }
    ensures store_after { store.new ≡ demand.run (spec.events_of order.now) store.old }
{
    let mut run = order.map(|number| Answered {
        number,
        answer: Ok(()),
    });
    for event in run.iter_mut() {
        event.answer = listed(event.number).apply(store);
    }
    run
}

// The event of a number in a run, if it is there.
fn found(number: u8, run: &[Answered]) -> Option<&Answered>
    ensures { option_copied result ≡ find (λ (a : Answered). a.number == number) run.now }
{
    run.iter().find(|event| event.number == number)
}

// What was answered to the event of a number; done where there is none.
fn answer_to(number: u8, run: &[Answered]) -> Result<(), Refusal>
    ensures { result ≡ spec.answer_to number run.now }
{
    found(number, run).map_or(Ok(()), |event| event.answer)
}

// Of two runs of the same events: is each event refused in the one exactly if it is in the other?
pub fn same_refused(run: &[Answered], other: &[Answered]) -> bool
    ensures { result ≡ spec.same_refused run.now other.now }
{
    run.iter().all(|event| event.answer.is_ok() == answer_to(event.number, other).is_ok())
}
