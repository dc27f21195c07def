// How many lines of each kind there were, and how many of them agree. `input` counts each line here, and prints the tallies at
// the end.
ghost use Rattle.std.specs.Prelude.{◌≡◌};
ghost use Rattle.vectors.specs.Tallies as spec;

use crate::judging::{ALL, Judged, KINDS};
use std::fmt;

// The lines of a kind: those that agree, and all. The default is that before the first line. `stores` has a `Tally` too: both are programs, neither
// can use the other's types, and no library below them counts cases.
#[derive(Clone, Copy, Debug, Default, PartialEq, Eq)]
pub struct Tally {
    pub agreed: u64,
    pub asked: u64,
}

// The lines so far: those of a kind at its place in the order in which the kinds are declared.
#[derive(Clone, Copy, Debug, PartialEq, Eq)]
pub struct Tallies {
    pub by_kind: [Tally; KINDS],
}

impl Tally {
    // One more line.
    #[tactic(auto, unfolding(crate::specs::Tallies::more))]
    fn more(self, agrees: bool) -> Tally
        ensures { result ≡ spec.more self agrees }
    {
        Tally {
            agreed: self.agreed.wrapping_add(u64::from(agrees)),
            asked: self.asked.wrapping_add(1),
        }
    }
}

// As `12 of 12`.
impl fmt::Display for Tally {
    fn fmt<W: fmt::Write>(&self, f: &mut fmt::Formatter<W>) -> fmt::Result {
        write!(f, "{} of {}", self.agreed, self.asked)
    }
}

// Before the first line. By hand: a derived one would promise that each tally is its default, and this one promises `no_tallies`.
impl Default for Tallies {
    ghost is_default = { λ tallies. tallies ≡ spec.no_tallies };

    fn default() -> Tallies {
        Tallies {
            by_kind: [Tally::default(); KINDS],
        }
    }
}

impl Tallies {
    // One more line. A malformed one is of no kind.
    #[tactic(auto, unfolding(crate::specs::Tallies::counted))]
    pub fn count(&mut self, judged: Option<Judged>)
        ensures { self.new ≡ spec.counted self.old judged }
    {
        if let Some(Judged { kind, agrees }) = judged {
            let place = kind as usize;
            self.by_kind[place] = self.by_kind[place].more(agrees);
        }
    }

    // Writes the tallies, a line a kind, as `V 12 of 12 agree`.
    pub(crate) fn print(&self, rt: &impl Print) {
        for kind in ALL {
            let letter = char::from(kind.letter());
            let tally = self.by_kind[kind as usize];
            let _ = println!(rt; "{letter} {tally} agree");
        }
    }
}
