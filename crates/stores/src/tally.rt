// How many cases there were, and how many came out as they have to.
ghost use Rattle.std.specs.Prelude.{◌≡◌};
ghost use Rattle.stores.specs.Tally as spec;

use std::fmt;

// The default is that before the first case. `vectors` has a `Tally` too: both are programs, neither can use the other's types, and no library below
// them counts cases.
#[derive(Clone, Copy, Debug, Default, PartialEq, Eq)]
pub struct Tally {
    pub right: u64,
    pub all: u64,
}

impl Tally {
    // One more case.
    pub fn count(&mut self, right: bool)
        ensures { self.new ≡ spec.counted self.old right }
    {
        self.all = self.all.wrapping_add(1);
        if right {
            self.right = self.right.wrapping_add(1);
        }
    }
}

// As `40 of 40`.
impl fmt::Display for Tally {
    fn fmt<W: fmt::Write>(&self, f: &mut fmt::Formatter<W>) -> fmt::Result {
        write!(f, "{} of {}", self.right, self.all)
    }
}
