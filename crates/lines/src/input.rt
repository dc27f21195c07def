// Input in pieces: the bytes of a line, and of the rules, gathered in a buffer. The buffer is lent, and what is known of it goes in and out as a
// value beside it: `decide` gathers its rules and then each line in one buffer.
ghost use Rattle.std.specs.Prelude.{◌≡◌, length};
ghost use Rattle.lines.specs.Input as spec;

use crate::{Rules, RulesTaken, Taken};

// One byte more of the line that has begun, whose length is `None` where it is longer than the buffer.
#[tactic(auto, unfolding(crate::specs::Input::taken, crate::specs::Input::longer, crate::specs::Input::kept, crate::specs::Input::put))]
pub fn take_byte(begun: Option<usize>, buffer: &mut [u8], b: u8) -> Taken
    ensures value { result ≡ spec.taken begun (length buffer.old) b }
    ensures buffer_after { buffer.new ≡ spec.kept begun buffer.old b }
{
    if b == b'\n' {
        return Taken::Line(begun);
    }
    match begun {
        Some(n) if n < buffer.len() => {
            buffer[n] = b;
            Taken::Part(Some(n + 1))
        }
        _ => Taken::Part(None),
    }
}

// One byte more of the rules, which an empty line ends.
#[tactic(auto, unfolding(crate::specs::Input::rules_taken, crate::specs::Input::rules_kept))]
pub fn take_rule_byte(rules: Rules, buffer: &mut [u8], b: u8) -> RulesTaken
    ensures value { result ≡ spec.rules_taken rules (length buffer.old) b }
    ensures buffer_after { buffer.new ≡ spec.rules_kept rules buffer.old b }
{
    let ends = b == b'\n';
    if ends && rules.fresh {
        return RulesTaken::Whole(rules.length);
    }
    if rules.length < buffer.len() {
        buffer[rules.length] = b;
        return RulesTaken::Part(Rules {
            length: rules.length + 1,
            fresh: ends,
        });
    }
    RulesTaken::TooLong
}
