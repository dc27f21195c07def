// The program `client`: a first line, rule lines, an empty line, question lines (docs/DECISIONS.md).
ghost use Rattle.std.specs.Prelude.{◌≡◌, Some};
ghost use Rattle.streams.specs.Writing as spec;

use crate::Run;
use crate::reading::{Program, read_all};
use crate::writing::{Answers, no_line};
use lines::client::client_answer;
use lines::input::{take_byte, take_rule_byte};
use lines::output::refused_at;
use lines::{RulesTaken, Said, Taken};
use rule::{LINE, Refusal};
use std::io::{Eprint, Read, Write};
use text::front;

// The rules have at most 32,768 bytes. The first line and the rules have a byte more of room, so that what is too long stays so.
const HEADER: usize = LINE + 1;

const RULES: usize = 32769;

// The first line, the rules, the line that has begun, and the answers.
#[derive(Drop)]
struct Asking {
    header: [u8; HEADER],
    rules: [u8; RULES],
    buffer: [u8; LINE],
    answers: Answers,
}

impl Asking {
    // The first line is whole, and no other has begun.
    fn headed(&mut self, length: usize)
        ensures { (self.new.answers.run.header ≡ Some length) × (self.new.answers.run.begun ≡ spec.no_line) }
    {
        self.answers.run.header = Some(length);
        self.answers.run.begun = no_line();
    }

    // One byte of the first line.
    fn take_in_header(&mut self, b: u8) {
        match take_byte(self.answers.run.begun, &mut self.header, b) {
            Taken::Part(begun) => self.answers.run.begun = begun,
            Taken::Line(n) => self.headed(n.unwrap_or(HEADER)),
        }
    }

    // One byte of the rules. Behind what is too long only an empty line counts. Not one method of `Program`: with `decide` it would share the
    // arm of `Part` alone.
    fn take_in_rules(&mut self, b: u8) {
        match take_rule_byte(self.answers.run.rules, &mut self.rules, b) {
            RulesTaken::Part(rules) => self.answers.run.rules = rules,
            RulesTaken::Whole(_) => self.answers.run.opened = true,
            RulesTaken::TooLong => self.answers.run.rules.fresh = b == b'\n',
        }
    }
}

impl<W: Write> Program<W> for Asking {
    fn answers(&mut self) -> &mut Answers {
        &mut self.answers
    }

    fn buffer(&mut self) -> &mut [u8] {
        &mut self.buffer
    }

    fn of_line(&mut self, length: usize) -> Said {
        let Run { header, rules, .. } = self.answers.run;
        client_answer(
            front(&self.header, header.unwrap_or(0)),
            front(&self.rules, rules.length),
            front(&self.buffer, length),
        )
    }

    // It is no question.
    fn of_long_line(&self) -> Said {
        refused_at(Refusal::NotJson, 0)
    }

    fn take(&mut self, output: &mut W, b: u8) {
        if self.answers.run.header.is_none() {
            self.take_in_header(b);
        } else if !self.answers.run.opened {
            self.take_in_rules(b);
        } else {
            self.take_in_lines(output, b);
        }
    }

    fn finish(&mut self, output: &mut W) {
        if self.answers.run.opened {
            self.end_lines(output);
        }
    }
}

// Answers every question of the input.
pub fn ask_for_client<E: Eprint, R: Read, W: Write>(rt: &E, input: &mut R, output: &mut W) {
    let mut asking = Asking {
        header: [0; HEADER],
        rules: [0; RULES],
        buffer: [0; LINE],
        answers: Answers::new(None),
    };
    read_all(rt, "client: cannot read", &mut asking, input, output);
}
