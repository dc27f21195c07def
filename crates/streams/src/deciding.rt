// The program `decide`: rule lines, an empty line, event lines (document 01, Marked examples).
use crate::reading::{Program, read_all};
use crate::writing::Answers;
use lines::answer::answer;
use lines::input::take_rule_byte;
use lines::output::{malformed, refused_at};
use lines::{RulesTaken, Said};
use rule::{Fault, LINE, Refusal};
use std::io::{Eprint, Read, Write};
use store::opening::open;
use text::front;

// "R 2,048, F 64, E 32, N 64: 47,888 bytes."
const R: u64 = 2048;

const F: u64 = 64;

const E: u64 = 32;

const N: u64 = 64;

const STORE: usize = 47888;

// The store, the rules or the line that has begun, and the answers. The rules have at most 2,048 bytes, as a line does.
#[derive(Drop)]
struct Deciding {
    store: [u8; STORE],
    buffer: [u8; LINE],
    answers: Answers,
}

impl Deciding {
    // The run over, with one line of output: the rules are refused.
    fn refused<W: Write>(&mut self, output: &mut W, fault: Fault) {
        self.answers
            .put(output, 0, refused_at(fault.cause, fault.line));
        self.answers.run.more = false;
    }

    // The rules are whole: the store is opened for them.
    fn open<W: Write>(&mut self, output: &mut W, length: usize) {
        match open(&mut self.store, R, F, E, N, front(&self.buffer, length)) {
            Err(fault) => self.refused(output, fault),
            Ok(()) => self.answers.run.opened = true,
        }
    }

    // One byte of the rules.
    fn take_in_rules<W: Write>(&mut self, output: &mut W, b: u8) {
        match take_rule_byte(self.answers.run.rules, &mut self.buffer, b) {
            RulesTaken::Part(rules) => self.answers.run.rules = rules,
            RulesTaken::Whole(n) => self.open(output, n),
            RulesTaken::TooLong => self.refused(
                output,
                Fault {
                    cause: Refusal::TooLong,
                    line: 0,
                },
            ),
        }
    }
}

impl<W: Write> Program<W> for Deciding {
    fn answers(&mut self) -> &mut Answers {
        &mut self.answers
    }

    fn buffer(&mut self) -> &mut [u8] {
        &mut self.buffer
    }

    fn of_line(&mut self, length: usize) -> Said {
        answer(&mut self.store, front(&self.buffer, length))
    }

    fn of_long_line(&self) -> Said {
        malformed()
    }

    fn take(&mut self, output: &mut W, b: u8) {
        if !self.answers.run.more {
            return;
        }
        if self.answers.run.opened {
            self.take_in_lines(output, b);
        } else {
            self.take_in_rules(output, b);
        }
    }

    fn finish(&mut self, output: &mut W) {
        if !self.answers.run.more {
            return;
        }
        if self.answers.run.opened {
            self.end_lines(output);
        } else {
            self.open(output, self.answers.run.rules.length);
        }
    }
}

// Answers every line of the input. No first line is to come: it counts as whole, with no byte.
pub fn decide<E: Eprint, R: Read, W: Write>(rt: &E, input: &mut R, output: &mut W) {
    let mut deciding = Deciding {
        store: [0; STORE],
        buffer: [0; LINE],
        answers: Answers::new(Some(0)),
    };
    read_all(rt, "decide: cannot read", &mut deciding, input, output);
}
