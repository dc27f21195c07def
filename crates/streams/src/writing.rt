// What both programs do between two bytes, and their buffered output.
ghost use Rattle.std.specs.Prelude.{◌≡◌};
ghost use Rattle.streams.specs.Writing as spec;

use crate::Run;
use lines::output::put_line;
use lines::{Rules, Said};
use std::io::Write;
use text::front;

const OUT: usize = 4096;

// No line has begun.
pub fn no_line() -> Option<usize>
    ensures { result ≡ spec.no_line }
{
    Some(0)
}

// Before the first byte. The first line's length is `None` where it is to come.
pub fn start(header: Option<usize>) -> Run
    ensures { result ≡ spec.started header }
{
    Run {
        header,
        opened: false,
        rules: Rules {
            length: 0,
            fresh: true,
        },
        begun: no_line(),
        number: 0,
        waiting: 0,
        more: true,
    }
}

// The output that waits, and what is known between two bytes.
#[derive(Drop)]
pub(crate) struct Answers {
    pub(crate) run: Run,
    out: [u8; OUT],
}

impl Answers {
    // Before the first byte, as `start` says.
    pub(crate) fn new(header: Option<usize>) -> Self {
        Answers {
            run: start(header),
            out: [0; OUT],
        }
    }

    // Writes out what waits. What cannot be written is lost; the run goes on.
    pub(crate) fn write<W: Write>(&mut self, output: &mut W) {
        let _ = output.write_all(front(&self.out, self.run.waiting));
        self.run.waiting = 0;
    }

    // The line of output for the line of input with this number, behind those that wait.
    pub(crate) fn put<W: Write>(&mut self, output: &mut W, number: u64, said: Said) {
        if let Some(end) = put_line(number, said, &mut self.out, self.run.waiting) {
            self.run.waiting = end;
            return;
        }
        self.write(output);
        self.run.waiting = put_line(number, said, &mut self.out, 0).unwrap_or(0);
    }

    // What is said of the next line. Behind it no line has begun.
    pub(crate) fn say<W: Write>(&mut self, output: &mut W, said: Said)
        ensures { self.new.run.begun ≡ spec.no_line }
    {
        let number = self.run.number.wrapping_add(1);
        self.run.number = number;
        self.put(output, number, said);
        self.run.begun = no_line();
    }
}
