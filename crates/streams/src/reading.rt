// The loop of both programs: it reads, and hands on byte by byte.
use crate::writing::Answers;
use lines::input::take_byte;
use lines::{Said, Taken};
use std::io::{Eprint, Read, Write};

// A program, with its buffers.
pub(crate) trait Program<W: Write> {
    // What is known between two bytes, and the output that waits.
    fn answers(&mut self) -> &mut Answers;

    // Where the line that has begun is gathered.
    fn buffer(&mut self) -> &mut [u8];

    // What is said of the line of this length at the front of that buffer.
    fn of_line(&mut self, length: usize) -> Said;

    // What is said of a line that is longer than it.
    fn of_long_line(&self) -> Said;

    // One byte of the input.
    fn take(&mut self, output: &mut W, b: u8);

    // The end of the input, where the last line may lack its LF.
    fn finish(&mut self, output: &mut W);

    // A line is whole. It has this length, `None` where it is too long.
    fn answer(&mut self, output: &mut W, length: Option<usize>) {
        let said = match length {
            Some(n) => self.of_line(n),
            None => self.of_long_line(),
        };
        self.answers().say(output, said);
    }

    // One byte of the lines behind the rules.
    fn take_in_lines(&mut self, output: &mut W, b: u8) {
        let begun = self.answers().run.begun;
        match take_byte(begun, self.buffer(), b) {
            Taken::Part(begun) => self.answers().run.begun = begun,
            Taken::Line(length) => self.answer(output, length),
        }
    }

    // The last line, where it lacks its LF.
    fn end_lines(&mut self, output: &mut W) {
        let begun = self.answers().run.begun;
        if begun != Some(0) {
            self.answer(output, begun);
        }
    }
}

// Reads once, and writes out what came of it; is there more to read? A read that fails ends the input where it stands.
fn read_some<E: Eprint, R: Read, W: Write, P: Program<W>>(
    rt: &E,
    cannot_read: &str,
    program: &mut P,
    input: &mut R,
    output: &mut W,
) -> bool {
    let mut piece = [0; 4096];
    let Ok(n) = input.read(&mut piece) else {
        let _ = rt.eprintln(cannot_read);
        return false;
    };
    if n == 0 {
        program.finish(output);
        program.answers().write(output);
        return false;
    }
    for &b in &piece[..n] {
        program.take(output, b);
    }
    program.answers().write(output);
    program.answers().run.more
}

// Answers every line of the input. A proved loop has to end, and nothing says that the input does: so it has turns that no run uses up.
pub(crate) fn read_all<E: Eprint, R: Read, W: Write, P: Program<W>>(
    rt: &E,
    cannot_read: &str,
    program: &mut P,
    input: &mut R,
    output: &mut W,
) {
    for _ in 0..u64::MAX {
        if !read_some(rt, cannot_read, program, input, output) {
            return;
        }
    }
}
