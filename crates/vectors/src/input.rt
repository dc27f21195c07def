// The lines of standard input. Bytes come in pieces, and a buffer of 4,096 bytes carries the line that has begun from piece to piece.
// A longer line is malformed. `main` calls `replay`.
ghost use Rattle.std.specs.Prelude.{◌≤◌, ◌≡◌, false};

use crate::judging::{Judged, judge};
use crate::tallies::Tallies;
use std::io::Read;

const BUFFER: usize = 4096;

// What is known between two bytes of the input. An array, not a `Vec`: memory stays fixed, however long a line is.
#[derive(Drop)]
struct Run {
    buffer: [u8; BUFFER],
    // How many bytes of the line that has begun are in the buffer.
    length: usize,
    // Is that line longer than the buffer? Then its beginning is written out already, as malformed.
    long: bool,
    tallies: Tallies,
    ghost within: { length ≤ 4096 },
}

// Writes bytes as they are. What cannot be written is lost; the run goes on.
fn say(rt: &impl Print, bytes: &[u8]) {
    let _ = rt.write_all(bytes);
}

// Writes a line, or the last of one.
fn write_line(rt: &impl Print, line: &[u8]) {
    say(rt, line);
    say(rt, b"\n");
}

// What stands before a malformed line.
fn write_malformed(rt: &impl Print) {
    say(rt, b"malformed: ");
}

// Writes a line that doesn't agree, in full.
fn report(rt: &impl Print, judged: Option<Judged>, line: &[u8]) {
    match judged {
        Some(Judged { agrees: true, .. }) => return,
        Some(_) => {}
        None => write_malformed(rt),
    }
    write_line(rt, line);
}

impl Run {
    // Before the first byte.
    fn new() -> Run {
        Run {
            buffer: [0; BUFFER],
            length: 0,
            long: false,
            tallies: Tallies::default(),
        }
    }

    // The end of a line. Behind it no line has begun.
    fn end_line(&mut self, rt: &impl Print)
        ensures { (self.new.length ≡ 0) × (self.new.long ≡ false) }
    {
        let line = &self.buffer[..self.length];
        if self.long {
            write_line(rt, line);
        } else {
            let judged = judge(line);
            report(rt, judged, line);
            self.tallies.count(judged);
        }
        self.length = 0; // The next line begins at the buffer's front.
        self.long = false;
    }

    // One byte of the input.
    fn take(&mut self, rt: &impl Print, b: u8) {
        if b == b'\n' {
            return self.end_line(rt);
        }
        if self.length == BUFFER {
            if !self.long {
                write_malformed(rt);
            }
            say(rt, &self.buffer);
            self.length = 0;
            self.long = true;
        }
        self.buffer[self.length] = b;
        self.length += 1;
    }

    // Reads once. Is there more to read? An error ends the input, where the line that has begun stays.
    fn read(&mut self, rt: &impl Print, input: &mut impl Read) -> bool
        ensures { result ≡ false → self.new.length ≡ self.old.length }
    {
        let mut piece = [0; 4096];
        let Ok(n) = input.read(&mut piece) else {
            say(rt, b"cannot read\n");
            return false;
        };
        if n == 0 {
            return false;
        }
        for &b in &piece[..n] {
            self.take(rt, b);
        }
        true
    }

    // The end of the input, where the last line may lack its LF.
    fn finish(&mut self, rt: &impl Print) {
        if self.length > 0 || self.long {
            self.end_line(rt);
        }
        self.tallies.print(rt);
    }
}

// Judges every line of standard input, and prints the tallies. A proved loop has to end, and nothing says that the input does: so it has
// turns that no run uses up. A loop of its own: that of `streams` ends at a failed read without more, and this one prints the tallies then.
pub(crate) fn replay(rt: &impl Print, input: &mut impl Read) {
    let mut run = Run::new();
    for _ in 0..u64::MAX {
        if !run.read(rt, input) {
            break;
        }
    }
    run.finish(rt);
}
