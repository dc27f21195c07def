// A line of output, as `4 allow 1` or `0 error 5 3`.
ghost use Rattle.std.specs.Prelude.{◌≡◌, [], ◌++◌, ◌+◌, ◌≤◌, length};
ghost use Rattle.text.specs.Text as txt;
ghost use Rattle.rule.specs.Refusals.{number};
ghost use Rattle.lines.specs.Said as said_spec;
ghost use Rattle.lines.specs.declared.Word.«TheVariants».{Error};
ghost use Rattle.lines.specs.Output as spec;

use crate::{Said, Word};
use rule::{Refusal, refusal_number};
use std::marker::Model;

// Three numbers of 20 digits, a word of 6 letters, three blanks and LF take 70 bytes.
const LONGEST: usize = 80;

// A word with the deciding rule's number, or an error's.
#[tactic(auto, unfolding(crate::specs::Said::says))]
pub fn says(word: Word, number: u64) -> Said
    ensures { result ≡ said_spec.says word number }
{
    Said {
        word,
        number,
        line: None,
    }
}

// "A malformed event line .. is error 5."
#[tactic(auto, unfolding(crate::specs::Said::malformed))]
pub fn malformed() -> Said
    ensures { result ≡ said_spec.malformed }
{
    says(Word::Error, 5)
}

// "After error the number."
pub fn refused(cause: Refusal) -> Said
    ensures { result ≡ said_spec.says Error (number cause) }
{
    says(Word::Error, refusal_number(cause) as u64)
}

// "The number and the line, 0 if none."
#[tactic(auto, unfolding(crate::specs::Said::refused_at))]
pub fn refused_at(cause: Refusal, line: usize) -> Said
    ensures { result ≡ said_spec.refused_at (number cause) line }
{
    Said {
        word: Word::Error,
        number: refusal_number(cause) as u64,
        line: Some(line as u64),
    }
}

#[tactic(auto, unfolding(crate::specs::Output::word_text))]
fn word_text(word: Word) -> &'static [u8]
    ensures text { result.now ≡ spec.word_text word }
    ensures len { length result.now ≤ 6 }
{
    match word {
        Word::Done => b"done",
        Word::Kept => b"kept",
        Word::Allow => b"allow",
        Word::Super => b"super",
        Word::Refuse => b"refuse",
        Word::Drop => b"drop",
        Word::NoDecision => b"none",
        Word::Error => b"error",
    }
}

// A line of output, as far as it is written. Its bytes are promised, which std's `Write` doesn't do for what it writes.
#[derive(Drop)]
struct Line {
    bytes: [u8; LONGEST],
    length: usize,
}

impl Model for Line {
    ghost use Rattle.std.specs.Prelude.{ℕ, List, take, ◌≤◌};

    ghost Value = { List ℕ };

    ghost view = { λ line. take line.length line.bytes };

    ghost invariant = { λ line. line.length ≤ 80 };
}

impl Line {
    fn new() -> Self
        ensures text { result ≡ [] }
        ensures len { length result ≡ 0 }
    {
        Line {
            bytes: [0; LONGEST],
            length: 0,
        }
    }

    fn text(&self) -> &[u8]
        ensures { result.now ≡ self.now }
    {
        &self.bytes[..self.length]
    }

    fn push(&mut self, piece: &[u8])
        requires { length self.old + length piece.now ≤ 80 }
        ensures text { self.new ≡ self.old ++ piece.now }
        ensures len { length self.new ≡ length self.old + length piece.now }
    {
        text::paste(piece, &mut self.bytes, self.length);
        self.length += piece.len();
    }

    // The number in decimal.
    fn push_decimal(&mut self, n: u64)
        requires { length self.old + 20 ≤ 80 }
        ensures text { self.new ≡ self.old ++ spec.decimal n }
        ensures len { length self.new ≤ length self.old + 20 }
    {
        let mut digits = [0; 20];
        let start = itoa::write_digits(n, &mut digits, 20);
        self.push(&digits[start..]);
    }

    // The line that an error is of, where it has one.
    #[tactic(auto, unfolding(crate::specs::Output::line_text))]
    fn push_line(&mut self, of: Option<u64>)
        requires { length self.old + 21 ≤ 80 }
        ensures text { self.new ≡ self.old ++ spec.line_text of }
        ensures len { length self.new ≤ length self.old + 21 }
    {
        if let Some(n) = of {
            self.push(b" ");
            self.push_decimal(n);
        }
    }
}

// The line of output for the line of input with this number.
fn compose(n: u64, said: Said) -> Line
    ensures { result ≡ spec.output_line n said }
{
    let mut line = Line::new();
    line.push_decimal(n);
    line.push(b" ");
    line.push(word_text(said.word));
    line.push(b" ");
    line.push_decimal(said.number);
    line.push_line(said.line);
    line.push(b"\n");
    line
}

// Puts the line of output for the line of input with this number into the buffer from `at` on. Without room for it the buffer is unchanged.
#[tactic(auto, unfolding(crate::specs::Output::put_at))]
pub fn put_line(n: u64, said: Said, buffer: &mut [u8], at: usize) -> Option<usize>
    ensures value { result ≡ spec.put_at at (spec.output_line n said) buffer.old }
    ensures buffer_after { buffer.new ≡ txt.pasted at (spec.output_line n said) buffer.old }
{
    let line = compose(n, said);
    let text = line.text();
    text::paste(text, buffer, at).then(|| at + text.len())
}
