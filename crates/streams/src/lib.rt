// The programs on a reader and a writer: bytes to lines, a line to its answer, answers to buffered output. Nothing is decided here; `lines` does.
#![tactic(auto)]

pub mod clients;
pub mod deciding;
mod reading;
mod writing;

use lines::Rules;

// What is known between two bytes of the input: the first line, where the program has one, the rules and the line that has begun, the number of
// the last line that was answered, and how many bytes of output wait in their buffer. A program holds it beside its buffers, and how far
// they are filled stands here, since memory is fixed: `decide` gathers the rules and then each line in one buffer, where a struct for each buffer
// with its length would take two. `Answers` owns the output's buffer with this.
#[derive(Clone, Copy, Debug, PartialEq, Eq)]
pub struct Run {
    // How long is the first line, once it is whole?
    pub header: Option<usize>,
    // Are the rules whole, and not refused?
    pub opened: bool,
    pub rules: Rules,
    // How long is the line that has begun, if it isn't longer than its buffer?
    pub begun: Option<usize>,
    pub number: u64,
    pub waiting: usize,
    // May there be more input?
    pub more: bool,
}
