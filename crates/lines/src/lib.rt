// What the programs do with one line of input, on slices: `answer` turns an event line of `decide` into its call and says what came of it,
// `client` answers a question line of `client`, `output` writes what is said as a line, `input` gathers lines from bytes (document 01, Marked
// examples; docs/DECISIONS.md, Programs).
#![tactic(auto)]

pub mod answer;
mod array;
mod asking;
pub mod client;
mod elements;
mod happening;
pub mod input;
pub mod output;

// The words of the output; the last but one is a per-client question's.
#[derive(Clone, Copy, Debug, PartialEq, Eq)]
pub enum Word {
    Done,
    Kept,
    Allow,
    Super,
    Refuse,
    Drop,
    NoDecision,
    Error,
}

// What is said of a line: a word, with the deciding rule's number or an error's, and the line of a text that the error is of.
#[derive(Clone, Copy, Debug, PartialEq, Eq)]
pub struct Said {
    pub word: Word,
    pub number: u64,
    pub line: Option<u64>,
}

// The forms of a line, by its word.
#[derive(Clone, Copy, Debug, PartialEq, Eq)]
pub enum Form {
    Connect,
    Subscribe,
    Publish,
    Connected,
    Disconnected,
    Ended,
}

// Who asks: the earlier answer's code, and the lengths of his texts in their buffers. Lengths, not slices: a text is lent when all are read.
#[derive(Clone, Copy, Debug, PartialEq, Eq)]
pub struct Asker {
    pub earlier: u64,
    pub id: usize,
    pub name: Option<usize>,
    pub password: Option<usize>,
    pub address: Option<usize>,
    pub protocol: Option<u8>,
}

// One byte later: the line goes on, or it is whole. A line is given by its length, `None` where it is longer than the buffer.
#[derive(Clone, Copy, Debug, PartialEq, Eq)]
pub enum Taken {
    Part(Option<usize>),
    Line(Option<usize>),
}

// Rules that have begun: how many of their bytes are in the buffer, and whether a line begins behind them.
#[derive(Clone, Copy, Debug, PartialEq, Eq)]
pub struct Rules {
    pub length: usize,
    pub fresh: bool,
}

// One byte later: the rules go on, or an empty line ends them, or they are longer than the buffer. Three outcomes, none of which is a failure:
// `client` reads on behind rules that are too long.
#[derive(Clone, Copy, Debug, PartialEq, Eq)]
pub enum RulesTaken {
    Part(Rules),
    Whole(usize),
    TooLong,
}

// The client of a first line: the superuser flag, and the lengths of the texts in their buffers.
#[derive(Clone, Copy, Debug, PartialEq, Eq)]
pub struct Header {
    pub superuser: bool,
    pub id: usize,
    pub name: Option<usize>,
}
