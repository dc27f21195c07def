// One line of JSON, read without a copy: what stands where in the line (document 01, JSON line; RFC 8259). Callers check a line
// once and then go by places in it; a place is an offset, and every function answers for every place. The line and the place stay two
// parameters: a caller has many places in one line, and would join them at each call. Loops over items and over a string's pieces are no
// iterators: each begins where the one before was read to, and one that can't be read ends all with nothing, which no item of an
// iterator says as plainly.
#![tactic(auto)]

pub mod access;
pub mod splitting;
pub mod strings;
pub mod utf8;
pub mod values;

// What one byte says of the value that it begins.
#[derive(Clone, Copy, Debug, PartialEq, Eq)]
pub enum Kind {
    Number,
    Text,
    Array,
    Object,
    Word,
    Blank,
    Other,
}

// What a string has at a place: its closing quote; a character as it stands, of so many bytes; or an escaped character, written in so
// many bytes.
#[derive(Clone, Copy, Debug, PartialEq, Eq)]
pub enum Piece {
    Closes,
    Raw(usize),
    Escaped(char, usize),
}

#[derive(Clone, Copy, Debug, PartialEq, Eq)]
pub enum Literal {
    Null,
    True,
    False,
}

// The reader's state: the next place, and the length of the longest decoded string so far.
#[derive(Clone, Copy, Debug, PartialEq, Eq)]
pub struct Cursor {
    pub at: usize,
    pub longest: usize,
}

// What comes behind an item: the closing bracket and the place behind it, a comma and the place of the next item, or neither.
#[derive(Clone, Copy, Debug, PartialEq, Eq)]
pub enum Separator {
    Close(usize),
    Comma(usize),
}

// What was read, and the place behind it.
#[derive(Clone, Copy, Debug, PartialEq, Eq)]
pub struct Read<T> {
    pub value: T,
    pub next: usize,
}

// Why a string is not decoded: its text is longer than the buffer, or no string stands there.
#[derive(Clone, Copy, Debug, PartialEq, Eq)]
pub enum DecodeError {
    TooLong,
    NoText,
}
