// The JSON reader of document 01: it keeps a reference to its line and the next offset. Its methods are thin: each takes it apart
// and calls a function of the slice and the number. `first_kind` and `read_fields` have plain parameters: whoever goes over a line
// calls them.
#![tactic(auto)]

ghost use Rattle.std.specs.Prelude.{◌≡◌};
ghost use Rattle.json_text.specs.Json.{skip_blanks};
ghost use Rattle.json_text.specs.Access.{kind_at};
ghost use Rattle.reader.specs.Reader as spec;

use json_text::Kind;
use json_text::access::{first_element, kind_at, next_item};
use json_text::values::skip_blanks;

#[derive(Clone, Copy, Debug, PartialEq, Eq)]
pub struct Reader<'a> {
    pub line: &'a [u8],
    pub at: usize,
}

// The elements of a line's array, by their places. Named fields, since an array would ask for a bound wherever one is read.
#[derive(Clone, Copy, Debug, PartialEq, Eq)]
pub struct Fields {
    pub first: Option<usize>,
    pub second: Option<usize>,
    pub third: Option<usize>,
    pub fourth: Option<usize>,
    pub fifth: Option<usize>,
    pub sixth: Option<usize>,
    pub seventh: Option<usize>,
    pub eighth: Option<usize>,
    pub ninth: Option<usize>,
}

impl<'a> Reader<'a> {
    // A reader at the value of a line, after the blanks.
    pub fn new(line: &'a [u8]) -> Reader<'a>
        ensures { (result.line ≡ line.entry) × (result.at ≡ skip_blanks line.now 0) }
    {
        Reader {
            line,
            at: skip_blanks(line, 0),
        }
    }

    // The kind of value that comes next.
    pub fn kind(self) -> Kind
        ensures { result ≡ kind_at self.entry.line.now self.entry.at }
    {
        kind_at(self.line, self.at)
    }

    // The reader moved to a place, or to the line's end if there is none.
    #[tactic(auto, unfolding(crate::specs::Reader::offset_of))]
    fn moved(self, to: Option<usize>) -> Reader<'a>
        ensures { (result.line ≡ self.entry.line) × (result.at ≡ spec.offset_of self.entry.line.now to) }
    {
        Reader {
            line: self.line,
            at: to.unwrap_or(self.line.len()),
        }
    }

    // The reader moved into the array that comes next: to its first element, or to the line's end if there is none.
    #[tactic(auto, unfolding(crate::specs::Reader::first_offset))]
    pub fn enter(self) -> Reader<'a>
        ensures { (result.line ≡ self.entry.line) × (result.at ≡ spec.first_offset self.entry.line.now self.entry.at) }
    {
        self.moved(first_element(self.line, self.at))
    }

    // The reader moved over an element and its comma: to the next element, or to the line's end if there is none.
    #[tactic(auto, unfolding(crate::specs::Reader::next_offset))]
    pub fn next(self) -> Reader<'a>
        ensures { (result.line ≡ self.entry.line) × (result.at ≡ spec.next_offset self.entry.line.now self.entry.at) }
    {
        self.moved(next_item(self.line, self.at))
    }

    // The place of what comes next; nowhere at the line's end.
    #[tactic(auto, unfolding(crate::specs::Reader::place_at))]
    pub fn place(self) -> Option<usize>
        ensures { result ≡ spec.place_at self.entry.line.now self.entry.at }
    {
        (self.at < self.line.len()).then_some(self.at)
    }
}

// The kind of value that a line begins with, after its blanks: a reader is made, asked and dropped.
pub fn first_kind(line: &[u8]) -> Kind
    ensures { result ≡ kind_at line.now (skip_blanks line.now 0) }
{
    Reader::new(line).kind()
}

// The first nine elements of a line's array: a reader is made, moved from one to the next, asked at each and dropped.
#[tactic(auto, unfolding(crate::specs::Reader::fields_here, crate::specs::Reader::element_after, crate::specs::Reader::offset_after))]
pub fn read_fields(line: &[u8]) -> Fields
    ensures { result ≡ spec.fields_here line.now }
{
    let mut r = Reader::new(line).enter();
    let first = r.place();
    r = r.next();
    let second = r.place();
    r = r.next();
    let third = r.place();
    r = r.next();
    let fourth = r.place();
    r = r.next();
    let fifth = r.place();
    r = r.next();
    let sixth = r.place();
    r = r.next();
    let seventh = r.place();
    r = r.next();
    let eighth = r.place();
    r = r.next();
    let ninth = r.place();
    Fields {
        first,
        second,
        third,
        fourth,
        fifth,
        sixth,
        seventh,
        eighth,
        ninth,
    }
}
