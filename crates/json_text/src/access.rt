// What stands at a place of a line. Each function reads from its place and answers for every place; at a place of the line's own
// tree it is the tree's value.
ghost use Rattle.std.specs.Prelude.{◌≡◌, length};
ghost use Rattle.std.specs.Iterator.{YieldsFirst, item_count};
ghost use Rattle.json_text.specs.Json as json;
ghost use Rattle.json_text.specs.Plain as plain;
ghost use Rattle.json_text.specs.Access as spec;

use crate::strings::{plain_end, scan_string, string_is};
use crate::values::{
    DEPTH, is_at, item, kind_of, literal_at, name, number_at, separator, skip_blanks, value,
};
use crate::{Cursor, Kind, Literal, Read, Separator};

// The kind of value that begins at this place.
pub fn kind_at(line: &[u8], at: usize) -> Kind
    ensures { result ≡ spec.kind_at line.now at }
{
    if line.len() <= at {
        return Kind::Other;
    }
    kind_of(line[at])
}

// The place behind the value at this place.
pub fn skip_value(line: &[u8], at: usize) -> Option<usize>
    ensures { result ≡ spec.behind (spec.value_here line.now at) }
{
    let behind = value(Cursor { at, longest: 0 }, line, DEPTH)?;
    Some(behind.at)
}

// The first item behind a bracket that stands at this place.
fn first_item(line: &[u8], at: usize, opens: u8, closes: u8) -> Option<usize>
    ensures { result ≡ spec.first_item opens closes line.now at }
{
    if !is_at(line, at, opens) {
        return None;
    }
    let p = skip_blanks(line, at + 1);
    (!is_at(line, p, closes)).then_some(p)
}

// The first element of the array at this place.
pub fn first_element(line: &[u8], at: usize) -> Option<usize>
    ensures { result ≡ spec.first_item 0x5b 0x5d line.now at }
{
    first_item(line, at, b'[', b']')
}

// The name of the first member of the object at this place.
pub fn first_member(line: &[u8], at: usize) -> Option<usize>
    ensures { result ≡ spec.first_item 0x7b 0x7d line.now at }
{
    first_item(line, at, b'{', b'}')
}

// The item behind the one whose value stands at this place: an element, or a member's name.
pub fn next_item(line: &[u8], at: usize) -> Option<usize>
    ensures { result ≡ spec.next_item line.now at }
{
    let behind = value(Cursor { at, longest: 0 }, line, DEPTH)?;
    let p = skip_blanks(line, behind.at);
    if is_at(line, p, b',') {
        return Some(skip_blanks(line, p + 1));
    }
    None
}

// The elements of an array by their places, one after another.
#[derive(Clone, Copy, Debug)]
pub struct Elements<'a> {
    pub line: &'a [u8],
    pub next: Option<usize>,
}

impl<'a> Elements<'a> {
    // Those of the array at this place.
    pub fn new(line: &'a [u8], at: usize) -> Elements<'a>
        ensures { (result.line ≡ line.entry) × (result.next ≡ spec.first_item 0x5b 0x5d line.now at) }
    {
        Elements {
            line,
            next: first_element(line, at),
        }
    }
}

impl<'a> Iterator for Elements<'a> {
    type Item = usize;

    ghost next_gives = { YieldsFirst (λ s. spec.places_from s.line.now s.next) };

    ghost remaining = { item_count (λ s. spec.places_from s.line.now s.next) };

    fn next(&mut self) -> Option<usize> {
        let at = self.next?;
        self.next = next_item(self.line, at);
        Some(at)
    }
}

// The value of the member whose name stands at this place.
pub fn member_value(line: &[u8], at: usize) -> Option<usize>
    ensures { result ≡ spec.member_value line.now at }
{
    let behind = name(Cursor { at, longest: 0 }, line)?;
    Some(behind.at)
}

// The number of elements of the array at this place. Not by `Elements`, which just ends before an element that can't be read.
pub fn count_elements(line: &[u8], at: usize) -> Option<u64>
    ensures { result ≡ spec.element_count line.now at }
{
    if !is_at(line, at, b'[') {
        return None;
    }
    let first = skip_blanks(line, at + 1);
    if is_at(line, first, b']') {
        return Some(0);
    }
    let mut n: u64 = 0;
    let mut i = first;
    while i < line.len() {
        let behind = value(Cursor { at: i, longest: 0 }, line, DEPTH - 1)?;
        n += 1;
        match separator(line, behind.at, b']')? {
            Separator::Close(_) => {
                return Some(n);
            }
            Separator::Comma(next) => {
                i = next;
            }
        }
    }
    None
}

// The value of the last member with this name of the object at this place, if all of it can be read: so a loop, and no search.
pub fn member(line: &[u8], at: usize, wanted: &[u8]) -> Option<usize>
    ensures { result ≡ spec.member_named wanted.now line.now at }
{
    let first = first_member(line, at)?;
    let mut found = None;
    let mut i = first;
    while i < line.len() {
        if string_is(line, i, wanted) {
            found = member_value(line, i);
        }
        let behind = item(Cursor { at: i, longest: 0 }, line, DEPTH - 1, true)?;
        match separator(line, behind.at, b'}')? {
            Separator::Close(_) => {
                return found;
            }
            Separator::Comma(next) => {
                i = next;
            }
        }
    }
    None
}

// The value of the number at this place.
pub fn number_value(line: &[u8], at: usize) -> Option<u64>
    ensures { result ≡ spec.number_here line.now at }
{
    let read = number_at(line, at)?;
    Some(read.value)
}

// The value of the bool at this place.
pub fn truth(line: &[u8], at: usize) -> Option<bool>
    ensures { result ≡ spec.truth_here line.now at }
{
    match literal_at(line, at)? {
        Literal::True => Some(true),
        Literal::False => Some(false),
        Literal::Null => None,
    }
}

// The closing quote of the string at this place, if all its bytes are plain: it is its own decoded text, and callers read it in place.
pub fn plain_text(line: &[u8], at: usize) -> Option<usize>
    ensures { result ≡ plain.plain_text line.now at }
{
    if !is_at(line, at, b'"') {
        return None;
    }
    let end = plain_end(line, at + 1);
    is_at(line, end, b'"').then_some(end)
}

// The length of the string at this place, decoded.
pub fn decoded_length(line: &[u8], at: usize) -> Option<u64>
    ensures { result ≡ spec.decoded_length line.now at }
{
    let read = scan_string(line, at)?;
    Some(read.value as u64)
}
