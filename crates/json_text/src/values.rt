// The reader: one pass over a line, a cursor by value, no deeper than the brackets.
ghost use Rattle.std.specs.Prelude.{◌≡◌, length, max};
ghost use Rattle.text.specs.Ascii.{ascii};
ghost use Rattle.text.specs.Text as txt;
ghost use Rattle.json_text.specs.Utf8 as utf;
ghost use Rattle.json_text.specs.Json as spec;
ghost use Rattle.json_text.specs.Access as access;

use crate::access::kind_at;
use crate::strings::scan_string;
use crate::{Cursor, Kind, Literal, Read, Separator};

// "Depth is at most 8 brackets."
pub const DEPTH: usize = 8;

fn is_blank(b: u8) -> bool
    ensures { result ≡ spec.is_blank b }
{
    matches!(b, b' ' | b'\t' | b'\r')
}

// The place of the first byte that is no blank, from `at` on.
pub fn skip_blanks(line: &[u8], at: usize) -> usize
    ensures { result ≡ spec.skip_blanks line.now at }
{
    // A loop, since `take_while` and `count` cost a document's check 5 % more instructions.
    let mut i = at;
    while i < line.len() && is_blank(line[i]) {
        i += 1;
    }
    i
}

// Does this byte stand at this place?
pub fn is_at(line: &[u8], at: usize, b: u8) -> bool
    ensures { result ≡ spec.is_at line.now at b }
{
    line.get(at) == Some(&b)
}

// One byte decides what kind of value comes next.
pub fn kind_of(b: u8) -> Kind
    ensures { result ≡ spec.kind_of b }
{
    match b {
        b'0'..=b'9' => Kind::Number,
        b'"' => Kind::Text,
        b'[' => Kind::Array,
        b'{' => Kind::Object,
        b'a'..=b'z' => Kind::Word,
        b' ' | b'\t' | b'\r' => Kind::Blank,
        _ => Kind::Other,
    }
}

fn is_digit(b: u8) -> bool
    ensures { result ≡ utf.between 0x30 0x39 b }
{
    matches!(b, b'0'..=b'9')
}

// The number whose first digit stands at `at`: a loop, which ends at what is no digit, or with nothing where the number gets too large.
pub fn number_at(line: &[u8], at: usize) -> Option<Read<u64>>
    ensures { result ≡ spec.number_at line.now at }
{
    let mut v: u64 = 0;
    let mut i = at;
    while i < line.len() && is_digit(line[i]) {
        let shifted = v.checked_mul(10)?;
        v = shifted.checked_add((line[i] - b'0') as u64)?;
        i += 1;
    }
    if i == at {
        return None;
    }
    if line[at] == b'0' && i - at != 1 {
        return None;
    }
    Some(Read { value: v, next: i })
}

// Does this word stand at the front? By patterns: `text::begins` would be a call for each.
#[tactic(auto, unfolding(text::specs::Text::begins))]
fn opens_null(rest: &[u8]) -> bool
    ensures { result ≡ txt.begins (ascii "null") rest.now }
{
    matches!(rest, [b'n', b'u', b'l', b'l', ..])
}

#[tactic(auto, unfolding(text::specs::Text::begins))]
fn opens_true(rest: &[u8]) -> bool
    ensures { result ≡ txt.begins (ascii "true") rest.now }
{
    matches!(rest, [b't', b'r', b'u', b'e', ..])
}

#[tactic(auto, unfolding(text::specs::Text::begins))]
fn opens_false(rest: &[u8]) -> bool
    ensures { result ≡ txt.begins (ascii "false") rest.now }
{
    matches!(rest, [b'f', b'a', b'l', b's', b'e', ..])
}

// The word that begins at `at`.
pub fn literal_at(line: &[u8], at: usize) -> Option<Literal>
    ensures { result ≡ access.literal_of (spec.word_at line.now at) }
{
    if line.len() < at {
        return None;
    }
    if opens_null(&line[at..]) {
        return Some(Literal::Null);
    }
    if opens_true(&line[at..]) {
        return Some(Literal::True);
    }
    if opens_false(&line[at..]) {
        return Some(Literal::False);
    }
    None
}

// A number, a string, a word: the cursor behind it.
pub fn number(c: Cursor, line: &[u8]) -> Option<Cursor>
    ensures { result ≡ access.stepped access.no_string c.longest (spec.number_at line.now c.at) }
{
    let read = number_at(line, c.at)?;
    Some(Cursor { at: read.next, ..c })
}

pub fn string(c: Cursor, line: &[u8]) -> Option<Cursor>
    ensures { result ≡ access.stepped length c.longest (spec.text_at line.now c.at) }
{
    let read = scan_string(line, c.at)?;
    Some(Cursor {
        at: read.next,
        longest: c.longest.max(read.value),
    })
}

fn word_size(word: Literal) -> usize
    ensures { result ≡ access.word_size word }
{
    match word {
        Literal::Null | Literal::True => 4,
        Literal::False => 5,
    }
}

pub fn word(c: Cursor, line: &[u8]) -> Option<Cursor>
    ensures { result ≡ access.stepped spec.longest c.longest (spec.word_at line.now c.at) }
{
    let word = literal_at(line, c.at)?;
    Some(Cursor {
        at: c.at + word_size(word),
        ..c
    })
}

// A member's name, up to its value.
pub fn name(c: Cursor, line: &[u8]) -> Option<Cursor>
    ensures { result ≡ access.stepped length c.longest (spec.name_at line.now c.at) }
{
    let behind = string(c, line)?;
    let p = skip_blanks(line, behind.at);
    if is_at(line, p, b':') {
        return Some(Cursor {
            at: skip_blanks(line, p + 1),
            ..behind
        });
    }
    None
}

// The value at the cursor, in which at most `depth` brackets are open at once.
#[cycle(bracket_item_items_value)]
pub fn value(c: Cursor, line: &[u8], depth: usize) -> Option<Cursor>
    ensures { result ≡ access.stepped spec.longest c.longest (spec.value_at depth line.now c.at) }
{
    match kind_at(line, c.at) {
        Kind::Number => number(c, line),
        Kind::Text => string(c, line),
        Kind::Array => {
            let inside = depth.checked_sub(1)?;
            bracket(c, line, inside, false)
        }
        Kind::Object => {
            let inside = depth.checked_sub(1)?;
            bracket(c, line, inside, true)
        }
        Kind::Word => word(c, line),
        Kind::Blank | Kind::Other => None,
    }
}

// What comes behind an item that ends at `at`.
pub fn separator(line: &[u8], at: usize, close: u8) -> Option<Separator>
    ensures { result ≡ spec.separator_at close line.now at }
{
    let p = skip_blanks(line, at);
    if is_at(line, p, close) {
        return Some(Separator::Close(p + 1));
    }
    if is_at(line, p, b',') {
        return Some(Separator::Comma(skip_blanks(line, p + 1)));
    }
    None
}

// The closing bracket of an object or an array. Both are read by the same functions, and `object` says which it is: two of each would
// differ in the bracket, and in that a member's name is passed over before its value.
fn closing(object: bool) -> u8
    ensures { result ≡ access.closing object }
{
    if object { b'}' } else { b']' }
}

// What stands behind the opening bracket at the cursor, up to and with its closing bracket.
#[cycle(bracket_item_items_value)]
pub fn bracket(c: Cursor, line: &[u8], depth: usize, object: bool) -> Option<Cursor>
    ensures { result ≡ access.stepped spec.longest c.longest (access.bracketed object (spec.value_at depth line.now) line.now c.at) }
{
    if line.len() <= c.at {
        return None;
    }
    let first = skip_blanks(line, c.at + 1);
    if is_at(line, first, closing(object)) {
        return Some(Cursor { at: first + 1, ..c });
    }
    items(Cursor { at: first, ..c }, line, depth, object)
}

// The items from the cursor on, with commas between them, up to and with the closing bracket.
#[cycle(bracket_item_items_value)]
pub fn items(c: Cursor, line: &[u8], depth: usize, object: bool) -> Option<Cursor>
    ensures { result ≡ access.stepped spec.longest c.longest (access.itemized object (spec.value_at depth line.now) line.now (length line.now) c.at) }
{
    let mut cursor = c;
    while cursor.at < line.len() {
        let behind = item(cursor, line, depth, object)?;
        match separator(line, behind.at, closing(object))? {
            Separator::Close(at) => {
                return Some(Cursor { at, ..behind });
            }
            Separator::Comma(at) => {
                cursor = Cursor { at, ..behind };
            }
        }
    }
    None
}

// An element, or a member: its name, a colon and its value.
#[cycle(bracket_item_items_value)]
pub fn item(c: Cursor, line: &[u8], depth: usize, object: bool) -> Option<Cursor>
    ensures { result ≡ access.item_step object c.longest (spec.value_at depth line.now) line.now c.at }
{
    let start = if object { name(c, line)? } else { c };
    value(start, line, depth)
}

// Is the line a document? One pass over it.
pub fn check(line: &[u8]) -> Option<usize>
    ensures { result ≡ access.checked (spec.line_value line.now) }
{
    let first = Cursor {
        at: skip_blanks(line, 0),
        longest: 0,
    };
    let behind = value(first, line, DEPTH)?;
    (skip_blanks(line, behind.at) == line.len()).then_some(behind.longest)
}

// Is the line a document?
pub fn is_document(line: &[u8]) -> bool
    ensures { result ≡ access.is_document (spec.line_value line.now) }
{
    check(line).is_some()
}

// Is the line a document, no decoded string of which, member names included, is longer than `most` bytes?
pub fn is_document_within(line: &[u8], most: usize) -> bool
    ensures { result ≡ access.document_within most (spec.line_value line.now) }
{
    check(line).is_some_and(|longest| longest <= most)
}
