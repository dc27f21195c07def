// The strings of a line, read character by character: nothing is copied but by `decode` (RFC 8259, section 7).
ghost use Rattle.std.specs.Prelude.{◌≡◌, ◌+◌, ◌≤◌, ◌<◌, ◌-◌, ◌∷◌, [], length, take, drop, get_or};
ghost use Rattle.text.specs.Text as txt;
ghost use Rattle.json_text.specs.Utf8 as utf;
ghost use Rattle.json_text.specs.Strings as spec;
ghost use Rattle.json_text.specs.Plain as plain;
ghost use Rattle.json_text.specs.Access as access;

use crate::access::plain_text;
use crate::utf8::sequence;
use crate::values::is_at;
use crate::{DecodeError, Piece, Read};

// The value of a hexadecimal digit of either case.
fn hex_digit(b: u8) -> Option<u32>
    ensures { result ≡ spec.hex_digit b }
{
    match b {
        b'0'..=b'9' => Some((b - b'0') as u32),
        b'A'..=b'F' => Some((b - b'A') as u32 + 10),
        b'a'..=b'f' => Some((b - b'a') as u32 + 10),
        _ => None,
    }
}

// The number that the first four bytes write in hexadecimal.
fn hex4(bytes: &[u8]) -> Option<u32>
    ensures { result ≡ spec.hex4 bytes.now }
{
    let [a, b, c, d, ..] = bytes else {
        return None;
    };
    let a = hex_digit(*a)?;
    let b = hex_digit(*b)?;
    let c = hex_digit(*c)?;
    let d = hex_digit(*d)?;
    Some(a * 4096 + b * 256 + c * 16 + d)
}

// The character of a short escape, by the byte behind the backslash.
fn short_escape(e: u8) -> Option<char>
    ensures { result ≡ spec.short_escape e }
{
    match e {
        b'"' | b'\\' | b'/' => Some(e as char),
        b'b' => Some('\u{8}'),
        b'f' => Some('\u{c}'),
        b'n' => Some('\n'),
        b'r' => Some('\r'),
        b't' => Some('\t'),
        _ => None,
    }
}

// Does `\u` stand at the front? By a pattern: `text::begins` would be a call for each low surrogate.
#[tactic(auto, unfolding(text::specs::Text::begins))]
fn opens_unicode(bytes: &[u8]) -> bool
    ensures { result ≡ txt.begins (spec.backslash ∷ 0x75 ∷ []) bytes.now }
{
    matches!(bytes, [b'\\', b'u', ..])
}

// The low surrogate that is written at the front, as `\u` and four digits.
fn low_surrogate(bytes: &[u8]) -> Option<u32>
    ensures { result ≡ spec.low_surrogate bytes.now }
{
    if !opens_unicode(bytes) {
        return None;
    }
    let low = hex4(&bytes[2..])?;
    match low {
        0xdc00..=0xdfff => Some(low),
        _ => None,
    }
}

// `\uXXXX`, from the digits on: a high surrogate with the low one behind it, or a character, which a low surrogate alone is not.
fn unicode(bytes: &[u8]) -> Option<Piece>
    ensures { result ≡ spec.unicode bytes.now }
{
    let u = hex4(bytes)?;
    match u {
        0xd800..=0xdbff => {
            let low = low_surrogate(&bytes[4..])?;
            let c = char::from_u32(0x10000 + (u - 0xd800) * 0x400 + (low - 0xdc00))?;
            Some(Piece::Escaped(c, 12))
        }
        _ => {
            let c = char::from_u32(u)?;
            Some(Piece::Escaped(c, 6))
        }
    }
}

// An escape, from the byte behind the backslash on.
fn escape(bytes: &[u8]) -> Option<Piece>
    ensures { result ≡ spec.escape bytes.now }
{
    let (&e, rest) = bytes.split_first()?;
    if e == b'u' {
        return unicode(rest);
    }
    let short = short_escape(e)?;
    Some(Piece::Escaped(short, 2))
}

// What a string has at this place: its closing quote, a character as it stands, an escaped one, or what may not stand there.
pub fn piece_at(line: &[u8], at: usize) -> Option<Piece>
    ensures { result ≡ spec.piece_of (drop at line.now) }
{
    if line.len() <= at {
        return None;
    }
    let b = line[at];
    match b {
        b'"' => Some(Piece::Closes),
        b'\\' => escape(&line[at + 1..]),
        0..=0x1f => None,
        0x20..=0x7f => Some(Piece::Raw(1)),
        _ => {
            let n = sequence(line, at)?;
            Some(Piece::Raw(n))
        }
    }
}

// The words of the table: plain, or not.
const Y: bool = true;

const N: bool = false;

// The bytes that are plain, 32 a row. A table: with a jump for each compare, a loop over bytes took up to twice the time, by where it lay
// in memory.
static PLAIN: [bool; 256] = [
    N, N, N, N, N, N, N, N, N, N, N, N, N, N, N, N, N, N, N, N, N, N, N, N, N, N, N, N, N, N, N, N,
    Y, Y, N, Y, Y, Y, Y, Y, Y, Y, Y, Y, Y, Y, Y, Y, Y, Y, Y, Y, Y, Y, Y, Y, Y, Y, Y, Y, Y, Y, Y, Y,
    Y, Y, Y, Y, Y, Y, Y, Y, Y, Y, Y, Y, Y, Y, Y, Y, Y, Y, Y, Y, Y, Y, Y, Y, Y, Y, Y, Y, N, Y, Y, Y,
    Y, Y, Y, Y, Y, Y, Y, Y, Y, Y, Y, Y, Y, Y, Y, Y, Y, Y, Y, Y, Y, Y, Y, Y, Y, Y, Y, Y, Y, Y, Y, Y,
    N, N, N, N, N, N, N, N, N, N, N, N, N, N, N, N, N, N, N, N, N, N, N, N, N, N, N, N, N, N, N, N,
    N, N, N, N, N, N, N, N, N, N, N, N, N, N, N, N, N, N, N, N, N, N, N, N, N, N, N, N, N, N, N, N,
    N, N, N, N, N, N, N, N, N, N, N, N, N, N, N, N, N, N, N, N, N, N, N, N, N, N, N, N, N, N, N, N,
    N, N, N, N, N, N, N, N, N, N, N, N, N, N, N, N, N, N, N, N, N, N, N, N, N, N, N, N, N, N, N, N,
];

// Is the byte a character by itself, neither a quote nor a backslash?
fn is_plain(b: u8) -> bool
    ensures { result ≡ spec.is_plain b }
{
    PLAIN[b as usize]
}

// The place of the first byte that isn't plain, from `at` on.
pub fn plain_end(line: &[u8], at: usize) -> usize
    ensures { result ≡ plain.skip_plains line.now at }
{
    if line.len() < at {
        return at;
    }
    at + line[at..].iter().take_while(|&&b| is_plain(b)).count()
}

// The string whose opening quote stands at `at`: the place behind it and the length of its decoded text.
pub fn scan_string(line: &[u8], at: usize) -> Option<Read<usize>>
    ensures { result ≡ access.scanned at (spec.string_at line.now at) }
{
    if !is_at(line, at, b'"') {
        return None;
    }
    let mut i = at + 1;
    let mut n = 0;
    while i < line.len() {
        // Most characters are decided by one byte.
        if is_plain(line[i]) {
            i += 1;
            n += 1;
        } else {
            match piece_at(line, i) {
                Some(Piece::Closes) => {
                    return Some(Read {
                        next: i + 1,
                        value: n,
                    });
                }
                Some(Piece::Raw(size)) => {
                    i += size;
                    n += size;
                }
                Some(Piece::Escaped(c, size)) => {
                    i += size;
                    n += c.len_utf8();
                }
                None => {
                    return None;
                }
            }
        }
    }
    None
}

// Does the character stand at the front of the text?
fn begins_with(text: &[u8], c: char) -> bool
    ensures { result ≡ txt.begins (utf.utf8 c) text.now }
{
    let mut bytes = [0; 4];
    text::begins(text, c.encode_utf8(&mut bytes).as_bytes())
}

// Is the string whose opening quote stands at `at`, decoded, this text? Most are plain and are compared as they stand.
pub fn string_is(line: &[u8], at: usize, wanted: &[u8]) -> bool
    ensures { result ≡ access.string_is line.now at wanted.now }
{
    if let Some(end) = plain_text(line, at) {
        return text::same(&line[at + 1..end], wanted);
    }
    decoded_is(line, at, wanted)
}

// The same, piece by piece; each piece may decide it, so that the loop answers from inside.
fn decoded_is(line: &[u8], at: usize, wanted: &[u8]) -> bool
    ensures { result ≡ access.string_is line.now at wanted.now }
{
    if !is_at(line, at, b'"') {
        return false;
    }
    let mut i = at + 1;
    let mut j = 0;
    while i < line.len() {
        match piece_at(line, i) {
            Some(Piece::Closes) => {
                return j == wanted.len();
            }
            Some(Piece::Raw(size)) => {
                if !text::begins(&wanted[j..], &line[i..i + size]) {
                    return false;
                }
                i += size;
                j += size;
            }
            Some(Piece::Escaped(c, size)) => {
                if !begins_with(&wanted[j..], c) {
                    return false;
                }
                i += size;
                j += c.len_utf8();
            }
            None => {
                return false;
            }
        }
    }
    false
}

// Writes the decoded text of the string at `at`, which has one that fits, to the front of the buffer.
fn write_decoded(line: &[u8], at: usize, buffer: &mut [u8])
    requires { access.Fits (length buffer.old) (spec.string_at line.now at) }
    ensures { buffer.new ≡ access.decoded_into buffer.old (spec.string_at line.now at) }
{
    let mut i = at + 1;
    let mut j = 0;
    while i < line.len() {
        match piece_at(line, i) {
            Some(Piece::Raw(size)) => {
                text::paste(&line[i..i + size], buffer, j);
                i += size;
                j += size;
            }
            Some(Piece::Escaped(c, size)) => {
                let mut bytes = [0; 4];
                let encoded = c.encode_utf8(&mut bytes).as_bytes();
                text::paste(encoded, buffer, j);
                i += size;
                j += encoded.len();
            }
            Some(Piece::Closes) => {
                return;
            }
            None => {
                return;
            }
        }
    }
}

// A text copied to the front of the buffer; where it is longer, the buffer is unchanged.
fn copy_text(text: &[u8], buffer: &mut [u8]) -> Result<usize, DecodeError>
    ensures value { result ≡ access.copied_text (length buffer.old) text.now }
    ensures buffer_after { buffer.new ≡ txt.written text.now buffer.old }
{
    if text::paste(text, buffer, 0) {
        return Ok(text.len());
    }
    Err(DecodeError::TooLong)
}

// Writes the decoded text of the string whose opening quote stands at `at` to the front of the buffer. Where it is longer than the
// buffer, or no string stands there, the buffer is unchanged. Most strings are plain and are copied as they stand.
pub fn decode(line: &[u8], at: usize, buffer: &mut [u8]) -> Result<usize, DecodeError>
    ensures value { result ≡ access.copied (length buffer.old) (spec.string_at line.now at) }
    ensures buffer_after { buffer.new ≡ access.decoded_into buffer.old (spec.string_at line.now at) }
{
    if let Some(end) = plain_text(line, at) {
        return copy_text(&line[at + 1..end], buffer);
    }
    decode_pieces(line, at, buffer)
}

// The same, piece by piece.
fn decode_pieces(line: &[u8], at: usize, buffer: &mut [u8]) -> Result<usize, DecodeError>
    ensures value { result ≡ access.copied (length buffer.old) (spec.string_at line.now at) }
    ensures buffer_after { buffer.new ≡ access.decoded_into buffer.old (spec.string_at line.now at) }
{
    let Some(read) = scan_string(line, at) else {
        return Err(DecodeError::NoText);
    };
    if buffer.len() < read.value {
        return Err(DecodeError::TooLong);
    }
    write_decoded(line, at, buffer);
    Ok(read.value)
}
