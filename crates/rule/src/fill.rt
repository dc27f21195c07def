// Filling templates: `%c` by the client id, then `%u` by the user name, in two passes over the whole text. The two are parameters and no
// `Client`, since callers fill for a client of whom they have no more.
ghost use Rattle.std.specs.Prelude.{◌≡◌, ◌≤◌, length};
ghost use Rattle.std.specs.Option.{option_copied};
ghost use Rattle.json_text.specs.Strings.{string_at};
ghost use Rattle.rule.specs.Places as spec;

use crate::{ID, TEXT};
use json_text::strings::decode;

// A template of 256 bytes has 128 places for a client id of 64.
const BETWEEN: usize = 8192;

// The two passes, through a text of at most `N` bytes between them: nothing, where that text is longer.
fn through<const N: usize>(
    template: &[u8],
    id: &[u8],
    name: Option<&[u8]>,
    buffer: &mut [u8],
) -> Option<Option<usize>>
    requires { N ≤ 8192 }
    ensures value { result ≡ spec.through N (length buffer.old) template.now id.now (option_copied name.entry) }
    ensures buffer_after { buffer.new ≡ spec.through_into N buffer.old template.now id.now (option_copied name.entry) }
{
    let mut between = [0u8; N];
    let n = text::replace(template, b"%c", id, &mut between)?;
    Some(text::replace(&between[..n], b"%u", name.unwrap_or(b""), buffer))
}

// The template filled into the front of the buffer. Where the result is longer than the buffer, the template over 256 bytes or the
// id over 64, the buffer is unchanged.
pub fn fill_text(
    template: &[u8],
    id: &[u8],
    name: Option<&[u8]>,
    buffer: &mut [u8],
) -> Option<usize>
    ensures value { result ≡ spec.filling (length buffer.old) template.now id.now (option_copied name.entry) }
    ensures buffer_after { buffer.new ≡ spec.filled_into buffer.old template.now id.now (option_copied name.entry) }
{
    if TEXT < template.len() || ID < id.len() {
        return None;
    }
    // To zero the large buffer costs more than most fillings.
    match through::<TEXT>(template, id, name, buffer) {
        Some(filled) => filled,
        None => through::<BETWEEN>(template, id, name, buffer)?,
    }
}

// The template at this place of the line filled into the front of the buffer; where no string of at most 256 bytes stands there, the
// buffer is unchanged.
pub fn fill(
    line: &[u8],
    at: usize,
    id: &[u8],
    name: Option<&[u8]>,
    buffer: &mut [u8],
) -> Option<usize>
    ensures value { result ≡ spec.filling_at (length buffer.old) (string_at line.now at) id.now (option_copied name.entry) }
    ensures buffer_after { buffer.new ≡ spec.filled_at buffer.old (string_at line.now at) id.now (option_copied name.entry) }
{
    let mut template = [0u8; TEXT];
    let n = decode(line, at, &mut template).ok()?;
    fill_text(&template[..n], id, name, buffer)
}
