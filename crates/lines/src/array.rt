// A line of input that is an array, and the places of its elements.
ghost use Rattle.std.specs.Prelude.{◌≡◌, true, IfSome};
ghost use Rattle.std.specs.Option.{is_some};
ghost use Rattle.reader.specs.Reader.{fields_here};
ghost use Rattle.lines.specs.Reading as spec;

use json_text::Kind;
use json_text::values::is_document;
use reader::{Fields, first_kind, read_fields};
use rule::LINE;

// An array of at most 2,048 bytes. No `impl Model` gives its elements as its value: `asker_at` and `client_at` promise what stands at its line's
// places, and what calls them is proved by both ghost fields.
#[derive(Clone, Copy)]
pub(crate) struct Array<'a> {
    pub(crate) line: &'a [u8],
    pub(crate) at: Fields,
    ghost is_array: { spec.is_array_line line.now ≡ true },
    ghost placed: { at ≡ fields_here line.now },
}

impl<'a> Array<'a> {
    // Is it a line of JSON of at most 2,048 bytes, and an array?
    pub(crate) fn is_one(line: &[u8]) -> bool
        ensures { result ≡ spec.is_array_line line.now }
    {
        line.len() <= LINE && is_document(line) && matches!(first_kind(line), Kind::Array)
    }

    // The line, which is one. Its elements are gone over here, and not before.
    pub(crate) fn of(line: &'a [u8]) -> Array<'a>
        requires { spec.is_array_line line.now ≡ true }
        ensures { result.line ≡ line.entry }
    {
        let at = read_fields(line);
        Array { line, at }
    }

    // The line, if it is one.
    pub(crate) fn read(line: &'a [u8]) -> Option<Array<'a>>
        ensures one { is_some result ≡ spec.is_array_line line.now }
        ensures of_line { IfSome result (λ array. array.line ≡ line.entry) }
    {
        if !Self::is_one(line) {
            return None;
        }
        Some(Self::of(line))
    }
}
