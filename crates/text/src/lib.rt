// Equality, search and replace on bytes (document 01, Bytes). Every crate above compares and fills its texts here.
#![tactic(auto)]

ghost use Rattle.std.specs.Prelude.{◌≡◌, ◌++◌, ◌+◌, ◌≤◌, ◌<◌, length, take, drop};
ghost use Rattle.text.specs.Text as spec;

// The first `n` bytes of the text; all, where there are fewer.
pub fn front(text: &[u8], n: usize) -> &[u8]
    ensures { result.now ≡ take n text.now }
{
    &text[..n.min(text.len())]
}

// Are the two texts equal?
#[tactic(auto, using(crate::proofs::Laws::same_pointwise))]
pub fn same(a: &[u8], b: &[u8]) -> bool
    ensures { result ≡ spec.same a.now b.now }
{
    a == b
}

// Does the text begin with the pattern? Where `eq ` does not, `starts_with` takes 16 instructions, this 11.
#[tactic(auto, using(crate::proofs::Laws::begins_short, crate::proofs::Laws::begins_fits))]
pub fn begins(text: &[u8], pattern: &[u8]) -> bool
    ensures { result ≡ spec.begins pattern.now text.now }
{
    text.len() >= pattern.len() && &text[..pattern.len()] == pattern
}

// Where the first occurrence that `replace` takes stands.
fn place(text: &[u8], pattern: &[u8]) -> Option<usize>
    ensures { spec.FirstAt pattern.now text.now result }
{
    if pattern.is_empty() {
        return None;
    }
    text.windows(pattern.len()).position(|part| part == pattern)
}

// Does the pattern stand somewhere in the text?
#[tactic(auto, using(crate::proofs::Laws::contains_empty, crate::proofs::Laws::contains_first))]
pub fn contains(text: &[u8], pattern: &[u8]) -> bool
    ensures { result ≡ spec.contains pattern.now text.now }
{
    pattern.is_empty() || place(text, pattern).is_some()
}

// The next piece of a replacement, and what is left of the text: `new` for an occurrence, else the bytes before the next. It is called in
// a loop until nothing is left: for an iterator over the pieces their list would have to be defined, and tied to what `replace` promises.
#[tactic(auto, using(crate::proofs::Laws::first_here, crate::proofs::Laws::replace_kept))]
fn piece<'a>(text: &'a [u8], pattern: &[u8], new: &'a [u8]) -> (&'a [u8], &'a [u8])
    requires { 0 < length text.now }
    ensures step { spec.replace pattern.now new.now text.now ≡ result.0.now ++ spec.replace pattern.now new.now result.1.now }
    ensures shorter { length result.1.now < length text.now }
{
    let kept = place(text, pattern).unwrap_or(text.len());
    if kept == 0 {
        return (new, &text[pattern.len()..]);
    }
    text.split_at(kept)
}

// The length of the text with `new` for each occurrence of the pattern; none, where it is over `room`. The search goes no further than an
// occurrence that has room before it, so that a refusal costs by the room, not by the text. Text, pattern and `new` stay three
// parameters, as every caller has them and `replace` of the specs takes them.
pub fn replaced_length(text: &[u8], pattern: &[u8], new: &[u8], room: usize) -> Option<usize>
    ensures { result ≡ spec.fitted (spec.replace pattern.now new.now text.now) room }
{
    let mut left = room;
    let mut rest = text;
    while let Some(kept) = place(front(rest, left.saturating_add(pattern.len())), pattern) {
        left -= kept;
        if left < new.len() {
            return None;
        }
        left -= new.len();
        rest = &rest[kept + pattern.len()..];
    }
    if left < rest.len() {
        return None;
    }
    Some(room - left + rest.len())
}

// Writes the source into the buffer from `at` on. A loop, since for `copy_from_slice` the library for C would need memmove from outside.
fn put(source: &[u8], buffer: &mut [u8], at: usize)
    requires { at + length source.now ≤ length buffer.old }
    ensures { buffer.new ≡ take at buffer.old ++ (source.now ++ drop (at + length source.now) buffer.old) }
{
    let mut i = 0;
    while i < source.len() {
        buffer[at + i] = source[i];
        i += 1;
    }
}

// Writes the source into the buffer from `at` on, where it fits there; else the buffer is unchanged. Answers whether it fitted.
#[tactic(auto, using(crate::proofs::Laws::fits, crate::proofs::Laws::fits_not, crate::proofs::Laws::pasted_fits, crate::proofs::Laws::pasted_not))]
pub fn paste(source: &[u8], buffer: &mut [u8], at: usize) -> bool
    ensures value { result ≡ spec.fits_at at source.now buffer.old }
    ensures buffer_after { buffer.new ≡ spec.pasted at source.now buffer.old }
{
    let fits = at <= buffer.len() && source.len() <= buffer.len() - at;
    if fits {
        put(source, buffer, at);
    }
    fits
}

// Writes the text with `new` for each occurrence of the pattern to the front of the buffer, which has room for it.
#[tactic(auto, using(crate::proofs::Laws::wrote_lengths, crate::proofs::Laws::wrote_next))]
fn write_replaced(text: &[u8], pattern: &[u8], new: &[u8], buffer: &mut [u8])
    requires { length (spec.replace pattern.now new.now text.now) ≤ length buffer.old }
    ensures { buffer.new ≡ spec.written (spec.replace pattern.now new.now text.now) buffer.old }
{
    let mut n = 0;
    let mut rest = text;
    while !rest.is_empty() {
        let (next, after) = piece(rest, pattern, new);
        paste(next, buffer, n);
        n += next.len();
        rest = after;
    }
}

// Writes the text with `new` for each occurrence of the pattern, left to right and non-overlapping, to the front of the
// buffer. Where the result is longer than the buffer, the buffer is unchanged.
#[tactic(auto, using(crate::proofs::Laws::length_told, crate::proofs::Laws::too_long_told, crate::proofs::Laws::written_too_long))]
pub fn replace(text: &[u8], pattern: &[u8], new: &[u8], buffer: &mut [u8]) -> Option<usize>
    ensures value { result ≡ spec.fitted (spec.replace pattern.now new.now text.now) (length buffer.old) }
    ensures buffer_after { buffer.new ≡ spec.written (spec.replace pattern.now new.now text.now) buffer.old }
{
    let length = replaced_length(text, pattern, new, buffer.len())?;
    write_replaced(text, pattern, new, buffer);
    Some(length)
}
