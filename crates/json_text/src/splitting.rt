// The lines of a text, gone over by a cursor: the offset at which the next line begins (document 01, JSON line).
ghost use Rattle.std.specs.Prelude.{◌≡◌, ◌+◌, ◌≤◌, leb, length};
ghost use Rattle.std.specs.Iterator.{YieldsFirstBy, item_count};
ghost use Rattle.json_text.specs.Lines as spec;

// So many bytes are passed over at once where none of them is an LF.
const STRETCH: usize = 32;

// Is none of the `n` bytes from `at` on an LF? No way out of the loop, so that it is done on many bytes at once.
fn within_line(text: &[u8], at: usize, n: usize) -> bool
    requires { at + n ≤ length text.now }
    ensures { result ≡ leb n (length (spec.line_at text.now at)) }
{
    let mut within = true;
    let mut i = 0;
    while i < n {
        within = within & (text[at + i] != b'\n');
        i += 1;
    }
    within
}

// The place behind the `n` bytes from `at` on, where the text has them and none is an LF; else `at`.
fn past(text: &[u8], at: usize, n: usize) -> usize
    ensures { result + length (spec.line_at text.now result) ≡ at + length (spec.line_at text.now at) }
{
    if text.len() < at {
        return at;
    }
    if text.len() - at < n {
        return at;
    }
    if within_line(text, at, n) {
        return at + n;
    }
    at
}

// A place of the line that begins at `at`, before its last stretch.
fn past_stretches(text: &[u8], at: usize) -> usize
    ensures { result + length (spec.line_at text.now result) ≡ at + length (spec.line_at text.now at) }
{
    let mut i = at;
    while i < text.len() {
        if text.len() - i < STRETCH {
            return i;
        }
        if !within_line(text, i, STRETCH) {
            return i;
        }
        i += STRETCH;
    }
    i
}

// Where the line that begins at `at` ends: at the next LF or at the end of the text.
pub fn line_end(text: &[u8], at: usize) -> usize
    ensures { result ≡ at + length (spec.line_at text.now at) }
{
    let long = past_stretches(text, at);
    let half = past(text, long, STRETCH / 2);
    let mut i = past(text, half, STRETCH / 4);
    while i < text.len() {
        if text[i] == b'\n' {
            return i;
        }
        i += 1;
    }
    i
}

// The line that begins at `at`, as a part of the text.
pub fn line_at(text: &[u8], at: usize) -> &[u8]
    ensures { result.now ≡ spec.line_at text.now at }
{
    if text.len() < at {
        return &text[..0];
    }
    let end = line_end(text, at);
    &text[at..end]
}

// The offset of the line behind one that ends at `end`; the text's length where there is none.
pub fn line_behind(text: &[u8], end: usize) -> usize
    ensures { result ≡ spec.line_behind text.now end }
{
    if end < text.len() {
        end + 1
    } else {
        text.len()
    }
}

// The offset of the line behind the one that begins at `at`.
pub fn next_line(text: &[u8], at: usize) -> usize
    ensures { result ≡ spec.next_line text.now at }
{
    line_behind(text, line_end(text, at))
}

// The number of lines, or one more than `most` where there are more.
// Not by `Lines`, which would look for the end of line `most + 1` before it is counted.
pub fn count_lines(text: &[u8], most: usize) -> usize
    ensures { result ≡ spec.count_up_to most text.now }
{
    let mut n = 0;
    let mut at = 0;
    while at < text.len() {
        n += 1;
        if most < n {
            return n;
        }
        at = next_line(text, at);
    }
    n
}

// The lines of a text, each as a part of it: what is left of the text, from the beginning of a line on.
#[derive(Clone, Copy, Debug)]
pub struct Lines<'a> {
    pub rest: &'a [u8],
}

impl<'a> Lines<'a> {
    pub fn new(text: &'a [u8]) -> Lines<'a>
        ensures { result.rest ≡ text.entry }
    {
        Lines { rest: text }
    }
}

impl<'a> Iterator for Lines<'a> {
    type Item = &'a [u8];

    ghost next_gives = { YieldsFirstBy (λ line. line.now) (λ s. spec.lines s.rest.now) };

    ghost remaining = { item_count (λ s. spec.lines s.rest.now) };

    fn next(&mut self) -> Option<&'a [u8]> {
        if self.rest.is_empty() {
            return None;
        }
        let end = line_end(self.rest, 0);
        let line = &self.rest[..end];
        self.rest = &self.rest[line_behind(self.rest, end)..];
        Some(line)
    }
}
