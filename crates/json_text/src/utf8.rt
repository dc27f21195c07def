// UTF-8 as RFC 3629 has it.
ghost use Rattle.std.specs.Prelude.{◌≡◌, ◌+◌, ◌≤◌, length, drop, take, get_or};
ghost use Rattle.json_text.specs.Utf8 as spec;

// The number of bytes of a sequence, by its first byte; none where no sequence begins so.
fn lead_size(a: u8) -> Option<usize>
    ensures { result ≡ spec.lead_size a }
{
    match a {
        0..=0x7f => Some(1),
        0xc2..=0xdf => Some(2),
        0xe0..=0xef => Some(3),
        0xf0..=0xf4 => Some(4),
        _ => None,
    }
}

// Is the byte in this range, its ends included?
pub fn in_range(low: u8, high: u8, b: u8) -> bool
    ensures { result ≡ spec.between low high b }
{
    low <= b && b <= high
}

fn is_tail(b: u8) -> bool
    ensures { result ≡ spec.tail b }
{
    in_range(0x80, 0xbf, b)
}

// May `b` stand behind the first byte `a`?
fn is_second(a: u8, b: u8) -> bool
    ensures { result ≡ spec.second a b }
{
    match a {
        0xe0 => in_range(0xa0, 0xbf, b),
        0xed => in_range(0x80, 0x9f, b),
        0xf0 => in_range(0x90, 0xbf, b),
        0xf4 => in_range(0x80, 0x8f, b),
        _ => in_range(0x80, 0xbf, b),
    }
}

// May the bytes behind the first of a sequence of `n` bytes stand there?
fn is_followed(line: &[u8], at: usize, n: usize) -> bool
    requires { (1 ≤ n) × (at + n ≤ length line.now) }
    ensures { result ≡ spec.followed n (drop at line.now) }
{
    (n < 2 || is_second(line[at], line[at + 1]))
        && (n < 3 || is_tail(line[at + 2]))
        && (n < 4 || is_tail(line[at + 3]))
}

// The number of bytes of the well-formed sequence that begins at `at`, if there is one.
pub fn sequence(line: &[u8], at: usize) -> Option<usize>
    ensures { result ≡ spec.sequence (drop at line.now) }
{
    if line.len() <= at {
        return None;
    }
    let n = lead_size(line[at])?;
    if line.len() - at < n || !is_followed(line, at, n) {
        return None;
    }
    Some(n)
}

// How many bytes a code point has.
pub fn utf8_size(c: u32) -> usize
    ensures { result ≡ length (spec.utf8 c) }
{
    match c {
        0..=0x7f => 1,
        0x80..=0x7ff => 2,
        0x800..=0xffff => 3,
        _ => 4,
    }
}
