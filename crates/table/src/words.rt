// Rows compared eight bytes at a time.
ghost use Rattle.std.specs.Prelude.{◌≡◌, true, ◌+◌, ◌≤◌, length};
ghost use Rattle.text.specs.Text.{same};
ghost use Rattle.table.specs.Order as spec;

// Eight bytes as a number, the low one first: one load.
fn eight(s: &[u8], at: usize) -> u64
    requires { at + 8 ≤ length s.now }
    ensures { result ≡ spec.eight at s.now }
{
    u64::from_le_bytes(*s[at..at + 8].first_chunk().unwrap())
}

// Does the first row come before the second? Where it says no, they may be equal, or too short to be told apart.
pub(crate) fn before(a: &[u8], b: &[u8]) -> bool
    ensures { result ≡ true → spec.Before a.now b.now }
{
    // By places in both rows, which are as long; shorter ones have no word.
    let size = a.len();
    if size < 8 || b.len() != size {
        return false;
    }
    for i in 0..size / 8 {
        let x = eight(a, i * 8);
        let y = eight(b, i * 8);
        if x != y {
            return x < y;
        }
    }
    let last = size - 8;
    eight(a, last) < eight(b, last)
}

// Do the lengths or some words of the rows differ? Where it says no of rows shorter than a word, they may still do.
fn differs(a: &[u8], b: &[u8]) -> bool
    ensures { result ≡ true → a.now ≡ b.now → ⊥ }
{
    a.len() != b.len() || (a.len() >= 8 && words_differ(a, b))
}

// Do some words of two rows differ, which are as long? By places in both: `zip` and `any` would take a closure with a contract.
fn words_differ(a: &[u8], b: &[u8]) -> bool
    requires { (length b.now ≡ length a.now) × (8 ≤ length a.now) }
    ensures { result ≡ true → a.now ≡ b.now → ⊥ }
{
    let size = a.len();
    for i in 0..size / 8 {
        if eight(a, i * 8) != eight(b, i * 8) {
            return true;
        }
    }
    let last = size - 8;
    eight(a, last) != eight(b, last)
}

// Are the two rows equal? Most that differ do so in a word, and are told apart without a look at each byte.
pub(crate) fn same_row(a: &[u8], b: &[u8]) -> bool
    ensures { result ≡ same a.now b.now }
{
    !differs(a, b) && text::same(a, b)
}
