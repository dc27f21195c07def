// Topic filters: levels, validity, and the two ways of matching, T and P (document 01; document 02, b; topic.rs, trie.rs).
#![tactic(auto)]

ghost use Rattle.std.specs.Prelude.{◌≡◌, ◌||◌, length};
ghost use Rattle.topic.specs.Topic as spec;
ghost use Rattle.topic.specs.Walk as places;

// The level that begins at `at`, as a part of the text; past the text, an empty part.
pub fn level_at(text: &[u8], at: usize) -> &[u8]
    ensures { result.now ≡ places.level_at text.now at }
{
    let rest = &text[at.min(text.len())..];
    let end = rest.iter().position(|&b| b == b'/').unwrap_or(rest.len());
    &rest[..end]
}

// Where the level that begins at `at` ends: at the next `/` or at the end of the text.
#[tactic(auto, using(crate::proofs::Places::level_fits), unfolding(crate::specs::Walk::level_end))]
pub fn level_end(text: &[u8], at: usize) -> usize
    ensures { result ≡ places.level_end text.now at }
{
    at + level_at(text, at).len()
}

// Is the text a valid filter?
#[tactic(auto, using(crate::proofs::Scan::scan_at, crate::proofs::Scan::scan_end, crate::proofs::Scan::scan_valid))]
pub fn valid_filter(text: &[u8]) -> bool
    ensures { result ≡ spec.valid_filter text.now }
{
    // A `for`, since `starts` goes from byte to byte: `all` would take a closure that writes it.
    let mut starts = true;
    for (i, &b) in text.iter().enumerate() {
        if b == b'#' {
            return starts && i + 1 == text.len();
        }
        if b == b'+' && !(starts && (i + 1 == text.len() || text[i + 1] == b'/')) {
            return false;
        }
        starts = b == b'/';
    }
    true
}

// Is the level the single byte `b`?
#[tactic(auto, using(crate::proofs::Places::only_length, crate::proofs::Places::only_one))]
fn is_only(level: &[u8], b: u8) -> bool
    ensures { result ≡ spec.is_only b level.now }
{
    matches!(level, [only] if *only == b)
}

// Is the level a wildcard?
fn is_wildcard(level: &[u8]) -> bool
    ensures { result ≡ (spec.is_plus level.now || spec.is_hash level.now) }
{
    is_only(level, b'+') || is_only(level, b'#')
}

// Does the level begin with `$`?
#[tactic(auto, using(crate::proofs::Places::metadata_first, crate::proofs::Places::metadata_empty))]
fn is_metadata(level: &[u8]) -> bool
    ensures { result ≡ spec.metadata level.now }
{
    matches!(level, [b'$', ..])
}

// Does the filter have nothing from `at` on, or `#` next?
#[tactic(auto, using(crate::proofs::Places::ends_past, crate::proofs::Places::ends_here))]
fn ends_at(filter: &[u8], at: usize) -> bool
    ensures { result ≡ spec.ends (places.levels_at filter.now at) }
{
    filter.len() < at || is_only(level_at(filter, at), b'#')
}

// Does one level of a filter, if it isn't `#`, take one of a checked text?
#[tactic(auto, unfolding(crate::specs::Topic::takes_level))]
fn takes_level(level: &[u8], checked: &[u8]) -> bool
    ensures { result ≡ spec.takes_level level.now checked.now }
{
    is_only(level, b'+') || text::same(level, checked)
}

// A match on its way: where the next level of the filter and of the checked text begins, one past the end where none is left;
// and its answer, once it is decided.
#[derive(Clone, Copy, Debug, PartialEq, Eq)]
pub struct Walk {
    pub filter: usize,
    pub text: usize,
    pub answer: Option<bool>,
}

impl Walk {
    // The walk with its answer.
    #[tactic(auto, unfolding(crate::specs::Walk::answered))]
    pub fn answered(mut self, taken: bool) -> Walk
        ensures { result ≡ places.answered self taken }
    {
        self.answer = Some(taken);
        self
    }

    // Consumes one level of the filter and one of the checked text, and hands the walk back.
    #[tactic(auto, unfolding(crate::specs::Walk::stepped, crate::specs::Walk::onward, crate::specs::Walk::next_level, crate::specs::Walk::level_end))]
    pub fn step(mut self, filter: &[u8], text: &[u8]) -> Walk
        ensures { result ≡ places.stepped filter.now text.now self }
    {
        if self.answer.is_some() {
            return self;
        }
        if text.len() < self.text {
            return self.answered(ends_at(filter, self.filter));
        }
        if filter.len() < self.filter {
            return self.answered(false);
        }
        let level = level_at(filter, self.filter);
        if is_only(level, b'#') {
            return self.answered(true);
        }
        let checked = level_at(text, self.text);
        if !takes_level(level, checked) {
            return self.answered(false);
        }
        self.filter += level.len() + 1;
        self.text += checked.len() + 1;
        self
    }
}

// Do the filter's levels take the checked text's? One level a turn, by a loop without a count: the step that finds the answer is the last.
fn takes(filter: &[u8], text: &[u8]) -> bool
    ensures { result ≡ spec.takes (spec.levels filter.now) (spec.levels text.now) }
{
    let mut walk = Walk {
        filter: 0,
        text: 0,
        answer: None,
    };
    loop {
        if let Some(taken) = walk.answer {
            return taken;
        }
        walk = walk.step(filter, text);
    }
}

// Does the filter's first level, a wildcard, meet a first level of the text that begins with `$`?
#[tactic(auto, using(crate::proofs::Places::dollar_first))]
fn dollar_rule(filter: &[u8], text: &[u8]) -> bool
    ensures { result ≡ spec.dollar_rule (spec.levels filter.now) (spec.levels text.now) }
{
    is_metadata(text) && is_wildcard(level_at(filter, 0))
}

// Do the two differ at a byte up to which the filter has no wildcard? They then differ in the level of that byte, and T says no.
#[tactic(auto, using(crate::proofs::Apart::apart_at, crate::proofs::Apart::apart_end))]
pub fn begins_apart(filter: &[u8], text: &[u8]) -> bool
    ensures { result ≡ places.begins_apart filter.now text.now }
{
    // The first byte at which it is decided, by `i`: with `zip` each byte takes 12 instructions, so 10.
    for i in 0..filter.len().min(text.len()) {
        let b = filter[i];
        if b == b'+' || b == b'#' {
            return false;
        }
        if b != text[i] {
            return true;
        }
    }
    false
}

// Plain match P: does the filter take the checked text?
#[tactic(auto, unfolding(crate::specs::Topic::plain_match, crate::specs::Topic::levels_match))]
pub fn plain_match(filter: &[u8], text: &[u8]) -> bool
    ensures { result ≡ spec.plain_match filter.now text.now }
{
    !dollar_rule(filter, text) && takes(filter, text)
}

// Tree match T, by a caller who knows whether the checked text is a valid filter: if it is one, T is P. `valid` is what he found out, and
// most hand on a value that is known only when they run.
#[tactic(auto, using(crate::proofs::Places::match_known))]
pub fn tree_match_known(filter: &[u8], text: &[u8], valid: bool) -> bool
    ensures { result ≡ spec.levels_match (spec.levels filter.now) (spec.levels_if valid text.now) }
{
    if valid {
        return plain_match(filter, text);
    }
    ends_at(filter, 0)
}

// Tree match T: does the filter take the checked text? Most differ before the filter's first wildcard.
#[tactic(auto, using(crate::proofs::Apart::apart_no_match), unfolding(crate::specs::Topic::tree_match, crate::specs::Topic::checked_levels))]
pub fn tree_match(filter: &[u8], text: &[u8]) -> bool
    ensures { result ≡ spec.tree_match filter.now text.now }
{
    !begins_apart(filter, text) && tree_match_known(filter, text, valid_filter(text))
}
