// What the host of the library asks beside its calls: whether an id or a name is plain, what a rule text asks of the tables for each
// client, and how many rows a store uses.
#![tactic(auto)]

ghost use Rattle.std.specs.Prelude.{◌≡◌, ◌+◌, ◌^◌, ◌<◌, ◌≤◌, true, false, length};
ghost use Rattle.store.specs.View.{view};
ghost use Rattle.hosting.specs.Hosting as spec;
ghost use Rattle.hosting.specs.Walk as walk;

use events::templates::topics;
use json_text::splitting::Lines;
use rule::Topic;
use rule::topic_list::topic_at;
use store::check;

// How many filter and eq templates there are. The default is none.
#[derive(Clone, Copy, Debug, Default, PartialEq, Eq)]
pub struct Templates {
    pub filters: usize,
    pub eqs: usize,
}

impl Templates {
    // Adds each count.
    fn add(&mut self, more: Templates)
        requires { (self.old.filters + more.filters < 2 ^ 64) × (self.old.eqs + more.eqs < 2 ^ 64) }
        ensures { self.new ≡ record { filters = self.old.filters + more.filters; eqs = self.old.eqs + more.eqs } }
    {
        self.filters += more.filters;
        self.eqs += more.eqs;
    }
}

// The used filter, eq and note rows of a store.
#[derive(Clone, Copy, Debug, PartialEq, Eq)]
pub struct Used {
    pub filters: usize,
    pub eqs: usize,
    pub notes: usize,
}

// Does the byte separate levels, or is it a wildcard?
#[tactic(auto, unfolding(crate::specs::Hosting::is_special))]
fn is_special(b: u8) -> bool
    ensures { result ≡ spec.is_special b }
{
    matches!(b, b'+' | b'#' | b'/')
}

// Is it a text that adds no level and no wildcard to a template, and doesn't begin with `$`?
#[tactic(auto, using(crate::proofs::HostingLaws::starts_dollar), unfolding(crate::specs::Hosting::plain_name))]
pub fn plain_name(name: &[u8]) -> bool
    ensures { result ≡ spec.plain_name name.now }
{
    !name.starts_with(b"$") && name.iter().all(|b| !is_special(*b))
}

// A topic as it counts: a filter template, an eq template, or none.
#[tactic(auto, unfolding(crate::specs::Walk::count_of))]
fn counted(topic: Option<Topic>) -> Templates
    ensures { result ≡ record { filters = walk.count_of false topic; eqs = walk.count_of true topic } }
{
    match topic {
        Some(Topic::Template(_)) => Templates { filters: 1, eqs: 0 },
        Some(Topic::EqTemplate(_)) => Templates { filters: 0, eqs: 1 },
        _ => Templates::default(),
    }
}

// The templates of a rule by its line.
fn line_templates(line: &[u8]) -> Templates
    ensures value { result ≡ spec.line_templates line.now }
    ensures in_bounds { (result.filters ≤ length line.now + 1) × (result.eqs ≤ length line.now + 1) }
{
    let mut sum = Templates::default();
    for p in topics(line) {
        sum.add(counted(topic_at(line, p)));
    }
    sum
}

// What a rule text asks of the tables for each client: at most a filter row and a note for each filter template, and an eq row for each
// eq template.
pub fn count_templates(rules: &[u8]) -> Templates
    ensures { result ≡ spec.templates rules.now }
{
    let mut sum = Templates::default();
    for line in Lines::new(rules) {
        sum.add(line_templates(line));
    }
    sum
}

// How many rows of each table a store uses, if it is as laid out.
#[tactic(auto, using(crate::proofs::HostingLaws::rows_told, crate::proofs::HostingLaws::none_told))]
pub fn used_rows(store: &[u8]) -> Option<Used>
    ensures { result ≡ spec.used_in (view store.now) }
{
    let shape = check::shape(store)?;
    Some(Used {
        filters: shape.filters,
        eqs: shape.eqs,
        notes: shape.notes,
    })
}
