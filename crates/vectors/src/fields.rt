// The fields of a recorded line, which have a TAB between them, and the values in them. `judging` reads a line by these.
ghost use Rattle.std.specs.Prelude.{◌≡◌, ℕ, List, ◌+◌, ◌-◌, ◌<◌, ◌^◌};
ghost use Rattle.mqtt_acl.specs.Rules.{yes};
ghost use Rattle.vectors.specs.Fields as spec;

// What stands behind the first `n` TABs of the line; nothing where it has fewer.
pub fn rest(line: &[u8], n: usize) -> &[u8]
    ensures { result.now ≡ spec.rest n line.now }
{
    let Some(parts) = n.checked_add(1) else {
        return b"";
    };
    line.splitn(parts, |b| *b == b'\t').nth(n).unwrap_or(b"")
}

// The field of the line behind `n` TABs; an empty one where it has fewer.
#[tactic(auto, unfolding(crate::specs::Fields::field))]
pub fn field(line: &[u8], n: usize) -> &[u8]
    ensures { result.now ≡ spec.field n line.now }
{
    line.split(|b| *b == b'\t').nth(n).unwrap_or(b"")
}

// Is the optional value of this field given? Then `=` stands before it, else `-`.
#[tactic(auto, unfolding(crate::specs::Fields::is_given))]
pub fn is_given(text: &[u8]) -> bool
    ensures { result ≡ spec.is_given text.now }
{
    text.first() == Some(&b'=')
}

// The optional value of a field as the exported functions take it: a flag, and a text that is lent even where the flag is 0.
#[derive(Clone, Copy, Debug)]
pub struct Lent<'a> {
    pub has: u8,
    pub text: &'a [u8],
}

impl<'a> Lent<'a> {
    // The value of a field: behind the byte that says whether it is given.
    #[tactic(auto, unfolding(crate::specs::Fields::lent, mqtt_acl::specs::Rules::yes))]
    pub fn of(text: &'a [u8]) -> Lent<'a>
        ensures has { result.has ≡ yes (spec.is_given text.now) }
        ensures text { result.text.now ≡ spec.lent text.now }
    {
        Lent {
            has: u8::from(is_given(text)),
            text: text.get(1..).unwrap_or(b""),
        }
    }
}

// The text as a number, which is its first byte; 0 where there is none, as the definition of a recorded line has it.
#[tactic(auto, unfolding(crate::specs::Fields::number))]
pub fn number(text: &[u8]) -> u8
    ensures { result ≡ spec.number text.now }
{
    text.first().copied().unwrap_or(0)
}

// The same of a digit.
#[tactic(auto, unfolding(crate::specs::Fields::digit))]
pub fn digit(text: &[u8]) -> u8
    ensures { result ≡ spec.digit text.now }
{
    number(text).saturating_sub(b'0')
}

// The client of a line. A protocol is a number in a line `I`, and a digit in a line `Q`.
#[derive(Clone, Copy, Debug)]
pub struct Client<'a> {
    pub id: &'a [u8],
    pub name: Lent<'a>,
    pub password: Lent<'a>,
    pub address: Lent<'a>,
    pub protocol: Lent<'a>,
}

impl<'a> Client<'a> {
    // The client in the five fields from the one behind `n` TABs on.
    #[tactic(auto, unfolding(crate::specs::Fields::client, crate::specs::Fields::text_in, mqtt_acl::specs::Rules::yes, mqtt_acl::specs::Rules::flag))]
    pub(crate) fn at(line: &'a [u8], n: usize) -> Client<'a>
        requires { n < 2 ^ 64 - 5 }
        ensures seen { (number : List ℕ → ℕ) → spec.seen number result ≡ spec.client number n line.now }
        ensures protocol { result.protocol.text.now ≡ spec.lent (spec.field (n + 4) line.now) }
    {
        Client {
            id: field(line, n),
            name: Lent::of(field(line, n + 1)),
            password: Lent::of(field(line, n + 2)),
            address: Lent::of(field(line, n + 3)),
            protocol: Lent::of(field(line, n + 4)),
        }
    }
}
