// The per-client question of a recorded line: `C`, answer, superuser, publish, QoS, retain, disconnect, client id, name, topic, rule. A flag is `=`
// for true; the rule is all that is left.
ghost use Rattle.std.specs.Prelude.{◌≡◌};
ghost use Rattle.vectors.specs.Clients as spec;

use crate::fields::{Lent, field, is_given, number, rest};
use mqtt_acl::clients::{mqtt_acl_client_publish, mqtt_acl_client_subscribe};

// What the exported function answers.
#[tactic(auto, unfolding(crate::specs::Clients::client_answer, crate::specs::Fields::text_in, mqtt_acl::specs::Rules::yes, mqtt_acl::specs::Rules::flag))]
pub fn client_answer(line: &[u8]) -> u64
    ensures { result ≡ spec.client_answer line.now }
{
    let superuser = Lent::of(field(line, 2)).has;
    let qos = u64::from(number(Lent::of(field(line, 4)).text));
    let retain = Lent::of(field(line, 5)).has;
    let disconnect = Lent::of(field(line, 6)).has;
    let id = field(line, 7);
    let name = Lent::of(field(line, 8));
    let topic = field(line, 9);
    let rules = rest(line, 10);
    if is_given(field(line, 3)) {
        mqtt_acl_client_publish(
            superuser, id, name.has, name.text, rules, topic, qos, retain, disconnect,
        )
    } else {
        mqtt_acl_client_subscribe(superuser, id, name.has, name.text, rules, topic, qos)
    }
}

// Is the recorded answer this one: what is answered, the rule or number, and the line, each a byte above `0`?
#[tactic(auto, using(text::proofs::Laws::same_lengths), unfolding(crate::specs::Clients::is_packed, text::specs::Text::same))]
pub fn is_packed(answer: u64, recorded: &[u8]) -> bool
    ensures { result ≡ spec.is_packed answer recorded.now }
{
    let parts = [answer % 16 + 48, answer / 16 % 256 + 48, answer / 4096 + 48];
    matches!(recorded, [what, value, line] if [*what, *value, *line].map(u64::from) == parts)
}
