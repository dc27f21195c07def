// What a host asks beside the calls: is an id or a name plain, what does a rule text ask of the tables, how many rows are used.
ghost use Rattle.std.specs.Prelude.{◌≡◌};
ghost use Rattle.store.specs.View.{view};
ghost use Rattle.hosting.specs.Hosting as spec;
ghost use Rattle.mqtt_acl.specs.Rules as rules;
ghost use Rattle.mqtt_acl.specs.Hosts as hosts;

use crate::yes;
use hosting::{Used, count_templates, plain_name, used_rows};

// Does the text fill a template without a level or a wildcard more, and not begin with `$`?
pub fn mqtt_acl_plain_name(name: &[u8]) -> u8
    ensures { result ≡ rules.yes (spec.plain_name name.now) }
{
    yes(plain_name(name))
}

// The filter templates of a rule text: a client asks for so many filter rows and notes at the most.
pub fn mqtt_acl_filter_templates(rules: &[u8]) -> usize
    ensures { result ≡ (spec.templates rules.now).filters }
{
    count_templates(rules).filters
}

// The eq templates of a rule text: a client asks for so many eq rows at the most.
pub fn mqtt_acl_eq_templates(rules: &[u8]) -> usize
    ensures { result ≡ (spec.templates rules.now).eqs }
{
    count_templates(rules).eqs
}

// The used rows of a store: filter rows, 65,536 times eq rows and 4,294,967,296 times note rows; 2^64-1 if it is not as laid out.
#[tactic(auto, using(crate::proofs::HostLaws::rows_fit), unfolding(crate::specs::Hosts::used_number))]
pub fn mqtt_acl_used_rows(store: &[u8]) -> u64
    ensures { result ≡ hosts.used_number (spec.used_in (view store.now)) }
{
    match used_rows(store) {
        Some(used) => {
            used.filters as u64 + 65536 * used.eqs as u64 + 4294967296 * used.notes as u64
        }
        None => u64::MAX,
    }
}
