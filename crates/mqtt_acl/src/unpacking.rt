// What a host reads from the number that a call answered: what is answered, and its rule, code, refusal, line, QoS or flag. Any number
// is taken, and its parts are those of specs/Unpacked.antt; a question's answer is widened to 64 bits.
#![tactic(auto, unfolding(crate::specs::Unpacked::parts, crate::specs::Unpacked::parts_by))]

ghost use Rattle.std.specs.Prelude.{◌≡◌};
ghost use Rattle.mqtt_acl.specs.Rules.{yes};
ghost use Rattle.mqtt_acl.specs.Unpacked.{parts, read_open, open_refusal, open_line};

use crate::yes;

// What is answered: 0 to 15.
pub fn mqtt_acl_answer_what(answer: u64) -> u8
    ensures { result ≡ (parts answer).what }
{
    (answer % 16) as u8
}

// The deciding rule, from 1; 0 where none decided.
pub fn mqtt_acl_answer_rule(answer: u64) -> u64
    ensures { result ≡ (parts answer).rule }
{
    match answer % 16 {
        2..=11 => answer / 16,
        _ => 0,
    }
}

// The earlier code that is kept; 0 where none is.
pub fn mqtt_acl_answer_code(answer: u64) -> u64
    ensures { result ≡ (parts answer).code }
{
    match answer % 16 {
        1 => answer / 16,
        _ => 0,
    }
}

// The number of document 01 by which a call is refused; 0 where it isn't.
pub fn mqtt_acl_answer_refusal(answer: u64) -> u8
    ensures { result ≡ (parts answer).refusal }
{
    match answer % 16 {
        0 => (answer / 16 % 256) as u8,
        _ => 0,
    }
}

// Its line; 0 where it has none.
pub fn mqtt_acl_answer_line(answer: u64) -> u64
    ensures { result ≡ (parts answer).line }
{
    match answer % 16 {
        0 => answer / 16 / 256,
        _ => 0,
    }
}

// The QoS of an allowed subscribe; 0 of anything else.
pub fn mqtt_acl_answer_qos(answer: u64) -> u8
    ensures { result ≡ (parts answer).qos }
{
    match answer % 16 {
        5 => 1,
        6 => 2,
        _ => 0,
    }
}

// Does an allowed connect carry the superuser flag?
pub fn mqtt_acl_answer_superuser(answer: u64) -> u8
    ensures { result ≡ yes (parts answer).superuser }
{
    yes(answer % 16 == 3)
}

// Does a refused publish carry the disconnect flag?
pub fn mqtt_acl_answer_disconnect(answer: u64) -> u8
    ensures { result ≡ yes (parts answer).disconnect }
{
    yes(answer % 16 == 10)
}

// Does the answer allow?
pub fn mqtt_acl_answer_allows(answer: u64) -> u8
    ensures { result ≡ yes (parts answer).allows }
{
    yes(matches!(answer % 16, 2..=7))
}

// The number by which opening is refused; 0 where it is done.
#[tactic(auto, using(crate::proofs::Reading::open_refusal_read))]
pub fn mqtt_acl_open_refusal(answer: u32) -> u8
    ensures { result ≡ open_refusal (read_open answer) }
{
    (answer % 256) as u8
}

// Its line; 0 where it has none.
#[tactic(auto, using(crate::proofs::Reading::open_line_read))]
pub fn mqtt_acl_open_line(answer: u32) -> u32
    ensures { result ≡ open_line (read_open answer) }
{
    answer / 256
}
