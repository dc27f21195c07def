// What a host reads from the number that a call answered: what is answered, and its rule, code, refusal, line, QoS or flag. Any number
// is taken, and its parts are those of specs/Unpacked.antt; a question's answer is widened to 64 bits.
ghost use Rattle.std.specs.Prelude.{◌≡◌};
ghost use Rattle.mqtt_acl.specs.Rules.{yes};
ghost use Rattle.mqtt_acl.specs.Unpacked.{parts, read_open, open_refusal, open_line};

// What is answered: 0 to 15.
#[unsafe(no_mangle)]
pub extern "C" fn mqtt_acl_answer_what(answer: u64) -> u8
    ensures { result ≡ (parts answer).what }
{
    mqtt_acl::unpacking::mqtt_acl_answer_what(answer)
}

// The deciding rule, from 1; 0 where none decided.
#[unsafe(no_mangle)]
pub extern "C" fn mqtt_acl_answer_rule(answer: u64) -> u64
    ensures { result ≡ (parts answer).rule }
{
    mqtt_acl::unpacking::mqtt_acl_answer_rule(answer)
}

// The earlier code that is kept; 0 where none is.
#[unsafe(no_mangle)]
pub extern "C" fn mqtt_acl_answer_code(answer: u64) -> u64
    ensures { result ≡ (parts answer).code }
{
    mqtt_acl::unpacking::mqtt_acl_answer_code(answer)
}

// The number of document 01 by which a call is refused; 0 where it isn't.
#[unsafe(no_mangle)]
pub extern "C" fn mqtt_acl_answer_refusal(answer: u64) -> u8
    ensures { result ≡ (parts answer).refusal }
{
    mqtt_acl::unpacking::mqtt_acl_answer_refusal(answer)
}

// Its line; 0 where it has none.
#[unsafe(no_mangle)]
pub extern "C" fn mqtt_acl_answer_line(answer: u64) -> u64
    ensures { result ≡ (parts answer).line }
{
    mqtt_acl::unpacking::mqtt_acl_answer_line(answer)
}

// The QoS of an allowed subscribe; 0 of anything else.
#[unsafe(no_mangle)]
pub extern "C" fn mqtt_acl_answer_qos(answer: u64) -> u8
    ensures { result ≡ (parts answer).qos }
{
    mqtt_acl::unpacking::mqtt_acl_answer_qos(answer)
}

// Does an allowed connect carry the superuser flag?
#[unsafe(no_mangle)]
pub extern "C" fn mqtt_acl_answer_superuser(answer: u64) -> u8
    ensures { result ≡ yes (parts answer).superuser }
{
    mqtt_acl::unpacking::mqtt_acl_answer_superuser(answer)
}

// Does a refused publish carry the disconnect flag?
#[unsafe(no_mangle)]
pub extern "C" fn mqtt_acl_answer_disconnect(answer: u64) -> u8
    ensures { result ≡ yes (parts answer).disconnect }
{
    mqtt_acl::unpacking::mqtt_acl_answer_disconnect(answer)
}

// Does the answer allow?
#[unsafe(no_mangle)]
pub extern "C" fn mqtt_acl_answer_allows(answer: u64) -> u8
    ensures { result ≡ yes (parts answer).allows }
{
    mqtt_acl::unpacking::mqtt_acl_answer_allows(answer)
}

// The number by which opening is refused; 0 where it is done.
#[unsafe(no_mangle)]
pub extern "C" fn mqtt_acl_open_refusal(answer: u32) -> u8
    ensures { result ≡ open_refusal (read_open answer) }
{
    mqtt_acl::unpacking::mqtt_acl_open_refusal(answer)
}

// Its line; 0 where it has none.
#[unsafe(no_mangle)]
pub extern "C" fn mqtt_acl_open_line(answer: u32) -> u32
    ensures { result ≡ open_line (read_open answer) }
{
    mqtt_acl::unpacking::mqtt_acl_open_line(answer)
}
