// The per-client rules for a host: subscribe and publish by the rules that came with a client's credentials, and whether these still hold.
// Answers are the numbers of specs/Clients.antt; an optional value counts where its flag is true.
ghost use Rattle.std.specs.Prelude.{◌≡◌};
ghost use Rattle.authinfo.specs.Decision as decision;
ghost use Rattle.authinfo.specs.Expiry as expiry;
ghost use Rattle.mqtt_acl.specs.Rules.{where_true, flag};
ghost use Rattle.mqtt_acl.specs.Clients as clients;

// May the client subscribe to the topic, by its rules?
#[unsafe(no_mangle)]
pub extern "C" fn mqtt_acl_client_subscribe(
    superuser: u8,
    id: &[u8],
    has_name: u8,
    name: &[u8],
    rules: &[u8],
    topic: &[u8],
    qos: u64,
) -> u64
    ensures { result ≡ clients.packed (decision.ask (record { superuser = flag superuser; id = id.now; name = where_true (flag has_name) name.now }) rules.now (decision.subscribe qos topic.now)) }
{
    mqtt_acl::clients::mqtt_acl_client_subscribe(superuser, id, has_name, name, rules, topic, qos)
}

// May the client publish to the topic, by its rules? A refusal by a rule carries the disconnect flag.
#[unsafe(no_mangle)]
pub extern "C" fn mqtt_acl_client_publish(
    superuser: u8,
    id: &[u8],
    has_name: u8,
    name: &[u8],
    rules: &[u8],
    topic: &[u8],
    qos: u64,
    retain: u8,
    disconnect: u8,
) -> u64
    ensures { result ≡ clients.packed (decision.ask (record { superuser = flag superuser; id = id.now; name = where_true (flag has_name) name.now }) rules.now (decision.publish qos (flag retain) (flag disconnect) topic.now)) }
{
    mqtt_acl::clients::mqtt_acl_client_publish(
        superuser, id, has_name, name, rules, topic, qos, retain, disconnect,
    )
}

// Are the credentials expired now, at these seconds and nanoseconds?
#[unsafe(no_mangle)]
pub extern "C" fn mqtt_acl_expired(
    has_expiry: u8,
    expiry_seconds: u64,
    expiry_nanoseconds: u64,
    seconds: u64,
    nanoseconds: u64,
) -> u64
    ensures { result ≡ clients.expiry_number (expiry.expiry (clients.expiry_of (flag has_expiry) expiry_seconds expiry_nanoseconds) (record { seconds = seconds; nanoseconds = nanoseconds })) }
{
    mqtt_acl::clients::mqtt_acl_expired(
        has_expiry,
        expiry_seconds,
        expiry_nanoseconds,
        seconds,
        nanoseconds,
    )
}
