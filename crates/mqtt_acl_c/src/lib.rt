// The library for C and Rust as an archive: each function of mqtt_acl under its own name and by the calling convention of C, with the
// same contract. It is written here again, since a function has its own clauses alone. A lent text, and a store, crosses as its address and
// its length, a flag as a byte.
#![tactic(auto)]

mod clients;
mod hosts;
mod unpacking;

ghost use Rattle.std.specs.Prelude.{◌≡◌, length, Some};
ghost use Rattle.std.specs.Option.{option_map};
ghost use Rattle.json_text.specs.Json.{line_value};
ghost use Rattle.json_text.specs.Access.{is_document, document_within};
ghost use Rattle.topic.specs.Topic as spec;
ghost use Rattle.store.specs.Opening as opening;
ghost use Rattle.store.specs.View.{view};
ghost use Rattle.events.specs.Event as event;
ghost use Rattle.questions.specs.Question as question;
ghost use Rattle.questions.specs.Decision.{ask};
ghost use Rattle.mqtt_acl.specs.Rules as rules;
ghost use Rattle.mqtt_acl.specs.Answers as answers;

// The version of the library: 10,000 times its first number, 100 times its second, and its third.
#[unsafe(no_mangle)]
pub extern "C" fn mqtt_acl_version() -> u32
    ensures { result ≡ rules.version }
{
    mqtt_acl::mqtt_acl_version()
}

// Is the text a valid filter?
#[unsafe(no_mangle)]
pub extern "C" fn mqtt_acl_valid_filter(text: &[u8]) -> u8
    ensures { result ≡ rules.yes (spec.valid_filter text.now) }
{
    mqtt_acl::mqtt_acl_valid_filter(text)
}

// Tree match T: does the filter take the checked text?
#[unsafe(no_mangle)]
pub extern "C" fn mqtt_acl_tree_match(filter: &[u8], text: &[u8]) -> u8
    ensures { result ≡ rules.yes (spec.tree_match filter.now text.now) }
{
    mqtt_acl::mqtt_acl_tree_match(filter, text)
}

// Plain match P: does the filter take the checked text?
#[unsafe(no_mangle)]
pub extern "C" fn mqtt_acl_plain_match(filter: &[u8], text: &[u8]) -> u8
    ensures { result ≡ rules.yes (spec.plain_match filter.now text.now) }
{
    mqtt_acl::mqtt_acl_plain_match(filter, text)
}

// Is the line one of document 01's JSON documents?
#[unsafe(no_mangle)]
pub extern "C" fn mqtt_acl_is_document(line: &[u8]) -> u8
    ensures { result ≡ rules.yes (is_document (line_value line.now)) }
{
    mqtt_acl::mqtt_acl_is_document(line)
}

// And one whose decoded strings, member names included, have at most this many bytes?
#[unsafe(no_mangle)]
pub extern "C" fn mqtt_acl_is_document_within(line: &[u8], most: usize) -> u8
    ensures { result ≡ rules.yes (document_within most (line_value line.now)) }
{
    mqtt_acl::mqtt_acl_is_document_within(line, most)
}

// The number of document 01 for a rule line that is refused, 0 for a rule.
#[unsafe(no_mangle)]
pub extern "C" fn mqtt_acl_rule_refusal(line: &[u8]) -> u8
    ensures { result ≡ rules.refusal_of line.now }
{
    mqtt_acl::mqtt_acl_rule_refusal(line)
}

// Do the users that the line's rule lists agree with the client? 0: they differ; 1: they agree; 2: they agree, with the superuser
// flag; 3: the line is no rule. An optional text, and the protocol, counts where its flag is true.
#[unsafe(no_mangle)]
pub extern "C" fn mqtt_acl_identity(
    line: &[u8],
    id: &[u8],
    has_name: u8,
    name: &[u8],
    has_password: u8,
    password: &[u8],
    has_address: u8,
    address: &[u8],
    has_protocol: u8,
    protocol: u8,
) -> u8
    ensures { result ≡ rules.identity_of line.now id.now (rules.where_true (rules.flag has_name) name.now) (rules.where_true (rules.flag has_password) password.now) (rules.where_true (rules.flag has_address) address.now) (rules.where_true (rules.flag has_protocol) protocol) }
{
    mqtt_acl::mqtt_acl_identity(
        line,
        id,
        has_name,
        name,
        has_password,
        password,
        has_address,
        address,
        has_protocol,
        protocol,
    )
}

// Opens a store for a rule text: 0 done, else the number of document 01 plus 256 times the line. Refused, the store is unchanged.
#[unsafe(no_mangle)]
pub extern "C" fn mqtt_acl_open(
    store: &mut [u8],
    bytes: u64,
    filters: u64,
    eqs: u64,
    notes: u64,
    text: &[u8],
) -> u32
    ensures value { result ≡ answers.open_number (option_map opening.told (opening.open_fault (record { bytes = bytes; filters = filters; eqs = eqs; notes = notes }) text.now (length store.old))) }
    ensures store_after { store.new ≡ opening.after_open (record { bytes = bytes; filters = filters; eqs = eqs; notes = notes }) text.now store.old }
{
    mqtt_acl::mqtt_acl_open(store, bytes, filters, eqs, notes, text)
}

// A client has connected: 0 done, else the number of document 01, and the store is unchanged. The name counts where its flag is true.
#[unsafe(no_mangle)]
pub extern "C" fn mqtt_acl_connected(
    store: &mut [u8],
    session: u64,
    id: &[u8],
    has_name: u8,
    name: &[u8],
) -> u8
    ensures value { result ≡ answers.event_number (event.cause (event.connected session id.now (rules.where_true (rules.flag has_name) name.now)) (view store.old)) }
    ensures store_after { store.new ≡ event.after (event.connected session id.now (rules.where_true (rules.flag has_name) name.now)) store.old }
{
    mqtt_acl::mqtt_acl_connected(store, session, id, has_name, name)
}

// A client has disconnected: answers as above.
#[unsafe(no_mangle)]
pub extern "C" fn mqtt_acl_disconnected(store: &mut [u8], session: u64, id: &[u8]) -> u8
    ensures value { result ≡ answers.event_number (event.cause (event.disconnected session id.now) (view store.old)) }
    ensures store_after { store.new ≡ event.after (event.disconnected session id.now) store.old }
{
    mqtt_acl::mqtt_acl_disconnected(store, session, id)
}

// A session has ended: answers as above.
#[unsafe(no_mangle)]
pub extern "C" fn mqtt_acl_ended(store: &mut [u8], session: u64) -> u8
    ensures value { result ≡ answers.event_number (event.cause (event.ended session) (view store.old)) }
    ensures store_after { store.new ≡ event.after (event.ended session) store.old }
{
    mqtt_acl::mqtt_acl_ended(store, session)
}

// May the client connect? The answer is `packed` of specs/Answers.antt: what is answered below 16, the rule 16 times. An optional text counts
// where its flag is true.
#[unsafe(no_mangle)]
pub extern "C" fn mqtt_acl_connect(
    store: &[u8],
    earlier: u64,
    id: &[u8],
    has_name: u8,
    name: &[u8],
    has_password: u8,
    password: &[u8],
    has_address: u8,
    address: &[u8],
    protocol: u8,
) -> u32
    ensures { result ≡ answers.packed (ask (question.connect earlier (record { id = id.now; name = rules.where_true (rules.flag has_name) name.now; password = rules.where_true (rules.flag has_password) password.now; address = rules.where_true (rules.flag has_address) address.now; protocol = Some protocol })) store.now) }
{
    mqtt_acl::mqtt_acl_connect(
        store,
        earlier,
        id,
        has_name,
        name,
        has_password,
        password,
        has_address,
        address,
        protocol,
    )
}

// May the client subscribe to the topic? The protocol counts where its flag is true.
#[unsafe(no_mangle)]
pub extern "C" fn mqtt_acl_subscribe(
    store: &[u8],
    earlier: u64,
    id: &[u8],
    has_name: u8,
    name: &[u8],
    has_password: u8,
    password: &[u8],
    has_address: u8,
    address: &[u8],
    has_protocol: u8,
    protocol: u8,
    topic: &[u8],
    qos: u64,
) -> u32
    ensures { result ≡ answers.packed (ask (question.subscribe earlier (record { id = id.now; name = rules.where_true (rules.flag has_name) name.now; password = rules.where_true (rules.flag has_password) password.now; address = rules.where_true (rules.flag has_address) address.now; protocol = rules.where_true (rules.flag has_protocol) protocol }) topic.now qos) store.now) }
{
    mqtt_acl::mqtt_acl_subscribe(
        store,
        earlier,
        id,
        has_name,
        name,
        has_password,
        password,
        has_address,
        address,
        has_protocol,
        protocol,
        topic,
        qos,
    )
}

// May the client publish to the topic? A refusal by a rule carries the disconnect flag.
#[unsafe(no_mangle)]
pub extern "C" fn mqtt_acl_publish(
    store: &[u8],
    earlier: u64,
    id: &[u8],
    has_name: u8,
    name: &[u8],
    has_password: u8,
    password: &[u8],
    has_address: u8,
    address: &[u8],
    has_protocol: u8,
    protocol: u8,
    topic: &[u8],
    disconnect: u8,
) -> u32
    ensures { result ≡ answers.packed (ask (question.publish earlier (record { id = id.now; name = rules.where_true (rules.flag has_name) name.now; password = rules.where_true (rules.flag has_password) password.now; address = rules.where_true (rules.flag has_address) address.now; protocol = rules.where_true (rules.flag has_protocol) protocol }) topic.now (rules.flag disconnect)) store.now) }
{
    mqtt_acl::mqtt_acl_publish(
        store,
        earlier,
        id,
        has_name,
        name,
        has_password,
        password,
        has_address,
        address,
        has_protocol,
        protocol,
        topic,
        disconnect,
    )
}
