// Who asks, and whether a rule means him (document 01, Identity).
ghost use Rattle.std.specs.Prelude.{◌≡◌};
ghost use Rattle.std.specs.Option.{option_copied};
ghost use Rattle.rule.specs.Agreement as agree;

use crate::{User, Users};
use json_text::strings::string_is;
use std::marker::Model;

// A client as a caller lends him: the id, and what else is given.
#[derive(Debug, Drop)]
pub struct Client<'a> {
    id: &'a [u8],
    name: Option<&'a [u8]>,
    password: Option<&'a [u8]>,
    address: Option<&'a [u8]>,
    protocol: Option<u8>,
}

impl<'a> Model for Client<'a> {
    ghost use Rattle.std.specs.Option.{option_copied};
    ghost use Rattle.rule.specs.Identity.{Client};

    ghost Value = { Client };

    ghost view = { λ c. record { id = c.id.now; name = option_copied c.name; password = option_copied c.password; address = option_copied c.address; protocol = c.protocol } };
}

impl<'a> Client<'a> {
    pub fn new(
        id: &'a [u8],
        name: Option<&'a [u8]>,
        password: Option<&'a [u8]>,
        address: Option<&'a [u8]>,
        protocol: Option<u8>,
    ) -> Client<'a>
        ensures { result ≡ record { id = id.now; name = option_copied name.entry; password = option_copied password.entry; address = option_copied address.entry; protocol = protocol } }
    {
        Client {
            id,
            name,
            password,
            address,
            protocol,
        }
    }

    pub fn id(&self) -> &[u8]
        ensures { result.now ≡ self.now.id }
    {
        self.id
    }

    pub fn name(&self) -> Option<&[u8]>
        ensures { option_copied result ≡ self.now.name }
    {
        self.name
    }

    pub fn password(&self) -> Option<&[u8]>
        ensures { option_copied result ≡ self.now.password }
    {
        self.password
    }

    pub fn address(&self) -> Option<&[u8]>
        ensures { option_copied result ≡ self.now.address }
    {
        self.address
    }
}

// Is the string at this place a text that is given?
#[tactic(auto, unfolding(crate::specs::Agreement::is_given))]
fn is_given(line: &[u8], at: usize, given: Option<&[u8]>) -> bool
    ensures { result ≡ agree.is_given line.now at (option_copied given.entry) }
{
    given.is_some_and(|text| string_is(line, at, text))
}

// A listed string, if there is one, is a text that is given. By `is_none_or` the proof didn't close.
#[tactic(auto, unfolding(crate::specs::Agreement::place_agrees, crate::specs::Identity::if_listed))]
fn place_agrees(line: &[u8], at: Option<usize>, given: Option<&[u8]>) -> bool
    ensures { result ≡ agree.place_agrees line.now at (option_copied given.entry) }
{
    match at {
        Some(p) => is_given(line, p, given),
        None => true,
    }
}

// The listed name, if there is one, is given, and so is its password.
#[tactic(auto, unfolding(crate::specs::Agreement::user_place_agrees, crate::specs::Identity::if_listed))]
fn user_agrees(line: &[u8], user: Option<User>, client: &Client) -> bool
    ensures { result ≡ agree.user_place_agrees line.now user client.now.name client.now.password }
{
    let Some(user) = user else {
        return true;
    };
    is_given(line, user.name, client.name) && place_agrees(line, user.password, client.password)
}

#[tactic(auto, unfolding(crate::specs::Agreement::protocol_agrees, crate::specs::Identity::if_listed, crate::specs::Identity::is_number))]
fn protocol_agrees(listed: Option<u8>, protocol: Option<u8>) -> bool
    ensures { result ≡ agree.protocol_agrees listed protocol }
{
    listed.is_none() || listed == protocol
}

// "The superuser flag is that of the last listed user, and only a name carries one."
#[tactic(auto, unfolding(crate::specs::Agreement::flag_of, crate::specs::Agreement::flag_of_user))]
fn flag(users: Users) -> bool
    ensures { result ≡ agree.flag_of users }
{
    match users {
        Users {
            user: Some(user),
            clientid: None,
            ipaddr: None,
            protocol: None,
        } => user.superuser,
        _ => false,
    }
}

// The superuser flag, if the listed users agree with the client.
#[tactic(auto, unfolding(crate::specs::Agreement::identity_at))]
pub fn identity(line: &[u8], users: Users, client: &Client) -> Option<bool>
    ensures { result ≡ agree.identity_at line.now users client.now }
{
    let agrees = user_agrees(line, users.user, client)
        && place_agrees(line, users.clientid, Some(client.id))
        && place_agrees(line, users.ipaddr, client.address)
        && protocol_agrees(users.protocol, client.protocol);
    agrees.then_some(flag(users))
}
