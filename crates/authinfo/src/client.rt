// Who asks the rules that came with his credentials, and what.
ghost use Rattle.std.specs.Prelude.{◌≡◌, false};
ghost use Rattle.authinfo.specs.Given.{given};
ghost use Rattle.authinfo.specs.Decision.{name_over};

use crate::Asked;
use std::marker::Model;

// A client: whether as a superuser, the id, and the user name, if there is one, by its length beside the slice, the form that document
// 01's 'Code places and their forms' asks for. A length past the slice's end means the whole slice.
#[derive(Debug, Drop)]
pub struct Client<'a> {
    pub(crate) superuser: bool,
    pub(crate) id: &'a [u8],
    pub(crate) name: Option<usize>,
    pub(crate) names: &'a [u8],
}

impl<'a> Model for Client<'a> {
    ghost use Rattle.authinfo.specs.Given.{given};
    ghost use Rattle.authinfo.specs.Decision.{Client};

    ghost Value = { Client };

    ghost view = { λ c. record { superuser = c.superuser; id = c.id.now; name = given c.name c.names.now } };
}

impl<'a> Client<'a> {
    pub fn new(superuser: bool, id: &'a [u8], name: Option<usize>, names: &'a [u8]) -> Client<'a>
        ensures { result ≡ record { superuser = superuser; id = id.now; name = given name names.now } }
    {
        Client {
            superuser,
            id,
            name,
            names,
        }
    }
}

// What is asked, on a topic, by a client whose name, if he has one, isn't over the limit.
#[derive(Clone, Copy)]
pub(crate) struct Question<'a> {
    pub(crate) client: &'a Client<'a>,
    pub(crate) asked: Asked,
    pub(crate) topic: &'a [u8],
    ghost name_fits: { name_over client.now.name ≡ false },
}
