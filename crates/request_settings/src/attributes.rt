//! What conditions see of a request.
ghost use Rattle.std.specs.Prelude.{◌≡◌};
ghost use Rattle.conditions.specs.Attributes.{attributes_of};
ghost use Rattle.request_settings.specs.Attributes.{attributes_on};

use conditions::Attrs;
use http_head::Request;
use http_target::Target;
use lt_world::Address;

/// Where a client came from, and the address to which it came.
#[derive(Clone, Copy)]
pub struct Arrival {
    pub peer: Address,
    pub local: Address,
}

/// The attributes of a request on a target that it has or comes to have. The path of its file is not known.
pub fn attrs_of<'r>(arrival: Arrival, head: &'r Request, target: &'r Target) -> Attrs<'r>
    ensures { attributes_of result ≡ attributes_on arrival head.now target.now }
{
    Attrs {
        host: head.host.bytes(),
        url: target.path.bytes(),
        query: target.query.bytes(),
        method: head.method.bytes(),
        peer: arrival.peer,
        local: arrival.local,
        fields: &head.fields,
        physical: None,
    }
}
