//! What a request settles of its reply's form.
ghost use Rattle.std.specs.Prelude.{◌≡◌, option_map};
ghost use Rattle.server_model.specs.Settings.{is_last_request, is_reached};
ghost use Rattle.server_model.specs.Plan.{is_head};
ghost use Rattle.request_plan.specs.Form.{form_of, refused_form};

use http_head::Request;

/// How the reply to a request is spelled, whatever it says.
#[derive(Clone, Copy)]
pub struct Form {
    /// The version is HTTP/1 and this.
    pub minor: u8,
    /// No further request is served on the connection.
    pub last: bool,
    /// HEAD asks for the head alone.
    pub head_only: bool,
}

impl Form {
    /// That of the reply to a request of this number, counted from 0, where a connection may send so many.
    pub fn of(request: &Request, number: u32, limit: u64) -> Form
        ensures form { result ≡ form_of limit number request.now }
    {
        Form {
            minor: request.minor,
            last: is_last(request, number, limit),
            head_only: is_head(request),
        }
    }

    /// That of the reply to a request that is refused, of which the head was read or not: it is the last.
    pub fn of_refused(request: Option<&Request>) -> Form
        ensures form { result ≡ refused_form (option_map (λ r. r.now) request.entry) }
    {
        match request {
            Some(request) => Form {
                minor: request.minor,
                last: true,
                head_only: is_head(request),
            },
            None => Form {
                minor: 1,
                last: true,
                head_only: false,
            },
        }
    }
}

fn is_last(request: &Request, number: u32, limit: u64) -> bool
    ensures { result ≡ is_last_request limit number request.now }
{
    request.close || is_reached(number, limit)
}

fn is_reached(number: u32, limit: u64) -> bool
    ensures { result ≡ is_reached limit number }
{
    number >= u32::MAX || u64::from(number) + 1 >= limit
}

pub(crate) fn is_head(request: &Request) -> bool
    ensures { result ≡ is_head request.now.method }
{
    request.method.bytes() == b"HEAD".as_slice()
}
