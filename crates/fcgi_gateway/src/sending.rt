//! What of a request is sent next.
ghost use Rattle.std.specs.Prelude.{◌≡◌, ◌≤◌, length};
ghost use Rattle.fcgi_gateway.specs.Sending.{behind_header_at, sending_after, header_before};

use fcgi_records::{STDIN, encode_header};

/// The most content that a record has.
pub const RECORD_SIZE: usize = 32_768;

/// What is sent next.
#[derive(Clone, Copy, Debug, PartialEq, Eq)]
pub(crate) enum Sending {
    /// What comes before the content of the body, of which so many bytes were taken.
    Lead(usize),
    /// Content of a record, of which so many bytes are still to be taken.
    Content(u64),
    /// The header of a further record, of which so many bytes were taken.
    Header([u8; 8], usize),
    /// Nothing: all was taken.
    Done,
}

// Behind the header of the record with which a body of so many bytes begins.
fn behind_header(body: u64) -> Sending
    ensures { result ≡ behind_header_at body }
{
    if body == 0 {
        return Sending::Done;
    }
    Sending::Content(body.min(RECORD_SIZE as u64))
}

// In front of the header of the record with which a body of so many bytes begins.
fn header_before(body: u64) -> Sending
    ensures { result ≡ header_before body }
{
    Sending::Header(encode_header(STDIN, body.min(RECORD_SIZE as u64) as u16), 0)
}

impl Sending {
    /// Once `n` more bytes were taken, where so many bytes come before the body, of which so many are left.
    pub(crate) fn after(self, n: usize, lead: usize, body: u64) -> Sending
        ensures { result ≡ sending_after n lead body self }
    {
        match self {
            Sending::Lead(taken) => {
                if n < lead.saturating_sub(taken) {
                    Sending::Lead(taken + n)
                } else {
                    behind_header(body)
                }
            }
            Sending::Content(left) => {
                if (n as u64) < left {
                    Sending::Content(left - n as u64)
                } else {
                    header_before(body)
                }
            }
            Sending::Header(header, taken) => {
                if n < 8_usize.saturating_sub(taken) {
                    Sending::Header(header, taken + n)
                } else {
                    behind_header(body)
                }
            }
            Sending::Done => Sending::Done,
        }
    }
}
