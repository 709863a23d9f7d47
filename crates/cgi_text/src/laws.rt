//! What the definitions come to, each law as the contract of a function.
ghost use Rattle.std.specs.Prelude.{◌≡◌, ◌≤◌, ◌<◌, ◌^◌, ℕ, List, Some, Ok, All, length, decimal};
ghost use Rattle.httparse.specs.Grammar.{Field, LineEnd, ReadsSection, print_section};
ghost use Rattle.http_head.specs.declared.limits.TheConstants.{FIELD_LINE_LIMIT, HEAD_LIMIT};
ghost use Rattle.http_reply.specs.Reading.{IsFieldLine};
ghost use Rattle.cgi_text.specs.declared.head.CgiHead.{CgiHead};
ghost use Rattle.cgi_text.specs.Pairs.{IsShort, PairList, pairs_bytes, read_pairs};
ghost use Rattle.cgi_text.specs.Request.{RequestParts, ip_text, parts_of};
ghost use Rattle.cgi_text.specs.Params.{params, params_limit, params_of};
ghost use Rattle.cgi_text.specs.Head.{IsHeadOf, cgi_head, fields_of, head_by};

use crate::request::GateRequest;

/// Pairs whose names and values are shorter than 2^31 bytes are read back from what is written.
pub fn pairs_are_read_back()
    ensures { (pairs : PairList) → All IsShort pairs → read_pairs (pairs_bytes pairs) ≡ Some pairs }
{}

/// The parameters of a request are read back where less than 2^31 bytes are written.
pub fn params_are_read_back()
    ensures { (r : RequestParts) → length (params r) < 2 ^ 31 → read_pairs (params r) ≡ Some (params_of r) }
{}

/// The parameters of a request are no longer than its texts and fields let them be.
pub fn params_are_bounded(request: &GateRequest<'_>)
    ensures { length (params (parts_of request.now)) ≤ params_limit (parts_of request.now) }
{
    ip_is_short(request.local.ip);
    ip_is_short(request.peer.ip);
    port_is_short(request.local.port);
    port_is_short(request.peer.port);
    number_is_short(request.body_len);
}

/// A head that is read is a section of the grammar with its fields, and ends behind it.
pub fn a_head_that_is_read_is_a_section()
    ensures { (bytes : List ℕ) (head : CgiHead) → cgi_head bytes ≡ Ok head → IsHeadOf bytes head }
{}

/// A section of the grammar within the limits is read, up to its end and with its fields.
pub fn a_section_is_read()
    ensures { (bytes : List ℕ) (fields : List Field) (last : LineEnd) (rest : List ℕ)
        → ReadsSection bytes fields last rest → length (print_section fields last) ≤ HEAD_LIMIT
        → length fields ≤ FIELD_LINE_LIMIT
        → cgi_head bytes ≡ head_by (length (print_section fields last)) (fields_of fields) }
{}

/// Each field that a client gets has a token as its name, and no CR, LF or NUL in its value: none begins
/// another line, and heads with them are read as they were spelled, by the laws of `http_reply`.
pub fn no_field_that_is_passed_on_breaks_its_line()
    ensures { (bytes : List ℕ) (head : CgiHead) → cgi_head bytes ≡ Ok head → All IsFieldLine head.fields }
{}

fn ip_is_short(ip: [u8; 4])
    ensures { length (ip_text ip) ≤ 15 }
{
    octet_is_short(ip[0]);
    octet_is_short(ip[1]);
    octet_is_short(ip[2]);
    octet_is_short(ip[3]);
}

fn octet_is_short(octet: u8)
    ensures { length (decimal octet) ≤ 3 }
{}

fn port_is_short(port: u16)
    ensures { length (decimal port) ≤ 5 }
{}

fn number_is_short(number: u64)
    ensures { length (decimal number) ≤ 20 }
{}
