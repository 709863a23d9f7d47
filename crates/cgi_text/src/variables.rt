//! The parameters of a request (RFC 3875, section 4.1).
ghost use Rattle.std.specs.Prelude.{◌≡◌, ◌++◌, codes, IfOk, OnOk};
ghost use Rattle.cgi_text.specs.Pairs.{pair_bytes, pairs_bytes};
ghost use Rattle.cgi_text.specs.Request.{ip_text, parts_of};
ghost use Rattle.cgi_text.specs.Params.{address_params, body_params, info_param, params, protocol, request_params, script_params, server_name};

use crate::address::push_ip;
use crate::pairs::{push_number_pair, push_pair, push_port_pair};
use crate::request::GateRequest;
use crate::values::{push_fields, push_type};
use http_header::CONTENT_TYPE;
use lt_bytes::{NoMemory, Text};
use std::alloc::Global;

/// Room for the parameters of most requests.
const TYPICAL_PARAMS: usize = 1_024;

/// Room for an IPv4 address in dotted decimal form.
const IP_ROOM: usize = 15;

/// The parameters of a request, as the content of a PARAMS stream: those of the server and of the
/// start line, of the script, of the two ends of the connection and of the body, then one for each
/// name of a field.
pub fn params(alloc: Global, request: &GateRequest<'_>) -> Result<Text, NoMemory>
    ensures { IfOk result (λ text. text ≡ params (parts_of request.now)) }
{
    let mut text = Text::with_capacity(alloc, TYPICAL_PARAMS)?;
    push_request(&mut text, request)?;
    push_script(alloc, &mut text, request)?;
    push_addresses(alloc, &mut text, request)?;
    push_body(alloc, &mut text, request)?;
    push_fields(alloc, &mut text, request.fields)?;
    Ok(text)
}

fn push_request(text: &mut Text, request: &GateRequest<'_>) -> Result<(), NoMemory>
    ensures { OnOk result (text.new ≡ text.old ++ pairs_bytes (request_params (parts_of request.now))) }
{
    push_pair(text, b"GATEWAY_INTERFACE", b"CGI/1.1")?;
    push_pair(text, b"SERVER_SOFTWARE", request.tag)?;
    push_pair(text, b"SERVER_PROTOCOL", protocol(request.minor))?;
    push_pair(text, b"REQUEST_METHOD", request.method)?;
    push_pair(text, b"REQUEST_URI", request.uri)?;
    push_pair(text, b"QUERY_STRING", request.query)
}

/// The version of the request.
fn protocol(minor: u8) -> &'static [u8]
    ensures { result.now ≡ protocol minor }
{
    if minor == 0 { b"HTTP/1.0" } else { b"HTTP/1.1" }
}

fn push_script(alloc: Global, text: &mut Text, request: &GateRequest<'_>) -> Result<(), NoMemory>
    ensures { OnOk result (text.new ≡ text.old ++ pairs_bytes (script_params (parts_of request.now))) }
{
    push_pair(text, b"DOCUMENT_ROOT", request.root)?;
    push_pair(text, b"SCRIPT_NAME", request.script)?;
    push_file(alloc, text, request.root, request.script)?;
    push_info(text, request.info)
}

/// Adds the script's place in the tree of files.
fn push_file(alloc: Global, text: &mut Text, root: &[u8], script: &[u8]) -> Result<(), NoMemory>
    ensures { OnOk result (text.new ≡ text.old ++ pair_bytes (codes "SCRIPT_FILENAME", root.now ++ script.now)) }
{
    let mut file = Text::from_bytes(alloc, root)?;
    file.push_all(script)?;
    push_pair(text, b"SCRIPT_FILENAME", file.bytes())
}

fn push_info(text: &mut Text, info: &[u8]) -> Result<(), NoMemory>
    ensures { OnOk result (text.new ≡ text.old ++ pairs_bytes (info_param info.now)) }
{
    if info.is_empty() {
        return Ok(());
    }
    push_pair(text, b"PATH_INFO", info)
}

fn push_addresses(alloc: Global, text: &mut Text, request: &GateRequest<'_>) -> Result<(), NoMemory>
    ensures { OnOk result (text.new ≡ text.old ++ pairs_bytes (address_params (parts_of request.now))) }
{
    push_server_name(alloc, text, request.host, request.local.ip)?;
    push_ip_pair(alloc, text, b"SERVER_ADDR", request.local.ip)?;
    push_port_pair(text, b"SERVER_PORT", request.local.port)?;
    push_ip_pair(alloc, text, b"REMOTE_ADDR", request.peer.ip)?;
    push_port_pair(text, b"REMOTE_PORT", request.peer.port)
}

/// Adds the host, or the server's address where the request names none.
fn push_server_name(
    alloc: Global,
    text: &mut Text,
    host: &[u8],
    ip: [u8; 4],
) -> Result<(), NoMemory>
    ensures { OnOk result (text.new ≡ text.old ++ pair_bytes (codes "SERVER_NAME", server_name host.now ip)) }
{
    if host.is_empty() {
        return push_ip_pair(alloc, text, b"SERVER_NAME", ip);
    }
    push_pair(text, b"SERVER_NAME", host)
}

fn push_ip_pair(alloc: Global, text: &mut Text, name: &[u8], ip: [u8; 4]) -> Result<(), NoMemory>
    ensures { OnOk result (text.new ≡ text.old ++ pair_bytes (name.now, ip_text ip)) }
{
    let value = dotted(alloc, ip)?;
    push_pair(text, name, value.bytes())
}

/// The address in dotted decimal form.
fn dotted(alloc: Global, ip: [u8; 4]) -> Result<Text, NoMemory>
    ensures { IfOk result (λ text. text ≡ ip_text ip) }
{
    let mut text = Text::with_capacity(alloc, IP_ROOM)?;
    push_ip(&mut text, ip)?;
    Ok(text)
}

fn push_body(alloc: Global, text: &mut Text, request: &GateRequest<'_>) -> Result<(), NoMemory>
    ensures { OnOk result (text.new ≡ text.old ++ pairs_bytes (body_params (parts_of request.now))) }
{
    push_number_pair(text, b"CONTENT_LENGTH", request.body_len)?;
    push_pair(text, b"REDIRECT_STATUS", b"200")?;
    push_type(alloc, text, request.fields, &CONTENT_TYPE)
}
