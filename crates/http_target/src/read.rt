//! What a request target says.
ghost use Rattle.std.specs.Prelude.{◌≡◌, ◌↔◌, ◌||◌, ◌≤◌, ◌==◌, length, None, Some, IfOk, IsErrOf, option_map};
ghost use Rattle.std.specs.List.{list_any, position_or_len};
ghost use Rattle.percent_encoding.specs.Percent as spec;
ghost use Rattle.http_target.specs.Target.{has_scheme, ends_authority, authority_of, after_authority, begins_with_slash, raw_of, without_fragment, sent_path_of, query_of, decoded_path_of, is_control, is_bad, target_of};
ghost use Rattle.http_target.specs.Path.{normal};

use crate::path::normal;
use lt_bytes::{NoMemory, Text, same_word};
use percent_encoding::percent_decode;
use std::alloc::Global;

/// A request target in origin form.
#[derive(Drop)]
pub struct Target {
    /// The target without scheme and authority, with its fragment.
    pub raw: Text,
    /// The decoded path in normal form.
    pub path: Text,
    /// The query as it was sent.
    pub query: Text,
}

/// Why a target is refused.
#[derive(Clone, Copy, Debug, PartialEq, Eq)]
pub enum TargetRefusal {
    BadTarget,
    NoMemory,
}

impl From<NoMemory> for TargetRefusal {
    ghost use Rattle.http_target.specs.declared.read.TargetRefusal.TheVariants.{NoMemory};

    ghost from_gives = { λ _ e. e ≡ NoMemory };

    fn from(_want: NoMemory) -> TargetRefusal {
        TargetRefusal::NoMemory
    }
}

/// The scheme of an absolute form, in any case.
const SCHEME: &[u8] = b"http://";

fn has_scheme(sent: &[u8]) -> bool
    ensures { result ≡ has_scheme sent.now }
{
    sent.len() >= SCHEME.len() && same_word(&sent[..SCHEME.len()], SCHEME)
}

/// How many bytes stand before the first `mark`.
fn length_before(bytes: &[u8], mark: u8) -> usize
    ensures value { result ≡ position_or_len (λ b. b == mark) bytes.now }
    ensures within { result ≤ length bytes.now }
{
    bytes.iter().position(|b| *b == mark).unwrap_or(bytes.len())
}

/// How long the authority at the front is.
fn authority_length(bytes: &[u8]) -> usize
    ensures value { result ≡ position_or_len ends_authority bytes.now }
    ensures within { result ≤ length bytes.now }
{
    bytes
        .iter()
        .position(|b| *b == b'/' || *b == b'?' || *b == b'#')
        .unwrap_or(bytes.len())
}

/// The authority of a target in absolute form, which takes the place of the Host field's value.
pub fn authority(sent: &[u8]) -> Option<&[u8]>
    ensures { option_map (λ bytes. bytes.now) result ≡ authority_of sent.now }
{
    if has_scheme(sent) {
        let rest = &sent[SCHEME.len()..];
        Some(&rest[..authority_length(rest)])
    } else {
        None
    }
}

/// What follows scheme and authority.
fn after_authority(sent: &[u8]) -> &[u8]
    ensures { result.now ≡ after_authority sent.now }
{
    if has_scheme(sent) {
        let rest = &sent[SCHEME.len()..];
        &rest[authority_length(rest)..]
    } else {
        sent
    }
}

fn begins_with_slash(bytes: &[u8]) -> bool
    ensures { result ≡ begins_with_slash bytes.now }
{
    match bytes {
        [first, ..] => *first == b'/',
        [] => false,
    }
}

fn without_fragment(raw: &[u8]) -> &[u8]
    ensures { result.now ≡ without_fragment raw.now }
{
    &raw[..length_before(raw, b'#')]
}

fn sent_path(raw: &[u8]) -> &[u8]
    ensures { result.now ≡ sent_path_of raw.now }
{
    let whole = without_fragment(raw);
    &whole[..length_before(whole, b'?')]
}

fn query_bytes(raw: &[u8]) -> &[u8]
    ensures { result.now ≡ query_of raw.now }
{
    let whole = without_fragment(raw);
    let at = length_before(whole, b'?');
    if at < whole.len() {
        &whole[at + 1..]
    } else {
        &[]
    }
}

fn is_control(byte: u8) -> bool
    ensures { result ≡ is_control byte }
{
    byte < 32 || byte == 127
}

fn has_control(path: &[u8]) -> bool
    ensures { result ≡ list_any is_control (spec.percent_decode path.now) }
{
    percent_decode(path).any(|byte| is_control(byte))
}

/// Whether the target is in origin form once scheme and authority are taken off.
fn has_origin_form(sent: &[u8]) -> bool
    ensures { result ≡ (has_scheme sent.now || begins_with_slash (after_authority sent.now)) }
{
    has_scheme(sent) || begins_with_slash(after_authority(sent))
}

/// Whether the target is refused. Takes no memory: the slash that may stand in front is no control
/// byte.
fn is_bad(sent: &[u8]) -> bool
    ensures { result ≡ is_bad (raw_of sent.now) }
{
    !has_origin_form(sent) || has_control(sent_path(after_authority(sent)))
}

/// The target in origin form.
fn raw(alloc: Global, sent: &[u8]) -> Result<Text, NoMemory>
    ensures { IfOk result (λ text. text ≡ raw_of sent.now) }
{
    let rest = after_authority(sent);
    let mut raw = Text::new(alloc);
    if has_scheme(sent) && !begins_with_slash(rest) {
        raw.push_all(b"/".as_slice())?;
    }
    raw.push_all(rest)?;
    Ok(raw)
}

/// The decoded path in normal form.
fn path(alloc: Global, raw: &[u8]) -> Result<Text, NoMemory>
    ensures { IfOk result (λ text. text ≡ normal (decoded_path_of raw.now)) }
{
    let decoded = percent_decode(sent_path(raw)).into_cow(alloc)?;
    normal(alloc, decoded.as_slice())
}

/// What a request target says. A refusal other than for want of memory comes before any memory is
/// taken.
pub fn read_target(alloc: Global, sent: &[u8]) -> Result<Target, TargetRefusal>
    ensures value { IfOk result (λ target. target_of sent.now ≡ Some target) }
    ensures bad { IsErrOf result TargetRefusal.BadTarget ↔ (target_of sent.now ≡ None) }
{
    if is_bad(sent) {
        return Err(TargetRefusal::BadTarget);
    }
    let raw = raw(alloc, sent)?;
    let path = path(alloc, raw.bytes())?;
    let query = Text::from_bytes(alloc, query_bytes(raw.bytes()))?;
    Ok(Target { raw, path, query })
}
