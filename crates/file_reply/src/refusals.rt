//! What a request is answered without the bytes of a file.
ghost use Rattle.std.specs.Prelude.{◌≡◌, IfOk, option_map};
ghost use Rattle.file_reply.specs.Refusals as spec;

use crate::answers::{Answer, Content};
use conf_value::Pair;
use http_reply::Fields;
use lt_bytes::NoMemory;
use static_files::{is_excluded, location};
use std::alloc::Global;

fn in_words(status: u16, fields: Fields) -> Answer
    ensures { result ≡ record { status = status; fields = fields; content = Content.Phrase } }
{
    Answer {
        status,
        fields,
        content: Content::Phrase,
    }
}

/// A status in words, with no field of its own. It takes no memory.
pub fn plain(alloc: Global, status: u16) -> Answer
    ensures { result ≡ spec.plain status }
{
    in_words(status, Fields::new(alloc))
}

/// 301: the directory at this path is at the path with a slash behind it.
pub fn moved(alloc: Global, path: &[u8], query: &[u8]) -> Result<Answer, NoMemory>
    ensures { IfOk result (λ answer. answer ≡ spec.moved path.now query.now) }
{
    let location = location(alloc, path, query)?;
    let mut fields = Fields::new(alloc);
    fields.add_text(b"Location", location)?;
    Ok(in_words(301, fields))
}

/// 405: other methods are allowed.
fn not_allowed(alloc: Global) -> Result<Answer, NoMemory>
    ensures { IfOk result (λ answer. answer ≡ spec.not_allowed) }
{
    let mut fields = Fields::new(alloc);
    fields.add_constant(b"Allow", b"GET, HEAD")?;
    Ok(in_words(405, fields))
}

/// Whether a file answers this method.
pub fn is_served(method: &[u8]) -> bool
    ensures { result ≡ spec.is_served method.now }
{
    method == b"GET".as_slice() || method == b"HEAD".as_slice()
}

/// Why a file isn't opened that stands at this path: 403 where the path ends in one of the extensions, 405 where
/// another method is asked for than GET and HEAD. `None` where it is opened.
pub fn refusal(
    alloc: Global,
    extensions: &[Pair],
    path: &[u8],
    method: &[u8],
) -> Result<Option<Answer>, NoMemory>
    ensures { IfOk result (λ refused. refused ≡ spec.refusal extensions.now path.now method.now) }
{
    if is_excluded(extensions, path) {
        return Ok(Some(plain(alloc, 403)));
    }
    if is_served(method) {
        return Ok(None);
    }
    let refused = not_allowed(alloc)?;
    Ok(Some(refused))
}
