//! The media type of a path, by what it ends in.
ghost use Rattle.std.specs.Prelude.{◌≡◌, length, option_map};
ghost use Rattle.static_files.specs.MediaTypes.{media_type_of, is_longest, better, mime, type_of, value_of};

use crate::locations::ends_in;
use crate::texts::text_in;
use conf_value::Pair;

/// The type of files of which nothing is known.
const UNKNOWN: &[u8] = b"application/octet-stream";

/// What a path ends in, and the type of such files.
#[derive(Clone, Copy)]
pub(crate) struct Entry<'a> {
    pub(crate) key: &'a [u8],
    pub(crate) value: &'a [u8],
}

/// A pair with a key and a text as its value; any other counts for nothing.
pub(crate) fn entry_of<'a>(pair: &'a Pair) -> Option<Entry<'a>>
    ensures { option_map type_of result ≡ media_type_of pair.now }
{
    let Some(key) = &pair.key else {
        return None;
    };
    match text_in(pair) {
        Some(value) => Some(Entry {
            key: key.bytes(),
            value,
        }),
        None => None,
    }
}

fn is_longest(key: &[u8], others: Option<Entry<'_>>) -> bool
    ensures { result ≡ is_longest key.now (option_map type_of others.entry) }
{
    match others {
        Some(other) => other.key.len() <= key.len(),
        None => true,
    }
}

/// An entry that may be, before the longest of those behind it.
pub(crate) fn better<'a>(
    path: &[u8],
    first: Option<Entry<'a>>,
    others: Option<Entry<'a>>,
) -> Option<Entry<'a>>
    ensures { option_map type_of result ≡ better path.now (option_map type_of first.entry) (option_map type_of others.entry) }
{
    let Some(entry) = first else {
        return others;
    };
    if ends_in(path, entry.key) && is_longest(entry.key, others) {
        Some(entry)
    } else {
        others
    }
}

pub(crate) fn value_of<'a>(best: Option<Entry<'a>>) -> &'a [u8]
    ensures { result.now ≡ value_of (option_map type_of best.entry) }
{
    match best {
        Some(entry) => entry.value,
        None => UNKNOWN,
    }
}

/// The media type of a path: the value of the longest key in which it ends, of the first such key where two are
/// equal, else `application/octet-stream`.
pub fn mime<'a>(types: &'a [Pair], path: &[u8]) -> &'a [u8]
    ensures { result.now ≡ mime types.now path.now }
{
    let mut best: Option<Entry<'a>> = None;
    let mut at = types.len();
    while at > 0 {
        at -= 1;
        best = better(path, entry_of(&types[at]), best);
    }
    value_of(best)
}
