//! The normal form of a path.
ghost use Rattle.std.specs.Prelude.{◌≡◌, [], map, IfOk, OnOk};
ghost use Rattle.http_target.specs.Path.{is_dropped, is_up, is_open, keep, kept_of, last_of, segments, spell, normal};

use lt_bytes::{NoMemory, Text};
use std::alloc::Global;

fn is_dropped(segment: &[u8]) -> bool
    ensures { result ≡ is_dropped segment.now }
{
    segment.is_empty() || segment == b".".as_slice()
}

fn is_up(segment: &[u8]) -> bool
    ensures { result ≡ is_up segment.now }
{
    segment == b"..".as_slice()
}

fn is_open(segment: &[u8]) -> bool
    ensures { result ≡ is_open segment.now }
{
    is_dropped(segment) || is_up(segment)
}

/// Takes one more segment.
fn keep<'a>(kept: &mut Vec<&'a [u8]>, segment: &'a [u8]) -> Result<(), NoMemory>
    ensures { OnOk result (map (λ s. s.now) kept.new.items ≡ keep (map (λ s. s.now) kept.old.items) segment.now) }
{
    if is_dropped(segment) {
        return Ok(());
    }
    if is_up(segment) {
        let _ = kept.pop();
        return Ok(());
    }
    kept.push(segment)?;
    Ok(())
}

/// The names on the way to where the path leads, and whether it names a directory.
fn names_of<'a>(alloc: Global, path: &'a [u8]) -> Result<(Vec<&'a [u8]>, bool), NoMemory>
    ensures names { IfOk result (λ r. map (λ s. s.now) r.0.items ≡ kept_of path.now) }
    ensures directory { IfOk result (λ r. r.1 ≡ is_open (last_of (segments path.now))) }
{
    let mut kept = Vec::new(alloc);
    let mut last: &[u8] = &[];
    for segment in path.split(|b| *b == b'/') {
        keep(&mut kept, segment)?;
        last = segment;
    }
    Ok((kept, is_open(last)))
}

// Room for so many bytes is taken at once.
fn spell(alloc: Global, names: &[&[u8]], directory: bool, room: usize) -> Result<Text, NoMemory>
    ensures { IfOk result (λ text. text ≡ spell (map (λ s. s.now) names.now) directory) }
{
    let mut text = Text::with_capacity(alloc, room)?;
    for name in names {
        text.push_all(b"/".as_slice())?;
        text.push_all(*name)?;
    }
    if directory || names.is_empty() {
        text.push_all(b"/".as_slice())?;
    }
    Ok(text)
}

/// The path in normal form: it begins with a slash, and has no segment that is empty, `.` or
/// `..`, but for the empty one after the final slash of a directory.
pub fn normal(alloc: Global, path: &[u8]) -> Result<Text, NoMemory>
    ensures { IfOk result (λ text. text ≡ normal path.now) }
{
    let (names, directory) = names_of(alloc, path)?;
    spell(alloc, names.as_slice(), directory, path.len().max(1))
}
