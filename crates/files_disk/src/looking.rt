//! A look at what stands at a path.
ghost use Rattle.std.specs.Prelude.{◌≡◌};
ghost use Rattle.lt_world.specs.Disk.{ends_in_slash};
ghost use Rattle.lt_world.specs.FileAnswers.{FoundWithin};
ghost use Rattle.files_disk.specs.Looking.{IsSeen};

use crate::names::name_of;
use crate::refusals::{Refusal, refusal_of};
use lt_world::Found;
use std::fs::Metadata;
use std::os::unix::fs::MetadataExt;
use std::{fs, rt};

/// A file has fewer bytes than this.
const SIZE_LIMIT: u64 = 1 << 62;

/// What stands at a path, by one call of the system, which follows symbolic links.
pub fn look<R: rt::Files>(rt: &R, path: &[u8]) -> Found
    ensures { FoundWithin result path.now }
{
    let Some(name) = name_of(path) else {
        return Found::Missing;
    };
    match fs::metadata(rt, name) {
        Ok(metadata) => seen(&metadata, path),
        Err(error) => match refusal_of(&error) {
            Refusal::Missing => Found::Missing,
            Refusal::Failed => Found::Failed,
            Refusal::NoMemory => Found::NoMemory,
        },
    }
}

/// What the metadata of a path mean. Of files only regular ones count: nothing stands where a pipe, a socket or a
/// device does.
pub fn seen(metadata: &Metadata, path: &[u8]) -> Found
    ensures { IsSeen result metadata.now path.now }
{
    if metadata.is_dir() {
        return Found::Directory;
    }
    if !metadata.is_file() {
        return Found::Missing;
    }
    if ends_in_slash(path) {
        return Found::Missing;
    }
    let size = metadata.len();
    if size >= SIZE_LIMIT {
        return Found::Failed;
    }
    Found::File {
        size,
        // A time before 1970 counts as the start of that year.
        time: u64::try_from(metadata.mtime()).unwrap_or(0),
    }
}

fn ends_in_slash(path: &[u8]) -> bool
    ensures { result ≡ ends_in_slash path.now }
{
    let Some((last, _)) = path.split_last() else {
        return false;
    };
    *last == b'/'
}
