//! Where a path leads below a document root.
ghost use Rattle.std.specs.Prelude.{◌≡◌, ◌++◌, ◌≤◌, IfOk};
ghost use Rattle.lt_world.specs.declared.files.FileCall.TheVariants as call;
ghost use Rattle.lt_world.specs.Disk.{count};
ghost use Rattle.static_files.specs.Places.{TriedTo, FailedBy, Tries, Failed500, IsPlaceBy, has_failed};
ghost use Rattle.static_files.specs.Texts.{texts_of};

use crate::texts::text_in;
use conf_value::Pair;
use lt_bytes::{NoMemory, Text};
use lt_world::{Files, Found, Owner};
use std::alloc::Global;

/// What a directory leads to.
#[derive(Debug, Drop)]
pub enum Place {
    /// The file of an index name: its path, and where it stands.
    File { path: Text, physical: Text },
    /// An error with this status.
    Status(u16),
}

/// What the find of one index name comes to.
pub(crate) enum Tried {
    File,
    /// No file stands there.
    Other,
    Failed,
    NoMemory,
}

fn joined(alloc: Global, front: &[u8], back: &[u8]) -> Result<Text, NoMemory>
    ensures { IfOk result (λ text. text ≡ front.now ++ back.now) }
{
    let mut text = Text::with_capacity(alloc, front.len().saturating_add(back.len()))?;
    text.push_all(front)?;
    text.push_all(back)?;
    Ok(text)
}

/// Where a path stands: below the document root, which has no final slash.
pub fn map_path(alloc: Global, root: &[u8], path: &[u8]) -> Result<Text, NoMemory>
    ensures { IfOk result (λ physical. physical ≡ root.now ++ path.now) }
{
    joined(alloc, root, path)
}

/// Asks whether a file stands at a place.
fn try_at<F: Files>(files: &mut F, owner: Owner, physical: &[u8]) -> Tried
    ensures tried { F.tells → TriedTo result owner physical.now (F.disk files.old) (F.disk files.new) }
    ensures cause { FailedBy result (F.faults files.old) (F.faults files.new) }
    ensures faults { F.faults files.old ≤ F.faults files.new }
    ensures reads { F.reads files.new ≡ F.reads files.old }
    ensures later { F.later files.old files.new }
{
    match files.find(owner, physical) {
        Found::File { size: _, time: _ } => Tried::File,
        Found::Directory => Tried::Other,
        Found::Missing => Tried::Other,
        Found::Failed => Tried::Failed,
        Found::NoMemory => Tried::NoMemory,
    }
}

/// The names in their order, up to the first at which a file stands or whose find fails.
fn find_among<F: Files>(
    alloc: Global,
    files: &mut F,
    owner: Owner,
    path: &[u8],
    physical: &[u8],
    names: &[Pair],
) -> Result<Place, NoMemory>
    ensures tries { F.tells → Tries owner path.now physical.now (texts_of names.now) (F.disk files.old) result (F.disk files.new) }
    ensures cause { Failed500 result (F.faults files.old) (F.faults files.new) }
    ensures faults { F.faults files.old ≤ F.faults files.new }
    ensures reads { F.reads files.new ≡ F.reads files.old }
    ensures later { F.later files.old files.new }
{
    for pair in names {
        let Some(name) = text_in(pair) else {
            continue;
        };
        let Ok(stands) = joined(alloc, physical, name) else {
            return Err(NoMemory);
        };
        match try_at(files, owner, stands.bytes()) {
            Tried::File => {
                let Ok(path) = joined(alloc, path, name) else {
                    return Err(NoMemory);
                };
                return Ok(Place::File {
                    path,
                    physical: stands,
                });
            }
            Tried::Other => {}
            Tried::Failed => return Ok(Place::Status(500)),
            Tried::NoMemory => return Err(NoMemory),
        }
    }
    Ok(Place::Status(403))
}

/// What a directory leads to, whose path and physical path have their final slash: the first index name at which a
/// file stands, 403 where there is none, and 500 where a find failed. One `find` is made for each name that is tried.
/// After want of memory the finds up to there were made.
pub fn find_file<F: Files>(
    alloc: Global,
    files: &mut F,
    owner: Owner,
    path: &[u8],
    physical: &[u8],
    index: &[Pair],
) -> Result<Place, NoMemory>
    ensures place { F.tells → IsPlaceBy result (has_failed owner (F.disk files.new)) (F.disk files.old).tree (count call.Find owner (F.disk files.old).calls) path.now physical.now (texts_of index.now) }
    ensures tries { F.tells → Tries owner path.now physical.now (texts_of index.now) (F.disk files.old) result (F.disk files.new) }
    ensures cause { Failed500 result (F.faults files.old) (F.faults files.new) }
    ensures faults { F.faults files.old ≤ F.faults files.new }
    ensures reads { F.reads files.new ≡ F.reads files.old }
    ensures later { F.later files.old files.new }
{
    find_among(alloc, files, owner, path, physical, index)
}
