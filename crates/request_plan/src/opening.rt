//! A file that is opened, and what it answers.
ghost use Rattle.std.specs.Prelude.{◌≡◌, ◌+◌, ◌<◌, ◌≤◌, ◌^◌, ℕ, List, Option, None, Some, length, IfOk};
ghost use Rattle.file_reply.specs.Answers as spec;
ghost use Rattle.file_reply.specs.Answers.{IsWithin};
ghost use Rattle.file_reply.specs.Refusals.{refusal};
ghost use Rattle.http_target.specs.declared.read.Target.{Target};
ghost use Rattle.lt_world.specs.Disk.{Disk, IsFileAt, IsOpenAt};
ghost use Rattle.static_files.specs.MediaTypes.{mime};
ghost use Rattle.server_model.specs.Attributes.{seen_at};
ghost use Rattle.server_model.specs.Plan.{answered_with};
ghost use Rattle.server_model.specs.Planning.{Plans};
ghost use Rattle.server_model.specs.Settings as model;
ghost use Rattle.server_model.specs.Site.{Site};
ghost use Rattle.server_model.specs.World as world;
ghost use Rattle.request_plan.specs.Lent.{lent};
ghost use Rattle.request_plan.specs.Planned.{PlansBy, PlansChosen, PlansWithin, SendsTo};
ghost use Rattle.request_plan.specs.Finding.{AtFile, KeepsPart};

use crate::chosen::{Chosen, Content, in_words};
use crate::form::is_head;
use file_reply::{Answer, Content as Part, answer, plain};
use http_head::Request;
use lt_bytes::NoMemory;
use lt_world::{FileId, Files, Opened, Owner};
use settings::Settings;
use std::alloc::Global;

/// Opens the file at a place, and answers a request with it.
pub(crate) fn open<'c, F: Files>(
    alloc: Global,
    settings: Settings<'c>,
    media_type: &[u8],
    request: &Request,
    physical: &[u8],
    files: &mut F,
    owner: Owner,
) -> Result<Chosen<'c>, NoMemory>
    requires file { F.tells → IsFileAt physical.now (F.disk files.old).tree }
    ensures plans { F.tells → (site : Site) (arrival : Option world.Arrival) (target : Target) (path : List ℕ) (before : Disk)
        → AtFile site arrival request.now owner target path physical.now before (F.disk files.old)
        → lent settings.entry ≡ model.settings_on site.blocks (seen_at arrival request.now target path physical.now)
        → media_type.now ≡ mime (lent settings.entry).types path → refusal (lent settings.entry).excluded path request.now.method ≡ None
        → PlansBy result site arrival owner.conn owner.request request.now before (F.disk files.new) }
    ensures within { IfOk result (λ chosen. PlansWithin chosen.content) }
    ensures sends { IfOk result (λ chosen. SendsTo request.now.method chosen.content) }
    ensures reads { F.reads files.new ≡ F.reads files.old }
    ensures later { F.later files.old files.new }
{
    match files.open(owner, physical) {
        Opened::File { file, size, time } => {
            answer_with(
                alloc, settings, media_type, request, files, file, size, time,
            )
        }
        Opened::Failed => Ok(in_words(settings, plain(alloc, 500))),
        Opened::NoMemory => Err(NoMemory),
    }
}

/// Answers a request with an opened file.
fn answer_with<'c, F: Files>(
    alloc: Global,
    settings: Settings<'c>,
    media_type: &[u8],
    request: &Request,
    files: &mut F,
    file: FileId,
    size: u64,
    time: u64,
) -> Result<Chosen<'c>, NoMemory>
    requires open { F.tells → IsOpenAt file.0 (F.disk files.old) }
    requires size { size < 2 ^ 62 }
    ensures plans { F.tells → (site : Site) (arrival : Option world.Arrival) (client k : ℕ) (before : Disk) (bytes : List ℕ)
        → (F.disk files.old).table file.0 ≡ Some bytes → length bytes ≡ size
        → Plans (answered_with (lent settings.entry) (spec.answer media_type.now request.now.method request.now.fields size time) bytes) (Some file.0) site arrival client k request.now before (F.disk files.old)
        → PlansBy result site arrival client k request.now before (F.disk files.new) }
    ensures within { IfOk result (λ chosen. PlansWithin chosen.content) }
    ensures sends { IfOk result (λ chosen. SendsTo request.now.method chosen.content) }
    ensures reads { F.reads files.new ≡ F.reads files.old }
    ensures later { F.later files.old files.new }
{
    match answer(alloc, media_type, request, size, time) {
        Ok(said) => Ok(send(settings, request, files, file, said, size)),
        Err(NoMemory) => {
            files.release(file);
            Err(NoMemory)
        }
    }
}

/// Keeps a file open of which bytes are to be sent, and gives back any other.
fn send<'c, F: Files>(
    settings: Settings<'c>,
    request: &Request,
    files: &mut F,
    file: FileId,
    said: Answer,
    size: u64,
) -> Chosen<'c>
    requires open { F.tells → IsOpenAt file.0 (F.disk files.old) }
    requires within { IsWithin said.content size }
    requires size { size < 2 ^ 62 }
    ensures plans { F.tells → (site : Site) (arrival : Option world.Arrival) (client k : ℕ) (before : Disk) (bytes : List ℕ)
        → (F.disk files.old).table file.0 ≡ Some bytes → length bytes ≡ size
        → Plans (answered_with (lent settings.entry) said bytes) (Some file.0) site arrival client k request.now before (F.disk files.old)
        → PlansChosen result site arrival client k request.now before (F.disk files.new) }
    ensures within { PlansWithin result.content }
    ensures sends { SendsTo request.now.method result.content }
    ensures reads { F.reads files.new ≡ F.reads files.old }
    ensures later { F.later files.old files.new }
{
    let _ = size;
    match said.content {
        Part::Phrase => {
            files.release(file);
            in_words(settings, said)
        }
        Part::Part { start, len } => {
            let content = part(request, files, file, start, len);
            Chosen {
                settings,
                status: said.status,
                fields: said.fields,
                content,
            }
        }
    }
}

/// A part of an opened file that is to be sent, or of which HEAD asks for the length.
fn part<F: Files>(request: &Request, files: &mut F, file: FileId, start: u64, len: u64) -> Content
    requires open { F.tells → IsOpenAt file.0 (F.disk files.old) }
    requires within { start + len < 2 ^ 62 }
    ensures keeps { F.tells → KeepsPart result request.now.method file.0 start len (F.disk files.old) (F.disk files.new) }
    ensures within { PlansWithin result }
    ensures sends { SendsTo request.now.method result }
    ensures reads { F.reads files.new ≡ F.reads files.old }
    ensures later { F.later files.old files.new }
{
    if len == 0 || is_head(request) {
        files.release(file);
        return Content::Unsent { len };
    }
    Content::File { file, start, len }
}
