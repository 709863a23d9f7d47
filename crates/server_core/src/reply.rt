//! How a reply is given: its head is spelled, and its content stands behind that.
ghost use Rattle.std.specs.Prelude.{◌≡◌, ◌+◌, ◌-◌, ◌*◌, ◌≤◌, ◌<◌, ◌^◌, ◌++◌, [], length, map, Some, None, true, false, IfOk};
ghost use Rattle.buffer_pool.specs.Kept.{Kept, HeldWithin};
ghost use Rattle.lt_world.specs.Disk.{Disk, IsOpenAt};
ghost use Rattle.chunkqueue.specs.Items.{Byte, range, items_of, staged_of, count_of};
ghost use Rattle.server_model.specs.Files.{Fits, Drops};
ghost use Rattle.server_model.specs.Held.{arrival_of};
ghost use Rattle.server_model.specs.Request.{Head};
ghost use Rattle.server_model.specs.Settings.{Settings};
ghost use Rattle.server_model.specs.Settling.{SettlesTo};
ghost use Rattle.server_model.specs.Steps.{number_of};
ghost use Rattle.connection.specs.Connection.{file_number, IsBodyOf};
ghost use Rattle.connection.specs.Stages.{is_asking};
ghost use Rattle.request_plan.specs.Planned.{PlansContent, PlansOpen, PlansWithin, SendsTo};
ghost use Rattle.server_core.specs.Sending.{spelled_for, items_for, file_for, refusal_items, IsReplyTo, Sent};
ghost use Rattle.server_core.specs.Steps.{WaitsOn, GivenBy};

use chunkqueue::{BUFFER_SIZE, Chunks, Queue, Store};
use connection::Conn;
use http_reply::Fields;
use lt_bytes::{NoMemory, Text};
use lt_world::{Ending, FileId, Files};
use request_plan::{Content, Form, Planner, REPLY_LIMIT};

/// Bytes that are copied into buffers for a reply, at most: its head, and those of two chunks of its body.
pub(crate) const REPLY_FILL: usize = REPLY_LIMIT + 2 * BUFFER_SIZE;

/// Answers as is planned.
pub(crate) fn serve<F: Files>(
    conn: &mut Conn,
    planner: &Planner<'_>,
    store: &mut Store,
    files: &mut F,
    tag: &[u8],
    form: Form,
    status: u16,
    fields: &Fields,
    content: Content,
) -> Option<Ending>
    requires counted { HeldWithin store.old (length conn.old.numbers) }
    requires asking { is_asking conn.old.held.stage ≡ true }
    requires file { conn.old.held.file ≡ None }
    requires number { form.last ≡ false → number_of conn.old.held.stage < 2 ^ 32 - 1 }
    requires within { PlansWithin content }
    requires opened { F.tells → PlansOpen content (F.disk files.old) }
    ensures settles { (before : Disk) (settings : Settings) (head : Head) → IsReplyTo form tag.now settings conn.old.held head → SendsTo head.method content → (F.tells → Fits before.table conn.old.held) →
        (F.tells → PlansContent content settings status fields.now planner.now.site (Some (arrival_of conn.old.held)) conn.old.held.link (number_of conn.old.held.stage) head before (F.disk files.old)) →
        SettlesTo true planner.now.site conn.old.held conn.new.held result F.tells before (F.disk files.new) }
    ensures link { conn.new.held.link ≡ conn.old.held.link }
    ensures waits { WaitsOn result conn.new.held }
    ensures filled { store.new.filled ≤ store.old.filled + REPLY_FILL }
    ensures kept { Kept store.old conn.old.numbers store.new conn.new.numbers }
    ensures reads { F.reads files.new ≡ F.reads files.old }
    ensures later { F.later files.old files.new }
{
    let Ok(head) = spell(planner, tag, form, status, fields, content) else {
        give_back(files, content);
        return Some(Ending::NoMemory);
    };
    send(conn, store, files, head.bytes(), content, form.last)
}

// What stands before the content, or says the status alone.
fn spell(
    planner: &Planner<'_>,
    tag: &[u8],
    form: Form,
    status: u16,
    fields: &Fields,
    content: Content,
) -> Result<Text, NoMemory>
    ensures spelled { IfOk result (λ text. text ≡ spelled_for content tag.now form status fields.now) }
    ensures short { IfOk result (λ text. length text ≤ REPLY_LIMIT) }
{
    match content {
        Content::Phrase => planner.error_reply(tag, form, status, fields),
        Content::File { len, .. } => planner.content_head(tag, form, status, fields, len),
        Content::Unsent { len } => planner.content_head(tag, form, status, fields, len),
    }
}

// Gives the file back that was opened for the content.
fn give_back<F: Files>(files: &mut F, content: Content)
    requires opened { F.tells → PlansOpen content (F.disk files.old) }
    ensures drops { F.tells → Drops (file_for content) (F.disk files.old) (F.disk files.new) }
    ensures reads { F.reads files.new ≡ F.reads files.old }
    ensures later { F.later files.old files.new }
{
    match content {
        Content::File { file, .. } => files.release(file),
        Content::Phrase | Content::Unsent { .. } => {}
    }
}

// Answers with a head, and the content behind it.
fn send<F: Files>(
    conn: &mut Conn,
    store: &mut Store,
    files: &mut F,
    head: &[u8],
    content: Content,
    last: bool,
) -> Option<Ending>
    requires counted { HeldWithin store.old (length conn.old.numbers) }
    requires asking { is_asking conn.old.held.stage ≡ true }
    requires some { 0 < length head.now }
    requires short { length head.now ≤ REPLY_LIMIT }
    requires within { PlansWithin content }
    requires number { last ≡ false → number_of conn.old.held.stage < 2 ^ 32 - 1 }
    requires opened { F.tells → PlansOpen content (F.disk files.old) }
    ensures sent { Sent conn.old.held conn.new.held result (map Byte head.now ++ items_for content) (file_for content) last F.tells (F.disk files.old) (F.disk files.new) }
    ensures link { conn.new.held.link ≡ conn.old.held.link }
    ensures waits { WaitsOn result conn.new.held }
    ensures filled { store.new.filled ≤ store.old.filled + length head.now + 2 * BUFFER_SIZE }
    ensures kept { Kept store.old conn.old.numbers store.new conn.new.numbers }
    ensures reads { F.reads files.new ≡ F.reads files.old }
    ensures later { F.later files.old files.new }
{
    match content {
        Content::File { file, start, len } => {
            send_part(conn, store, files, head, file, start, len, last)
        }
        Content::Phrase | Content::Unsent { .. } => {
            give(conn, store, head, Chunks::new(), None, last)
        }
    }
}

// Answers with a head, and so many bytes of an opened file.
fn send_part<F: Files>(
    conn: &mut Conn,
    store: &mut Store,
    files: &mut F,
    head: &[u8],
    file: FileId,
    start: u64,
    len: u64,
    last: bool,
) -> Option<Ending>
    requires counted { HeldWithin store.old (length conn.old.numbers) }
    requires asking { is_asking conn.old.held.stage ≡ true }
    requires some { 0 < length head.now }
    requires short { length head.now ≤ REPLY_LIMIT }
    requires bytes { 0 < len }
    requires within { start + len < 2 ^ 62 }
    requires number { last ≡ false → number_of conn.old.held.stage < 2 ^ 32 - 1 }
    requires opened { F.tells → IsOpenAt file.0 (F.disk files.old) }
    ensures sent { Sent conn.old.held conn.new.held result (map Byte head.now ++ range file.0 start len) (Some file.0) last F.tells (F.disk files.old) (F.disk files.new) }
    ensures link { conn.new.held.link ≡ conn.old.held.link }
    ensures waits { WaitsOn result conn.new.held }
    ensures filled { store.new.filled ≤ store.old.filled + length head.now + 2 * BUFFER_SIZE }
    ensures kept { Kept store.old conn.old.numbers store.new conn.new.numbers }
    ensures reads { F.reads files.new ≡ F.reads files.old }
    ensures later { F.later files.old files.new }
{
    let mut body = Chunks::new();
    let Ok(()) = body.push_file(store, file, start, len) else {
        files.release(file);
        body.close(store);
        return Some(Ending::NoMemory);
    };
    give(conn, store, head, body, Some(file), last)
}

/// Refuses the request that is there.
pub(crate) fn refuse(
    conn: &mut Conn,
    planner: &Planner<'_>,
    store: &mut Store,
    tag: &[u8],
    form: Form,
    status: u16,
) -> Option<Ending>
    requires counted { HeldWithin store.old (length conn.old.numbers) }
    requires asking { is_asking conn.old.held.stage ≡ true }
    requires file { conn.old.held.file ≡ None }
    requires number { form.last ≡ false → number_of conn.old.held.stage < 2 ^ 32 - 1 }
    ensures given { GivenBy result conn.old.held conn.new.held (refusal_items tag.now form status) None form.last }
    ensures link { conn.new.held.link ≡ conn.old.held.link }
    ensures waits { WaitsOn result conn.new.held }
    ensures filled { store.new.filled ≤ store.old.filled + REPLY_FILL }
    ensures kept { Kept store.old conn.old.numbers store.new conn.new.numbers }
{
    let Ok(text) = planner.refusal(tag, form, status) else {
        return Some(Ending::NoMemory);
    };
    give(conn, store, text.bytes(), Chunks::new(), None, form.last)
}

// Answers with a head, and a body that may end in a file.
fn give(
    conn: &mut Conn,
    store: &mut Store,
    head: &[u8],
    body: Chunks,
    file: Option<FileId>,
    last: bool,
) -> Option<Ending>
    requires counted { HeldWithin store.old (length conn.old.numbers + length body.numbers) }
    requires asking { is_asking conn.old.held.stage ≡ true }
    requires some { 0 < length head.now }
    requires body { IsBodyOf (file_number file) (items_of body) }
    requires unstaged { staged_of body ≡ [] }
    requires fits { length head.now + count_of body < 2 ^ 62 + 2 ^ 32 }
    requires number { last ≡ false → number_of conn.old.held.stage < 2 ^ 32 - 1 }
    ensures given { GivenBy result conn.old.held conn.new.held (map Byte head.now ++ items_of body) (file_number file) last }
    ensures link { conn.new.held.link ≡ conn.old.held.link }
    ensures waits { WaitsOn result conn.new.held }
    ensures filled { store.new.filled ≤ store.old.filled + length head.now + 2 * BUFFER_SIZE }
    ensures kept { Kept store.old (conn.old.numbers ++ body.numbers) store.new conn.new.numbers }
{
    let mut body = body;
    let given = conn.answer(store, head, &mut body, file, last);
    body.close(store);
    match given {
        Ok(()) => None,
        Err(_) => Some(Ending::NoMemory),
    }
}
