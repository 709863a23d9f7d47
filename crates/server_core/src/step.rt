//! One read or one write for one client, and what follows from it.
ghost use Rattle.std.specs.Prelude.{◌≡◌, ◌+◌, ◌≤◌, ◌<◌, [], ◌∷◌, length, true};
ghost use Rattle.buffer_pool.specs.Kept.{Kept, HeldWithin};
ghost use Rattle.lt_world.specs.Trace.{Close, said};
ghost use Rattle.server_model.specs.Comparing.{comparison_limit};
ghost use Rattle.server_model.specs.Files.{IsOpened, Drops, Fits};
ghost use Rattle.server_model.specs.Serves.{Stands};
ghost use Rattle.server_model.specs.Due.{DueRead, DueWrite};
ghost use Rattle.server_model.specs.Turns.{Seen, ReadsOne, DueOn, GoesBy};
ghost use Rattle.server_model.specs.Steps.{room_of, wants_read, wrote};
ghost use Rattle.server_core.specs.Compared.{wants};
ghost use Rattle.server_core.specs.Passes.{ComparesBy};
ghost use Rattle.server_core.specs.Asks.{asked_of, GainsReads, AsksOn};
ghost use Rattle.server_core.specs.Offers.{OffersOn, GainsWrites};
ghost use Rattle.server_core.specs.Steps.{IsResting, WaitsOn, FailsFor, done_file, event_of, seen_as};

use crate::settle::settle;
use chunkqueue::{BUFFER_SIZE, Store};
use conditions::Steps;
use connection::Conn;
use lt_world::{Ending, Files, Got, Net, Took};
use request_plan::Planner;
use std::sync::ledger::Ledger;

/// Bytes that are copied into buffers in one turn, at most: 4,096 of one read or of one range, and those of what follows:
/// 65,536 that are held of the input, 25 of 100 (Continue), 65,536 of a reply's head and 8,192 before its body.
pub(crate) const TURN_FILL: usize = 143_385;

/// Ends a connection, and gives the file back that it keeps.
pub(crate) fn release<F: Files>(conn: Conn, store: &mut Store, files: &mut F)
    requires counted { HeldWithin store.old (length conn.numbers) }
    requires open { F.tells → IsOpened (F.disk files.old).table conn.held.file }
    ensures drops { F.tells → Drops conn.held.file (F.disk files.old) (F.disk files.new) }
    ensures filled { store.new.filled ≡ store.old.filled }
    ensures kept { Kept store.old conn.numbers store.new [] }
    ensures reads { F.reads files.new ≡ F.reads files.old }
    ensures later { F.later files.old files.new }
{
    match conn.close(store) {
        Some(file) => files.release(file),
        None => {}
    }
}

/// Closes a client that is no longer in the table.
pub(crate) fn finish<N: Net, F: Files>(
    conn: Conn,
    store: &mut Store,
    net: &mut N,
    files: &mut F,
    ending: Ending,
)
    requires calls { 0 < N.calls net.old }
    requires known { conn.held.link < N.links net.old }
    requires counted { HeldWithin store.old (length conn.numbers) }
    requires open { F.tells → IsOpened (F.disk files.old).table conn.held.file }
    ensures trace { N.tells → N.trace net.new ≡ said conn.held.link (Close ending ∷ []) (N.trace net.old) }
    ensures drops { F.tells → Drops conn.held.file (F.disk files.old) (F.disk files.new) }
    ensures filled { store.new.filled ≡ store.old.filled }
    ensures kept { Kept store.old conn.numbers store.new [] }
    ensures links { N.links net.new ≡ N.links net.old }
    ensures last { N.last net.new ≡ N.last net.old }
    ensures net_later { N.later net.old net.new }
    ensures reads { F.reads files.new ≡ F.reads files.old }
    ensures later { F.later files.old files.new }
{
    net.close(conn.link(), ending);
    release(conn, store, files);
}

/// Which way a client's link is ready.
#[derive(Clone, Copy)]
pub(crate) enum Ready {
    Reading,
    Writing,
}

/// One read or one write, as the link is ready, and what follows. Answers how the client is to be closed, where it is.
pub(crate) fn step_for<N: Net, F: Files, L: Ledger>(
    conn: &mut Conn,
    planner: &mut Planner<'_>,
    store: &mut Store,
    scratch: &mut [u8; BUFFER_SIZE],
    net: &mut N,
    files: &mut F,
    steps: &mut Steps<L>,
    ready: Ready,
) -> Option<Ending>
    requires calls { 1 < N.calls net.old }
    requires room { BUFFER_SIZE ≤ N.room net.old }
    requires known { conn.old.held.link < N.links net.old }
    requires counted { HeldWithin store.old (length conn.old.numbers) }
    requires resting { IsResting conn.old.held }
    requires fits { F.tells → Fits (F.disk files.old).table conn.old.held }
    // What is seen later tells of a failed read too.
    ensures goes { (later : Seen) → F.faults files.new ≤ later.faults → later.reads ≡ F.reads files.new →
        GoesBy Stands (DueOn (event_of ready) (length store.old.free) (seen_as (F.disk files.old) (F.faults files.old) (F.reads files.old)) later conn.old.held.link)
        planner.old.site conn.old.held conn.new.held result N.tells F.tells (F.disk files.old) (F.disk files.new) (N.trace net.old) (N.trace net.new) }
    ensures link { conn.new.held.link ≡ conn.old.held.link }
    ensures waits { WaitsOn result conn.new.held }
    ensures filled { store.new.filled ≤ store.old.filled + TURN_FILL }
    ensures kept { Kept store.old conn.old.numbers store.new conn.new.numbers }
    ensures offers { N.tells → GainsWrites (OffersOn conn.old.held.link conn.old.offers) (N.trace net.old) (N.trace net.new) }
    ensures asks { N.tells → GainsReads (AsksOn conn.old.held.link (asked_of conn.old.held)) (N.trace net.old) (N.trace net.new) }
    ensures compares { ComparesBy planner.old.site conn.old.held result N.tells F.tells (F.disk files.old) (N.trace net.old) (N.trace net.new) steps.old steps.new }
    ensures bound { steps.new ≤ steps.old + comparison_limit planner.old.site + wants result }
    ensures site { planner.new.site ≡ planner.old.site }
    ensures calls { 0 < N.calls net.new }
    ensures links { N.links net.new ≡ N.links net.old }
    ensures last { N.last net.new ≡ N.last net.old }
    ensures net_later { N.later net.old net.new }
    ensures later { F.later files.old files.new }
{
    match ready {
        Ready::Reading => read_for(conn, planner, store, scratch, net, files, steps),
        Ready::Writing => write_for(conn, planner, store, net, files, steps),
    }
}

// Reads once where a read is wanted, and does what follows. Answers how the client is to be closed, where it is.
fn read_for<N: Net, F: Files, L: Ledger>(
    conn: &mut Conn,
    planner: &mut Planner<'_>,
    store: &mut Store,
    scratch: &mut [u8; BUFFER_SIZE],
    net: &mut N,
    files: &mut F,
    steps: &mut Steps<L>,
) -> Option<Ending>
    requires calls { 1 < N.calls net.old }
    requires room { BUFFER_SIZE ≤ N.room net.old }
    requires known { conn.old.held.link < N.links net.old }
    requires counted { HeldWithin store.old (length conn.old.numbers) }
    requires resting { IsResting conn.old.held }
    requires fits { F.tells → Fits (F.disk files.old).table conn.old.held }
    ensures goes { GoesBy Stands (DueRead (length store.old.free)) planner.old.site conn.old.held conn.new.held result N.tells F.tells
        (F.disk files.old) (F.disk files.new) (N.trace net.old) (N.trace net.new) }
    ensures link { conn.new.held.link ≡ conn.old.held.link }
    ensures waits { WaitsOn result conn.new.held }
    ensures filled { store.new.filled ≤ store.old.filled + TURN_FILL }
    ensures kept { Kept store.old conn.old.numbers store.new conn.new.numbers }
    ensures offers { N.tells → GainsWrites (OffersOn conn.old.held.link conn.old.offers) (N.trace net.old) (N.trace net.new) }
    ensures asks { N.tells → GainsReads (AsksOn conn.old.held.link (asked_of conn.old.held)) (N.trace net.old) (N.trace net.new) }
    ensures compares { ComparesBy planner.old.site conn.old.held result N.tells F.tells (F.disk files.old) (N.trace net.old) (N.trace net.new) steps.old steps.new }
    ensures bound { steps.new ≤ steps.old + comparison_limit planner.old.site + wants result }
    ensures site { planner.new.site ≡ planner.old.site }
    ensures calls { 0 < N.calls net.new }
    ensures links { N.links net.new ≡ N.links net.old }
    ensures last { N.last net.new ≡ N.last net.old }
    ensures net_later { N.later net.old net.new }
    ensures reads { F.reads files.new ≡ F.reads files.old }
    ensures later { F.later files.old files.new }
{
    let room = conn.room();
    if room == 0 {
        return None;
    }
    receive(
        conn,
        planner,
        store,
        net,
        files,
        steps,
        &mut scratch[..room.min(BUFFER_SIZE)],
    )
}

// Reads once into a buffer, and does what follows.
fn receive<N: Net, F: Files, L: Ledger>(
    conn: &mut Conn,
    planner: &mut Planner<'_>,
    store: &mut Store,
    net: &mut N,
    files: &mut F,
    steps: &mut Steps<L>,
    buf: &mut [u8],
) -> Option<Ending>
    requires calls { 1 < N.calls net.old }
    requires room { length buf.old ≤ N.room net.old }
    requires known { conn.old.held.link < N.links net.old }
    requires counted { HeldWithin store.old (length conn.old.numbers) }
    requires resting { IsResting conn.old.held }
    requires fits { F.tells → Fits (F.disk files.old).table conn.old.held }
    requires wants { wants_read conn.old.held ≡ true }
    requires some { 0 < length buf.old }
    requires within { length buf.old ≤ room_of conn.old.held }
    requires most { length buf.old ≤ BUFFER_SIZE }
    ensures goes { GoesBy Stands (DueRead (length store.old.free)) planner.old.site conn.old.held conn.new.held result N.tells F.tells
        (F.disk files.old) (F.disk files.new) (N.trace net.old) (N.trace net.new) }
    ensures link { conn.new.held.link ≡ conn.old.held.link }
    ensures waits { WaitsOn result conn.new.held }
    ensures filled { store.new.filled ≤ store.old.filled + TURN_FILL }
    ensures kept { Kept store.old conn.old.numbers store.new conn.new.numbers }
    ensures offers { N.tells → GainsWrites (OffersOn conn.old.held.link conn.old.offers) (N.trace net.old) (N.trace net.new) }
    ensures asks { N.tells → GainsReads (AsksOn conn.old.held.link (length buf.old)) (N.trace net.old) (N.trace net.new) }
    ensures compares { ComparesBy planner.old.site conn.old.held result N.tells F.tells (F.disk files.old) (N.trace net.old) (N.trace net.new) steps.old steps.new }
    ensures bound { steps.new ≤ steps.old + comparison_limit planner.old.site + wants result }
    ensures site { planner.new.site ≡ planner.old.site }
    ensures calls { 0 < N.calls net.new }
    ensures links { N.links net.new ≡ N.links net.old }
    ensures last { N.last net.new ≡ N.last net.old }
    ensures net_later { N.later net.old net.new }
    ensures reads { F.reads files.new ≡ F.reads files.old }
    ensures later { F.later files.old files.new }
{
    match net.read(conn.link(), buf) {
        Got::Bytes(n) => {
            let Ok(()) = conn.got(store, &buf[..n]) else {
                return Some(Ending::NoMemory);
            };
            settle(conn, planner, store, files, steps)
        }
        Got::End => {
            conn.ended();
            settle(conn, planner, store, files, steps)
        }
        Got::NotYet => None,
        Got::Failed => Some(Ending::ClientFault),
    }
}

// Offers once what is owed, and does what follows. Answers how the client is to be closed, where it is.
fn write_for<N: Net, F: Files, L: Ledger>(
    conn: &mut Conn,
    planner: &mut Planner<'_>,
    store: &mut Store,
    net: &mut N,
    files: &mut F,
    steps: &mut Steps<L>,
) -> Option<Ending>
    requires calls { 1 < N.calls net.old }
    requires room { BUFFER_SIZE ≤ N.room net.old }
    requires known { conn.old.held.link < N.links net.old }
    requires counted { HeldWithin store.old (length conn.old.numbers) }
    requires resting { IsResting conn.old.held }
    requires fits { F.tells → Fits (F.disk files.old).table conn.old.held }
    // What is seen later tells of a failed read too.
    ensures goes { (later : Seen) → F.faults files.new ≤ later.faults → later.reads ≡ F.reads files.new →
        GoesBy Stands (DueWrite (ReadsOne (seen_as (F.disk files.old) (F.faults files.old) (F.reads files.old)) later) (FailsFor conn.old.held.link (seen_as (F.disk files.old) (F.faults files.old) (F.reads files.old)) later))
        planner.old.site conn.old.held conn.new.held result N.tells F.tells (F.disk files.old) (F.disk files.new) (N.trace net.old) (N.trace net.new) }
    ensures link { conn.new.held.link ≡ conn.old.held.link }
    ensures waits { WaitsOn result conn.new.held }
    ensures filled { store.new.filled ≤ store.old.filled + TURN_FILL }
    ensures kept { Kept store.old conn.old.numbers store.new conn.new.numbers }
    ensures offers { N.tells → GainsWrites (OffersOn conn.old.held.link conn.old.offers) (N.trace net.old) (N.trace net.new) }
    ensures asks { N.tells → GainsReads (AsksOn conn.old.held.link (asked_of conn.old.held)) (N.trace net.old) (N.trace net.new) }
    ensures compares { ComparesBy planner.old.site conn.old.held result N.tells F.tells (F.disk files.old) (N.trace net.old) (N.trace net.new) steps.old steps.new }
    ensures bound { steps.new ≤ steps.old + comparison_limit planner.old.site + wants result }
    ensures site { planner.new.site ≡ planner.old.site }
    ensures calls { 0 < N.calls net.new }
    ensures links { N.links net.new ≡ N.links net.old }
    ensures last { N.last net.new ≡ N.last net.old }
    ensures net_later { N.later net.old net.new }
    ensures later { F.later files.old files.new }
{
    if !conn.owes() {
        return None;
    }
    let Ok(()) = conn.stage(store, files) else {
        return Some(Ending::FileFault);
    };
    match net.write(conn.link(), conn.offer()) {
        Took::Bytes(n) => {
            wrote(conn, store, files, n);
            settle(conn, planner, store, files, steps)
        }
        Took::NotYet => None,
        Took::Failed => Some(Ending::ClientFault),
    }
}

// The client took so many bytes. Its file is given back where nothing more is owed.
fn wrote<F: Files>(conn: &mut Conn, store: &mut Store, files: &mut F, n: usize)
    requires counted { HeldWithin store.old (length conn.old.numbers) }
    requires within { n ≤ length conn.old.front }
    requires open { F.tells → IsOpened (F.disk files.old).table conn.old.held.file }
    ensures held { conn.new.held ≡ wrote conn.old.held n }
    ensures drops { F.tells → Drops (done_file conn.old.held n) (F.disk files.old) (F.disk files.new) }
    ensures filled { store.new.filled ≡ store.old.filled }
    ensures kept { Kept store.old conn.old.numbers store.new conn.new.numbers }
    ensures reads { F.reads files.new ≡ F.reads files.old }
    ensures later { F.later files.old files.new }
{
    match conn.wrote(store, n) {
        Some(file) => files.release(file),
        None => {}
    }
}
