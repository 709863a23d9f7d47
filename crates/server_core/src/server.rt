//! The server, and its turns.
ghost use Rattle.std.specs.Prelude.{◌≡◌, ℕ, ◌+◌, ◌≤◌, ◌<◌, ◌^◌, List, [], length, vec_capacity, IfOk, None};
ghost use Rattle.buffer_pool.specs.Kept.{Kept, HeldWithin};
ghost use Rattle.chunkqueue.specs.Store.{unused};
ghost use Rattle.lt_world.specs.Disk.{Disk};
ghost use Rattle.lt_world.specs.Trace.{Entry};
ghost use Rattle.settings.specs.InForm.{IsInForm};
ghost use Rattle.cond_cache.specs.Kept.{HavePatterns};
ghost use Rattle.request_settings.specs.Lists.{HaveRules};
ghost use Rattle.server_model.specs.Comparing.{comparison_limit};
ghost use Rattle.server_model.specs.Site.{site_at};
ghost use Rattle.server_model.specs.Files.{IsTable, Backs};
ghost use Rattle.server_model.specs.Serves.{Serves};
ghost use Rattle.server_core.specs.Places.{ArePlaces};
ghost use Rattle.server_core.specs.Steps.{seen_as};
ghost use Rattle.server_core.specs.Table.{helds, held_count, numbers_of, Rising, all_freed};
ghost use Rattle.server_core.specs.Compared.{wanted_in, ComparesIn};
ghost use Rattle.server_core.specs.Asks.{GainsReads, AsksIn};
ghost use Rattle.server_core.specs.Offers.{OffersIn, GainsWrites};
ghost use Rattle.server_core.specs.Within.{serving_at, joined, IsEachBufferOnce};
ghost use Rattle.server_core.specs.Turns.{Turned, OnRest, KindFits, Uses};

use crate::client::Client;
use crate::places::{CONNECTION_LIMIT, clear, free_places};
use crate::step::{Ready, release};
use crate::table::{Arrival, accept_on, step_on};
use crate::turn::Turn;
use chunkqueue::{BUFFER_SIZE, Store};
use conditions::{Matchers, Steps};
use conf_value::Config;
use lt_bytes::NoMemory;
use lt_world::{Event, Files, Net};
use request_plan::Planner;
use std::alloc::Global;
use std::marker::Model;
use std::sync::ledger::Ledger;

/// Buffers that are made before the first client arrives.
pub const SPARE_BUFFERS: u64 = 512;

/// How many buffers there are, and where: those that are spare and those in the queues of clients are all that were made.
#[derive(Clone, Copy, Debug, PartialEq, Eq)]
pub struct Held {
    pub made: u64,
    pub free: u64,
    pub queued: u64,
}

/// A server: what it serves, and the clients that are open. It must be closed: it can't be dropped.
pub struct Server<'c> {
    planner: Planner<'c>,
    clients: Vec<Client>,
    // Places for the clients that may still come.
    places: Vec<Client>,
    store: Store,
    // What a read brings, before it is kept.
    scratch: Box<[u8; BUFFER_SIZE]>,
}

impl<'c> Model for Server<'c> {
    ghost use Rattle.server_core.specs.Within.{Running};

    ghost Value = { Running };

    ghost use Rattle.conf_value.specs.contracts.value.Value as values;
    ghost use Rattle.std.specs.Coded.{codes};

    ghost coded = { Prim.hlevel (codes, values.the_row.coded) };

    ghost use Rattle.server_core.specs.Within.{running_of, IsServer};

    ghost view = { running_of };

    ghost invariant = { IsServer };
}

impl<'c> Server<'c> {
    /// A server of what a configuration says, with no client. The matchers are those of the configuration's patterns.
    pub fn new(
        alloc: Global,
        config: &'c Config,
        matchers: Matchers<'c>,
    ) -> Result<Server<'c>, NoMemory>
        requires form { IsInForm config.now }
        requires conditions { HavePatterns config.now.blocks matchers }
        requires rules { HaveRules config.now.blocks matchers }
        ensures site { IfOk result (λ server. server.site ≡ site_at config.now.blocks) }
        ensures empty { IfOk result (λ server. server.table ≡ []) }
        ensures spare { IfOk result (λ server. SPARE_BUFFERS ≤ length server.pool.free) }
        ensures table { IfOk result (λ server. (links : ℕ) → IsTable links server.table) }
        ensures backs { IfOk result (λ server. (disk : Disk) → Backs disk.table server.table) }
        ensures serves { IfOk result (λ server. (disk : Disk) → disk.calls ≡ [] → ((file : ℕ) → disk.table file ≡ None) → Serves disk (serving_at server) []) }
    {
        let scratch = match Box::new(alloc, [0; BUFFER_SIZE]) {
            Ok(scratch) => scratch,
            Err(_) => return Err(NoMemory),
        };
        let planner = Planner::new(alloc, config, matchers)?;
        let mut store = spare_buffers(alloc)?;
        match room(alloc, &mut store) {
            Ok((clients, places)) => Ok(Server {
                planner,
                clients,
                places,
                store,
                scratch,
            }),
            Err(error) => {
                store.close();
                Err(error)
            }
        }
    }

    /// Takes the next event of the net, and does all that is due for it. Where the net answers no event,
    /// nothing is done.
    pub fn turn<N: Net, F: Files, L: Ledger>(
        &mut self,
        net: &mut N,
        files: &mut F,
        steps: &mut Steps<L>,
    ) -> Turn
        requires table { IsTable (N.links net.old) self.old.table }
        requires backs { F.tells → Backs (F.disk files.old).table self.old.table }
        ensures table { IsTable (N.links net.new) self.new.table }
        ensures backs { F.tells → Backs (F.disk files.new).table self.new.table }

        // The server stands for what the net and the files tell, and what was due for the event was done.
        ensures serves { N.tells → F.tells → Serves (F.disk files.old) (serving_at self.old) (N.trace net.old) →
            Serves (F.disk files.new) (serving_at self.new) (N.trace net.new) ×
            Turned result self.old.site (length self.old.pool.free) (seen_as (F.disk files.old) (F.faults files.old) (F.reads files.old))
            (seen_as (F.disk files.new) (F.faults files.new) (F.reads files.new)) (N.trace net.old) (N.trace net.new) }
        ensures site { self.new.site ≡ self.old.site }

        // Bodies move: few bytes are put into buffers or moved in them, whatever their size.
        ensures filled { self.new.pool.filled ≤ self.old.pool.filled + 262144 }

        // Each buffer is in one place: no client that was closed holds one.
        ensures once { IsEachBufferOnce self.new }

        // A write offers all unread bytes of the first chunk, or all that is staged of its range.
        ensures offers { N.tells → GainsWrites (OffersIn self.old.table self.old.offers) (N.trace net.old) (N.trace net.new) }

        // A read asks for all that may still be held of the client's input, but for one buffer at most.
        ensures asks { N.tells → GainsReads (AsksIn self.old.table) (N.trace net.old) (N.trace net.new) }

        // Each condition is compared once for each of the few attributes that a request has, and by one more only where its
        // client is closed for want of memory.
        ensures steps { steps.new ≤ steps.old + comparison_limit self.old.site + 1 }
        ensures wants { N.tells → steps.new ≤ steps.old + comparison_limit self.old.site + wanted_in (N.trace net.new) }
        ensures passes { N.tells → F.tells → Serves (F.disk files.old) (serving_at self.old) (N.trace net.old) →
            ComparesIn self.old.site (seen_as (F.disk files.old) (F.faults files.old) (F.reads files.old)) (N.trace net.old) (N.trace net.new) steps.old steps.new }

        // The answer is that of the net, and without an event nothing changes.
        ensures last { KindFits result (N.last net.new) }
        ensures rests { OnRest result (self.new ≡ self.old) }
        ensures rests_files { OnRest result (files.new ≡ files.old) }
        ensures rests_steps { OnRest result (steps.new ≡ steps.old) }
        ensures rests_trace { OnRest result (N.tells → N.trace net.new ≡ N.trace net.old) }
        ensures left { N.ends → Uses result (N.left net.old) (N.left net.new) }
        ensures net_faults { N.faults net.old ≤ N.faults net.new }
        ensures wait_faults { N.wait_faults net.new ≡ N.wait_faults net.old }
        ensures later { N.later net.old net.new }
        ensures faults { F.faults files.old ≤ F.faults files.new }
        ensures files_later { F.later files.old files.new }
    {
        // A look at a field brings what holds between two turns, also where nothing is done.
        let _ = &self.store;
        match net.next() {
            Event::Arrived { link, peer, local } => {
                accept_on(
                    &mut self.clients,
                    &mut self.places,
                    &self.planner,
                    &mut self.store,
                    net,
                    files,
                    Arrival { link, peer, local },
                );
                Turn::Did
            }
            Event::Readable(link) => {
                step_on(
                    &mut self.clients,
                    &mut self.places,
                    &mut self.planner,
                    &mut self.store,
                    &mut self.scratch,
                    net,
                    files,
                    steps,
                    link,
                    Ready::Reading,
                );
                Turn::Did
            }
            Event::Writable(link) => {
                step_on(
                    &mut self.clients,
                    &mut self.places,
                    &mut self.planner,
                    &mut self.store,
                    &mut self.scratch,
                    net,
                    files,
                    steps,
                    link,
                    Ready::Writing,
                );
                Turn::Did
            }
            Event::Idle => Turn::Idle,
            Event::Over => Turn::Over,
            Event::NoMemory => Turn::NoMemory,
        }
    }

    /// Where the buffers are. It takes no memory.
    pub fn held(&self) -> Held
        ensures made { result.made ≡ self.now.pool.made }
        ensures free { result.free ≡ length self.now.pool.free }
        ensures queued { result.queued ≡ length (joined self.now.queued) }
        ensures all { result.free + result.queued ≡ result.made }
        ensures once { IsEachBufferOnce self.now }
    {
        Held {
            made: self.store.made(),
            free: self.store.spare(),
            queued: queued(&self.clients),
        }
    }

    /// Ends the server: it gives every file and every buffer back. No client is told, and it takes no memory. Answers where
    /// the buffers were then.
    pub fn close<F: Files>(self, files: &mut F) -> Held
        requires backs { F.tells → Backs (F.disk files.old).table self.table }
        ensures disk { F.tells → F.disk files.new ≡ all_freed self.entry.table (F.disk files.old) }

        // Every buffer was spare.
        ensures made { self.entry.pool.made ≤ result.made }
        ensures free { result.free ≡ result.made }
        ensures queued { result.queued ≡ 0 }

        // Where it serves, no file is open then.
        ensures none_open { F.tells → (trace : List Entry) → Serves (F.disk files.old) (serving_at self.entry) trace → (file : ℕ) → (F.disk files.new).table file ≡ None }
        ensures faults { F.faults files.old ≤ F.faults files.new }
        ensures reads { F.reads files.new ≡ F.reads files.old }
        ensures later { F.later files.old files.new }
    {
        let Server {
            planner: _,
            mut clients,
            mut places,
            mut store,
            scratch: _,
        } = self;
        give_back(&mut clients, &mut store, files);
        clear(&mut places, &mut store);
        let held = Held {
            made: store.made(),
            free: store.spare(),
            queued: queued(&clients),
        };
        clients.destroy_empty();
        places.destroy_empty();
        store.close();
        held
    }
}

// An owner of buffers that has spare ones.
fn spare_buffers(alloc: Global) -> Result<Store, NoMemory>
    ensures each { IfOk result (λ store. Kept unused [] store []) }
    ensures spare { IfOk result (λ store. SPARE_BUFFERS ≤ length store.free) }
{
    let mut store = Store::new(alloc);
    match store.reserve(SPARE_BUFFERS) {
        Ok(()) => Ok(store),
        Err(error) => {
            store.close();
            Err(error)
        }
    }
}

// A table with room for all clients that may be open, and a place for each.
fn room(alloc: Global, store: &mut Store) -> Result<(Vec<Client>, Vec<Client>), NoMemory>
    requires counted { HeldWithin store.old 0 }
    ensures empty { IfOk result (λ room. room.0.items ≡ []) }
    ensures places { IfOk result (λ room. ArePlaces room.0.items room.1.items (vec_capacity room.0) (vec_capacity room.1)) }
    ensures spare { length store.old.free ≤ length store.new.free }
    ensures kept { Kept store.old [] store.new [] }
{
    let Ok(clients) = Vec::with_capacity(alloc, CONNECTION_LIMIT) else {
        return Err(NoMemory);
    };
    match free_places(alloc, store) {
        Ok(places) => Ok((clients, places)),
        Err(error) => {
            clients.destroy_empty();
            Err(error)
        }
    }
}

// How many buffers the queues of clients hold, found by a walk.
#[tactic(auto, using(crate::proofs::Buffered::count_next))]
fn queued(clients: &[Client]) -> u64
    requires countable { held_count clients.now < 2 ^ 64 }
    ensures { result ≡ held_count clients.now }
{
    let mut count = 0;
    for client in clients {
        count += client.nodes();
    }
    count
}

// Gives back what the clients keep, and leaves none.
fn give_back<F: Files>(clients: &mut Vec<Client>, store: &mut Store, files: &mut F)
    requires each { Kept unused [] store.old (numbers_of clients.old.items) }
    requires rising { Rising (helds clients.old.items) }
    requires backs { F.tells → Backs (F.disk files.old).table (helds clients.old.items) }
    // Every buffer is spare then.
    ensures spare { Kept unused [] store.new [] }
    ensures made { store.old.made ≤ store.new.made }
    ensures empty { clients.new.items ≡ [] }
    ensures disk { F.tells → F.disk files.new ≡ all_freed (helds clients.old.items) (F.disk files.old) }
    ensures reads { F.reads files.new ≡ F.reads files.old }
    ensures later { F.later files.old files.new }
{
    while let Some(client) = clients.pop() {
        release(client.into_conn(), store, files);
    }
}
