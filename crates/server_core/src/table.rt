//! The table of clients, in the order of their links, and what each event of a link does in it.
ghost use Rattle.std.specs.Prelude.{◌≡◌, ◌+◌, ◌≤◌, ◌<◌, ◌∷◌, List, length, vec_capacity};
ghost use Rattle.lt_world.specs.Trace.{Accepted, Entry};
ghost use Rattle.server_model.specs.Comparing.{comparison_limit, comparisons, passes_in_turn};
ghost use Rattle.server_model.specs.Held.{IsPlace};
ghost use Rattle.server_model.specs.Files.{IsTable, Backs};
ghost use Rattle.server_model.specs.Serves.{Serves};
ghost use Rattle.server_model.specs.Turns.{TurnsOn};
ghost use Rattle.server_core.specs.Compared.{wanted_in};
ghost use Rattle.server_core.specs.Asks.{GainsReads, AsksIn};
ghost use Rattle.server_core.specs.Offers.{OffersIn, GainsWrites};
ghost use Rattle.server_core.specs.Places.{ArePlaces};
ghost use Rattle.server_core.specs.Steps.{event_of, seen_as};
ghost use Rattle.server_core.specs.Table.{helds, offers_of, serving, Rising, IsKept};

use crate::client::Client;
use crate::places::{CONNECTION_LIMIT, put_in, take_out};
use crate::step::{Ready, TURN_FILL, finish, step_for};
use chunkqueue::{BUFFER_SIZE, Store};
use conditions::Steps;
use connection::Conn;
use lt_world::{Address, Ending, Files, Link, Net};
use request_plan::Planner;
use std::sync::ledger::Ledger;

/// A client that arrives: its link, its address and the one that it came to.
#[derive(Clone, Copy)]
pub(crate) struct Arrival {
    pub(crate) link: Link,
    pub(crate) peer: Address,
    pub(crate) local: Address,
}

// The place of a link, found without a look at every client.
fn place(clients: &[Client], link: Link) -> Option<usize>
    requires { Rising (helds clients.now) }
    ensures { IsPlace link.0 (helds clients.now) result }
{
    let mut low = 0;
    let mut high = clients.len();
    while low < high {
        let middle = low + (high - low) / 2;
        let here = clients[middle].link().0;
        if here == link.0 {
            return Some(middle);
        }
        if here < link.0 {
            low = middle + 1;
        } else {
            high = middle;
        }
    }
    None
}

/// A client arrives. It is closed at once where the limit is reached, and else it is kept without a request for memory.
pub(crate) fn accept_on<N: Net, F: Files>(
    clients: &mut Vec<Client>,
    places: &mut Vec<Client>,
    planner: &Planner<'_>,
    store: &mut Store,
    net: &mut N,
    files: &F,
    arrival: Arrival,
)
    requires calls { 0 < N.calls net.old }
    requires known { arrival.link.0 < N.links net.old }
    requires kept { IsKept store.old clients.old.items }
    requires places { ArePlaces clients.old.items places.old.items (vec_capacity clients.old) (vec_capacity places.old) }
    requires table { IsTable arrival.link.0 (helds clients.old.items) }
    requires backs { F.tells → Backs (F.disk files.now).table (helds clients.old.items) }
    ensures turn { TurnsOn (Accepted arrival.peer arrival.local) arrival.link.0 (serving planner.now.site clients.old.items) (serving planner.now.site clients.new.items) N.tells F.tells (length store.old.free)
        (seen_as (F.disk files.now) (F.faults files.now) (F.reads files.now)) (seen_as (F.disk files.now) (F.faults files.now) (F.reads files.now))
        (N.trace net.old) (N.trace net.new) }
    ensures filled { store.new.filled ≡ store.old.filled }
    ensures kept { IsKept store.new clients.new.items }
    ensures places { ArePlaces clients.new.items places.new.items (vec_capacity clients.new) (vec_capacity places.new) }
    ensures table { IsTable (N.links net.new) (helds clients.new.items) }
    ensures backs { F.tells → Backs (F.disk files.now).table (helds clients.new.items) }
    ensures offers { N.tells → GainsWrites (OffersIn (helds clients.old.items) (offers_of clients.old.items)) (N.trace net.old) (N.trace net.new) }
    ensures asks { N.tells → GainsReads (AsksIn (helds clients.old.items)) (N.trace net.old) (N.trace net.new) }
    ensures last { N.last net.new ≡ N.last net.old }
    ensures net_later { N.later net.old net.new }
{
    let _ = files;
    if clients.len() >= CONNECTION_LIMIT {
        net.close(arrival.link, Ending::Full);
        return;
    }
    let Arrival { link, peer, local } = arrival;
    put_in(
        clients,
        places,
        store,
        Conn::new(planner.alloc(), link, peer, local),
    );
}

/// A client may be read from or written to.
pub(crate) fn step_on<N: Net, F: Files, L: Ledger>(
    clients: &mut Vec<Client>,
    places: &mut Vec<Client>,
    planner: &mut Planner<'_>,
    store: &mut Store,
    scratch: &mut [u8; BUFFER_SIZE],
    net: &mut N,
    files: &mut F,
    steps: &mut Steps<L>,
    link: Link,
    ready: Ready,
)
    requires calls { 1 < N.calls net.old }
    requires room { BUFFER_SIZE ≤ N.room net.old }
    requires known { link.0 < N.links net.old }
    requires kept { IsKept store.old clients.old.items }
    requires places { ArePlaces clients.old.items places.old.items (vec_capacity clients.old) (vec_capacity places.old) }
    requires backs { F.tells → Backs (F.disk files.old).table (helds clients.old.items) }
    ensures turn { TurnsOn (event_of ready) link.0 (serving planner.old.site clients.old.items) (serving planner.old.site clients.new.items) N.tells F.tells (length store.old.free)
        (seen_as (F.disk files.old) (F.faults files.old) (F.reads files.old)) (seen_as (F.disk files.new) (F.faults files.new) (F.reads files.new))
        (N.trace net.old) (N.trace net.new) }
    ensures filled { store.new.filled ≤ store.old.filled + TURN_FILL }
    ensures kept { IsKept store.new clients.new.items }
    ensures places { ArePlaces clients.new.items places.new.items (vec_capacity clients.new) (vec_capacity places.new) }
    ensures table { IsTable (N.links net.old) (helds clients.old.items) → IsTable (N.links net.new) (helds clients.new.items) }
    ensures backs { F.tells → Backs (F.disk files.new).table (helds clients.new.items) }
    ensures offers { N.tells → GainsWrites (OffersIn (helds clients.old.items) (offers_of clients.old.items)) (N.trace net.old) (N.trace net.new) }
    ensures asks { N.tells → GainsReads (AsksIn (helds clients.old.items)) (N.trace net.old) (N.trace net.new) }
    ensures compares { N.tells → F.tells → (trace : List Entry) → N.trace net.old ≡ record { link = link.0; act = event_of ready } ∷ trace → Serves (F.disk files.old) (serving planner.old.site clients.old.items) trace →
        steps.new ≤ steps.old + comparisons planner.old.site (passes_in_turn planner.old.site link.0 (seen_as (F.disk files.old) (F.faults files.old) (F.reads files.old)) (seen_as (F.disk files.old) (F.faults files.old) (F.reads files.old)) trace (N.trace net.new)) + wanted_in (N.trace net.new) }
    ensures bound { steps.new ≤ steps.old + comparison_limit planner.old.site + 1 }
    ensures wants { N.tells → steps.new ≤ steps.old + comparison_limit planner.old.site + wanted_in (N.trace net.new) }
    ensures site { planner.new.site ≡ planner.old.site }
    ensures last { N.last net.new ≡ N.last net.old }
    ensures net_later { N.later net.old net.new }
    ensures later { F.later files.old files.new }
{
    let Some(i) = place(clients, link) else {
        return;
    };
    let client = &mut clients[i];
    let Some(ending) = step_for(
        client.conn_mut(),
        planner,
        store,
        scratch,
        net,
        files,
        steps,
        ready,
    ) else {
        return;
    };
    finish(
        take_out(clients, places, planner.alloc(), i),
        store,
        net,
        files,
        ending,
    );
}
