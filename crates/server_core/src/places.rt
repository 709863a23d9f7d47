//! Places for clients, made before they arrive, so that an arrival takes no memory.
ghost use Rattle.std.specs.Prelude.{◌≡◌, ◌+◌, ◌≤◌, ◌<◌, [], ◌∷◌, ◌++◌, take, drop, length, get_or, vec_len, vec_capacity, IfOk};
ghost use Rattle.buffer_pool.specs.Kept.{Kept, HeldWithin};
ghost use Rattle.server_core.specs.Places.{ArePlaces, AllFree};

use crate::client::Client;
use chunkqueue::Store;
use connection::Conn;
use lt_bytes::NoMemory;
use lt_world::{Address, Link};
use std::alloc::Global;

/// Clients that are open at once, at most.
pub(crate) const CONNECTION_LIMIT: usize = 256;

// What stands in a place that no client has.
fn nobody(alloc: Global) -> Conn
    ensures numbers { result.numbers ≡ [] }
{
    let nowhere = Address {
        ip: [0; 4],
        port: 0,
    };
    Conn::new(alloc, Link(0), nowhere, nowhere)
}

/// As many places as clients may be open.
pub(crate) fn free_places(alloc: Global, store: &mut Store) -> Result<Vec<Client>, NoMemory>
    requires counted { HeldWithin store.old 0 }
    ensures all { IfOk result (λ places. vec_len places ≡ CONNECTION_LIMIT) }
    ensures room { IfOk result (λ places. CONNECTION_LIMIT ≤ vec_capacity places) }
    ensures free { IfOk result (λ places. AllFree places.items) }
    ensures spare { length store.old.free ≤ length store.new.free }
    ensures kept { Kept store.old [] store.new [] }
{
    let Ok(mut places) = Vec::with_capacity(alloc, CONNECTION_LIMIT) else {
        return Err(NoMemory);
    };
    while places.len() < CONNECTION_LIMIT {
        match Client::new(alloc, nobody(alloc)) {
            Ok(place) => places.push_reserved(place),
            Err(conn) => {
                let _no_file = conn.close(store);
                clear(&mut places, store);
                places.destroy_empty();
                return Err(NoMemory);
            }
        }
    }
    Ok(places)
}

/// Gives the memory of places back that no client has.
pub(crate) fn clear(places: &mut Vec<Client>, store: &mut Store)
    requires free { AllFree places.old.items }
    requires counted { HeldWithin store.old 0 }
    ensures empty { places.new.items ≡ [] }
    ensures kept { Kept store.old [] store.new [] }
{
    while let Some(place) = places.pop() {
        let _no_file = place.into_conn().close(store);
    }
}

/// Takes a client out of the table. Its place is free for another.
pub(crate) fn take_out(
    clients: &mut Vec<Client>,
    places: &mut Vec<Client>,
    alloc: Global,
    i: usize,
) -> Conn
    requires within { i < vec_len clients.old }
    requires places { ArePlaces clients.old.items places.old.items (vec_capacity clients.old) (vec_capacity places.old) }
    ensures value { result ≡ get_or clients.old.items i result }
    ensures items { clients.new.items ≡ take i clients.old.items ++ drop (i + 1) clients.old.items }
    ensures places { ArePlaces clients.new.items places.new.items (vec_capacity clients.new) (vec_capacity places.new) }
{
    let mut client = clients.remove(i);
    let conn = client.put(nobody(alloc));
    places.push_reserved(client);
    conn
}

/// Puts a client at the end of the table, in a place that is free.
pub(crate) fn put_in(
    clients: &mut Vec<Client>,
    places: &mut Vec<Client>,
    store: &mut Store,
    conn: Conn,
)
    requires within { length clients.old.items < CONNECTION_LIMIT }
    requires counted { HeldWithin store.old 0 }
    requires places { ArePlaces clients.old.items places.old.items (vec_capacity clients.old) (vec_capacity places.old) }
    ensures items { clients.new.items ≡ clients.old.items ++ conn ∷ [] }
    ensures places { ArePlaces clients.new.items places.new.items (vec_capacity clients.new) (vec_capacity places.new) }
    ensures filled { store.new.filled ≡ store.old.filled }
    ensures kept { Kept store.old [] store.new [] }
{
    let Some(mut place) = places.pop() else {
        // There are as many places and clients as clients may be open.
        unreachable!();
    };
    let nobody = place.put(conn);
    let _no_file = nobody.close(store);
    clients.push_reserved(place);
}
