//! Bytes that leave a queue.
ghost use Rattle.std.specs.Prelude.{◌≡◌, ◌+◌, ◌*◌, ◌<◌, ◌≤◌, ◌^◌, ◌++◌, ◌||◌, nat_lt, length, take, drop};
ghost use Rattle.buffer_pool.specs.Kept.{Kept, HeldWithin};
ghost use Rattle.chunkqueue.specs.Items.{Leads, items_of, count_of, front_of, staged_of};
ghost use Rattle.fcgi_records.specs.Feeding.{AllInMemory, bytes_of};
ghost use Rattle.fcgi_gateway.specs.Sending.{IsContentWithin, body_after};

use crate::sending::Sending;
use chunkqueue::{BUFFER_SIZE, Chunks, Queue, Store};

/// The first of the bytes that can leave now, so many at most.
pub(crate) fn front_within(queue: &Chunks, most: u64) -> &[u8]
    ensures front { result.now ≡ take most (front_of queue.now) }
    ensures leads { Leads (items_of queue.now) (staged_of queue.now) (front_of queue.now) }
{
    let front = queue.front_bytes();
    if most < front.len() as u64 {
        &front[..most as usize]
    } else {
        front
    }
}

// Takes the first bytes off.
fn skip(queue: &mut Chunks, store: &mut Store, n: usize)
    requires counted { HeldWithin store.old (length queue.old.numbers) }
    requires memory { AllInMemory (items_of queue.old) }
    requires within { n ≤ count_of queue.old }
    ensures items { items_of queue.new ≡ drop n (items_of queue.old) }
    ensures filled { store.new.filled ≡ store.old.filled }
    ensures kept { Kept store.old queue.old.numbers store.new queue.new.numbers }
{
    let mut left = n;
    while left > 0 {
        let taken = left.min(queue.front_bytes().len());
        queue.advance(store, taken);
        left -= taken;
    }
}

/// Hands a queue over without its first `n` bytes.
pub(crate) fn hand_over(queue: Chunks, store: &mut Store, n: usize, into: &mut Chunks)
    requires counted { HeldWithin store.old (length queue.numbers + length into.old.numbers) }
    requires memory { AllInMemory (items_of queue) }
    requires fits { count_of into.old + count_of queue < 2 ^ 63 }
    ensures items { items_of into.new ≡ items_of into.old ++ drop n (items_of queue) }
    ensures filled { store.new.filled ≤ store.old.filled + 2 * BUFFER_SIZE }
    ensures moves { store.new.filled ≤ store.old.filled + count_of queue }
    ensures kept { Kept store.old (queue.numbers ++ into.old.numbers) store.new into.new.numbers }
{
    let mut rest = queue;
    let first = (n as u64).min(rest.len()) as usize;
    skip(&mut rest, store, first);
    into.append_all(store, &mut rest);
    rest.close(store);
}

/// Takes the bytes off the body, where its content is what was sent.
pub(crate) fn take_content(sending: Sending, store: &mut Store, body: &mut Chunks, n: usize)
    requires counted { HeldWithin store.old (length body.old.numbers) }
    requires memory { AllInMemory (items_of body.old) }
    requires within { IsContentWithin n (front_of body.old) sending }
    ensures leads { Leads (items_of body.old) (staged_of body.old) (front_of body.old) }
    ensures body { bytes_of body.new ≡ body_after n (bytes_of body.old) sending }
    ensures memory { AllInMemory (items_of body.new) }
    ensures filled { store.new.filled ≡ store.old.filled }
    ensures kept { Kept store.old body.old.numbers store.new body.new.numbers }
{
    // What the queue promises of its first bytes.
    let _ = body.front_bytes();
    match sending {
        Sending::Content(_) => body.advance(store, n),
        Sending::Lead(_) | Sending::Header(_, _) | Sending::Done => {}
    }
}

/// Whether a byte was taken by now.
pub(crate) fn has_begun(begun: bool, n: usize) -> bool
    ensures { result ≡ (begun || nat_lt 0 n) }
{
    begun || n > 0
}
