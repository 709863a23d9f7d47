//! What every chunk queue does.
use buffer_pool::BUFFER_SIZE;
use lt_bytes::NoMemory;
use lt_world::{Fault, FileId, Files, Owner};

/// A list of items, each a byte in memory or the byte at a position of an opened file. The first
/// item leaves first. A queue must be closed: it can't be dropped.
pub trait Queue {
    ghost use Rattle.std.specs.Prelude.{◌≡◌, ℕ, ◌+◌, ◌-◌, ◌*◌, ◌^◌, ◌≤◌, ◌<◌, ◌++◌, List, [], map, min, length, take, drop, Some, OnOk, OnErr, IsOk};
    ghost use Rattle.lt_world.specs.Causes.{Rose};
    ghost use Rattle.chunkqueue.specs.Items.{Byte, Contents, empty, range, items_of, count_of, staged_of, front_of, staging_of, memory_front, Leads, staged_behind, AllLie, Shows};
    ghost use Rattle.buffer_pool.specs.State.{PoolState};
    ghost use Rattle.buffer_pool.specs.Kept.{Kept, HeldWithin};

    /// The owner of the buffers, which is lent to each call that may take or give one.
    type Owner;

    /// What a queue holds.
    ghost contents: { Self → Contents };

    /// What a store keeps.
    ghost stored: { Self.Owner → PoolState };

    /// That few nodes hold what waits, as each call leaves it.
    ghost dense: { Contents → Type 0 };

    /// An empty queue.
    fn new() -> Self
        ensures empty { contents result ≡ empty }
        ensures dense { dense (contents result) };

    /// Appends bytes, all or none.
    fn push_bytes(&mut self, store: &mut Self::Owner, bytes: &[u8]) -> Result<(), NoMemory>
        requires counted { HeldWithin (stored store.old) (length (contents self.old).numbers) }
        requires fits { count_of (contents self.old) + length bytes.now < 2 ^ 63 }
        ensures ok { OnOk result (items_of (contents self.new) ≡ items_of (contents self.old) ++ map Byte bytes.now) }
        ensures err { OnErr result (contents self.new ≡ contents self.old) }
        ensures staged { staged_of (contents self.new) ≡ staged_of (contents self.old) }
        ensures spare { length bytes.now ≤ BUFFER_SIZE * length (stored store.old).free → IsOk result }
        ensures dense { dense (contents self.new) }
        ensures filled { (stored store.new).filled ≤ (stored store.old).filled + length bytes.now }
        ensures kept { Kept (stored store.old) (contents self.old).numbers (stored store.new) (contents self.new).numbers };

    /// Appends a range of an opened file. A range of no bytes appends nothing.
    fn push_file(
        &mut self,
        store: &mut Self::Owner,
        file: FileId,
        start: u64,
        len: u64,
    ) -> Result<(), NoMemory>
        requires counted { HeldWithin (stored store.old) (length (contents self.old).numbers) }
        requires fits { count_of (contents self.old) + len < 2 ^ 63 }
        requires within { start + len < 2 ^ 63 }
        ensures ok { OnOk result (items_of (contents self.new) ≡ items_of (contents self.old) ++ range file.0 start len) }
        ensures err { OnErr result (contents self.new ≡ contents self.old) }
        ensures staged { staged_of (contents self.new) ≡ staged_of (contents self.old) }
        ensures spare { min len 1 ≤ length (stored store.old).free → IsOk result }
        ensures dense { dense (contents self.new) }
        ensures filled { (stored store.new).filled ≡ (stored store.old).filled }
        ensures kept { Kept (stored store.old) (contents self.old).numbers (stored store.new) (contents self.new).numbers };

    /// Moves everything to the end of this queue. It takes no memory, and copies the bytes of two chunks at most.
    fn append_all(&mut self, store: &mut Self::Owner, from: &mut Self)
        requires counted { HeldWithin (stored store.old) (length (contents self.old).numbers + length (contents from.old).numbers) }
        requires fits { count_of (contents self.old) + count_of (contents from.old) < 2 ^ 63 }
        ensures items { items_of (contents self.new) ≡ items_of (contents self.old) ++ items_of (contents from.old) }
        ensures from { contents from.new ≡ empty }
        ensures staged { staged_of (contents self.new) ≡
            staged_behind (items_of (contents self.old)) (staged_of (contents self.old)) (staged_of (contents from.old)) }
        ensures dense { dense (contents self.new) × dense (contents from.new) }
        ensures filled { (stored store.new).filled ≤ (stored store.old).filled + 2 * BUFFER_SIZE }
        // What moves is copied once at most.
        ensures moves { (stored store.new).filled ≤ (stored store.old).filled + count_of (contents from.old) }
        ensures kept { Kept (stored store.old) ((contents self.old).numbers ++ (contents from.old).numbers)
            (stored store.new) (contents self.new).numbers };

    /// Moves the first `n` items of `from` to the end of this queue. Only where a chunk is split a buffer is needed, and it is
    /// taken before anything moves. What `from` had staged is read anew.
    fn steal(&mut self, store: &mut Self::Owner, from: &mut Self, n: u64) -> Result<(), NoMemory>
        requires counted { HeldWithin (stored store.old) (length (contents self.old).numbers + length (contents from.old).numbers) }
        requires fits { count_of (contents self.old) + n < 2 ^ 63 }
        requires within { n ≤ count_of (contents from.old) }
        ensures items { OnOk result (items_of (contents self.new) ≡ items_of (contents self.old) ++ take n (items_of (contents from.old))) }
        ensures from { OnOk result (items_of (contents from.new) ≡ drop n (items_of (contents from.old))) }
        ensures err { OnErr result ((contents self.new ≡ contents self.old) × (contents from.new ≡ contents from.old)) }
        ensures none { n ≡ 0 → (contents self.new ≡ contents self.old) × (contents from.new ≡ contents from.old) }
        ensures staged { staged_of (contents self.new) ≡ staged_of (contents self.old) }
        ensures rest { OnOk result (0 < n → staged_of (contents from.new) ≡ []) }
        ensures spare { min (min n (count_of (contents from.old) - n)) 1 ≤ length (stored store.old).free → IsOk result }
        ensures dense { dense (contents self.new) × dense (contents from.new) }
        ensures filled { (stored store.new).filled ≤ (stored store.old).filled + 3 * BUFFER_SIZE }
        ensures moves { (stored store.new).filled + count_of (contents from.new) ≤ (stored store.old).filled + count_of (contents from.old) }
        ensures kept { Kept (stored store.old) ((contents self.old).numbers ++ (contents from.old).numbers)
            (stored store.new) ((contents self.new).numbers ++ (contents from.new).numbers) };

    /// The bytes that can leave now, at most `BUFFER_SIZE` of them: none where the queue is empty, or
    /// where a range stands first that isn't staged.
    fn front_bytes(&self) -> &[u8]
        ensures front { result.now ≡ front_of (contents self.now) }
        ensures leads { Leads (items_of (contents self.now)) (staged_of (contents self.now)) result.now }
        ensures most { length result.now ≤ BUFFER_SIZE };

    /// Reads the first bytes of a range that stands first and isn't staged, by one `read_at`. It
    /// takes no memory. After a fault the queue is as it was.
    fn stage<F: Files>(
        &mut self,
        store: &mut Self::Owner,
        files: &mut F,
        owner: Owner,
    ) -> Result<(), Fault>
        requires counted { HeldWithin (stored store.old) (length (contents self.old).numbers) }
        requires lies { F.tells → staged_of (contents self.old) ≡ [] → AllLie (F.disk files.old).table (items_of (contents self.old)) }
        ensures items { items_of (contents self.new) ≡ items_of (contents self.old) }
        ensures ready { OnOk result (0 < count_of (contents self.old) → 0 < length (front_of (contents self.new))) }
        ensures staged { OnOk result (length (staged_of (contents self.new)) ≡ staging_of (contents self.old)) }
        ensures shows { OnOk result (F.tells →
            Shows (F.disk files.old).table (items_of (contents self.old)) (staged_of (contents self.old)) →
            Shows (F.disk files.old).table (items_of (contents self.new)) (staged_of (contents self.new))) }
        // With nothing to stage, nothing is asked.
        ensures idle { staging_of (contents self.old) ≡ length (staged_of (contents self.old)) →
            IsOk result × (contents self.new ≡ contents self.old) × (files.new ≡ files.old) }
        ensures err { OnErr result (contents self.new ≡ contents self.old) }
        ensures cause { OnErr result (Rose (F.faults files.old) (F.faults files.new)) }
        ensures owner { OnErr result ((F.reads files.new).failed ≡ Some owner) }
        ensures read { OnOk result ((F.reads files.new).failed ≡ (F.reads files.old).failed) }
        ensures once { (F.reads files.new).made ≤ (F.reads files.old).made + 1 }
        ensures disk { F.tells → F.disk files.new ≡ F.disk files.old }
        ensures faults { F.faults files.old ≤ F.faults files.new }
        ensures later { F.later files.old files.new }
        ensures dense { dense (contents self.new) }
        ensures filled { (stored store.new).filled ≤ (stored store.old).filled + BUFFER_SIZE }
        ensures kept { Kept (stored store.old) (contents self.old).numbers (stored store.new) (contents self.new).numbers };

    /// Takes bytes off the front. It takes no memory.
    fn advance(&mut self, store: &mut Self::Owner, n: usize)
        requires counted { HeldWithin (stored store.old) (length (contents self.old).numbers) }
        requires within { n ≤ length (front_of (contents self.old)) }
        ensures items { items_of (contents self.new) ≡ drop n (items_of (contents self.old)) }
        ensures staged { staged_of (contents self.new) ≡ drop n (staged_of (contents self.old)) }
        ensures dense { dense (contents self.new) }
        ensures filled { (stored store.new).filled ≡ (stored store.old).filled }
        ensures kept { Kept (stored store.old) (contents self.old).numbers (stored store.new) (contents self.new).numbers };

    /// Copies the bytes in memory that stand before any range, as many as there is room for, and
    /// answers how many. It takes no memory.
    fn peek(&self, buf: &mut [u8]) -> usize
        ensures count { result ≡ min (length buf.old) (length (memory_front (items_of (contents self.now)))) }
        ensures bytes { take result buf.new ≡ take result (memory_front (items_of (contents self.now))) }
        ensures rest { drop result buf.new ≡ drop result buf.old };

    /// Gives every buffer back. It takes no memory.
    fn empty_into(&mut self, store: &mut Self::Owner)
        requires { HeldWithin (stored store.old) (length (contents self.old).numbers) }
        ensures empty { contents self.new ≡ empty }
        ensures dense { dense (contents self.new) }
        ensures filled { (stored store.new).filled ≡ (stored store.old).filled }
        ensures kept { Kept (stored store.old) (contents self.old).numbers (stored store.new) [] };

    /// Gives every buffer back, and ends the queue. It takes no memory.
    fn close(self, store: &mut Self::Owner)
        requires { HeldWithin (stored store.old) (length (contents self).numbers) }
        ensures filled { (stored store.new).filled ≡ (stored store.old).filled }
        ensures kept { Kept (stored store.old) (contents self).numbers (stored store.new) [] };

    /// How many items there are.
    fn len(&self) -> u64
        ensures count { result ≡ count_of (contents self.now) }
        ensures fits { result < 2 ^ 63 };
}
