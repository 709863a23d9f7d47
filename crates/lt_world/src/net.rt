//! Sockets: what a net answers, and what its answers mean.

/// A connection, of a client or to a gateway, by its number. Numbers count upwards over both together.
#[derive(Clone, Copy, Debug, PartialEq, Eq)]
pub struct Link(pub u32);

/// An IPv4 address and a port.
#[derive(Clone, Copy, Debug, PartialEq, Eq)]
pub struct Address {
    pub ip: [u8; 4],
    pub port: u16,
}

/// The request on whose behalf a call is made: the number of the client's link, and the request's number on it,
/// counted from 0.
#[derive(Clone, Copy, Debug, PartialEq, Eq)]
pub struct Owner {
    pub conn: u32,
    pub request: u32,
}

#[derive(Clone, Copy, Debug, PartialEq, Eq)]
pub enum Event {
    /// A client's connection was accepted.
    Arrived {
        link: Link,
        peer: Address,
        local: Address,
    },
    /// A read of the link may give something.
    Readable(Link),
    /// A write to the link may take something.
    Writable(Link),
    /// Nothing is ready now.
    Idle,
    /// Nothing will be ready any more.
    Over,
    /// No event is lost.
    NoMemory,
}

/// The kind of the last answer of `next`.
#[derive(Clone, Copy, Debug, PartialEq, Eq)]
pub enum NextKind {
    NoneYet,
    Event,
    Idle,
    Over,
    NoMemory,
}

/// What a read gave.
#[derive(Clone, Copy, Debug, PartialEq, Eq)]
pub enum Got {
    /// So many bytes, at the front of the buffer: one at least.
    Bytes(usize),
    /// The peer sends no more.
    End,
    NotYet,
    Failed,
}

/// What a write took.
#[derive(Clone, Copy, Debug, PartialEq, Eq)]
pub enum Took {
    /// So many bytes, from the front of what was offered: one at least.
    Bytes(usize),
    NotYet,
    Failed,
}

/// What a connect gave. The link may still be on its way: its first write tells.
#[derive(Clone, Copy, Debug, PartialEq, Eq)]
pub enum Dialled {
    Link(Link),
    Failed,
}

/// Why a link is closed.
#[derive(Clone, Copy, Debug, PartialEq, Eq)]
pub enum Ending {
    /// All that was owed was taken, and nothing more is due.
    Clean,
    /// A read or a write of the client's link failed.
    ClientFault,
    /// A file could not be read any more.
    FileFault,
    /// A gateway's answer broke off inside the reply.
    GatewayCut,
    /// Too many connections are open.
    Full,
    NoMemory,
    /// A gateway's link whose attempt is over.
    Gate,
}

/// The sockets of the server.
///
/// No call waits. `read`, `write`, `connect` and `close` take no memory.
pub trait Net {
    ghost use Rattle.std.specs.Prelude.{◌≡◌, ℕ, ◌+◌, ◌<◌, ◌≤◌, List, [], ◌∷◌, length};
    ghost use Rattle.lt_world.specs.declared.net.NextKind.{NextKind};
    ghost use Rattle.lt_world.specs.Trace.{Entry, Close, said};
    ghost use Rattle.lt_world.specs.Answers.{event_tells, kind_of, IsFresh, IsNumbered, OnEvent, UsesEvent, read_act, write_act, dial_act, GotWithin, TookWithin, IsFreshDial, IsNumberedDial};
    ghost use Rattle.lt_world.specs.Causes.{GotCause, TookCause, DialCause};

    /// Whether nets of this type tell their answers.
    ghost tells: { Type 0 };

    /// The answers so far, the newest first.
    ghost trace: { Self → List Entry };

    /// How often a call has failed. It never falls.
    ghost faults: { Self → ℕ };

    /// How often `listen` or `wait` has failed, where the net has them. It never falls.
    ghost wait_faults: { Self → ℕ };

    /// The kind of the last answer of `next`.
    ghost last: { Self → NextKind };

    /// Whether nets of this type run out of events.
    ghost ends: { Type 0 };

    /// How many events are left, where they run out.
    ghost left: { Self → ℕ };

    /// For how many calls of `read`, `write`, `connect` and `close` there is room until the next `next`.
    ghost calls: { Self → ℕ };

    /// For how many bytes of reads and writes there is room until the next `next`.
    ghost room: { Self → ℕ };

    /// The number of the next link: each link so far is below it.
    ghost links: { Self → ℕ };

    /// The second net is what the first one may become by calls of this trait. What is later has failed as often or
    /// more, waited as it had, and has no more events left.
    ghost later: { Self → Self → Type 0 };

    /// The next event. A link that arrives has a number that no link had before, so at 2^32 links none arrives.
    fn next(&mut self) -> Event
        ensures trace { tells → trace self.new ≡ event_tells result (trace self.old) }
        ensures fresh { tells → IsFresh result (trace self.old) }
        ensures links { IsNumbered result (links self.old) (links self.new) }
        ensures last { last self.new ≡ kind_of result }
        ensures left { ends → UsesEvent result (left self.old) (left self.new) }
        ensures calls { OnEvent result (1024 ≤ calls self.new) }
        ensures room { OnEvent result (4096 ≤ room self.new) }
        ensures faults { faults self.old ≤ faults self.new }
        ensures wait_faults { wait_faults self.new ≡ wait_faults self.old }
        ensures later { later self.old self.new };

    /// Reads once.
    fn read(&mut self, link: Link, buf: &mut [u8]) -> Got
        requires some { 0 < length buf.old }
        requires known { link.0 < links self.old }
        requires calls { 0 < calls self.old }
        requires room { length buf.old ≤ room self.old }
        ensures trace { tells → trace self.new ≡ said link.0 (read_act result buf.new ∷ []) (trace self.old) }
        ensures within { GotWithin result (length buf.new) }
        ensures cause { GotCause result (faults self.old) (faults self.new) }
        ensures faults { faults self.old ≤ faults self.new }
        ensures wait_faults { wait_faults self.new ≡ wait_faults self.old }
        ensures links { links self.new ≡ links self.old }
        ensures last { last self.new ≡ last self.old }
        ensures left { ends → left self.new ≤ left self.old }
        ensures calls { calls self.old ≤ calls self.new + 1 }
        ensures room { room self.old ≤ room self.new + length buf.new }
        ensures later { later self.old self.new };

    /// Offers these bytes once.
    fn write(&mut self, link: Link, bytes: &[u8]) -> Took
        requires some { 0 < length bytes.now }
        requires known { link.0 < links self.old }
        requires calls { 0 < calls self.old }
        requires room { length bytes.now ≤ room self.old }
        ensures trace { tells → trace self.new ≡ said link.0 (write_act result bytes.now ∷ []) (trace self.old) }
        ensures within { TookWithin result (length bytes.now) }
        ensures cause { TookCause result (faults self.old) (faults self.new) }
        ensures faults { faults self.old ≤ faults self.new }
        ensures wait_faults { wait_faults self.new ≡ wait_faults self.old }
        ensures links { links self.new ≡ links self.old }
        ensures last { last self.new ≡ last self.old }
        ensures left { ends → left self.new ≤ left self.old }
        ensures calls { calls self.old ≤ calls self.new + 1 }
        ensures room { room self.old ≤ room self.new + length bytes.now }
        ensures later { later self.old self.new };

    /// Begins a connection to a gateway for this request. Its number is one that no link had before, so at 2^32 links
    /// it fails.
    fn connect(&mut self, owner: Owner, to: Address) -> Dialled
        requires known { owner.conn < links self.old }
        requires calls { 0 < calls self.old }
        ensures trace { tells → trace self.new ≡ said owner.conn (dial_act result owner to ∷ []) (trace self.old) }
        ensures fresh { tells → IsFreshDial result (trace self.old) }
        ensures links { IsNumberedDial result (links self.old) (links self.new) }
        ensures cause { DialCause result (faults self.old) (faults self.new) }
        ensures faults { faults self.old ≤ faults self.new }
        ensures wait_faults { wait_faults self.new ≡ wait_faults self.old }
        ensures last { last self.new ≡ last self.old }
        ensures left { ends → left self.new ≤ left self.old }
        ensures calls { calls self.old ≤ calls self.new + 1 }
        ensures room { room self.old ≤ room self.new }
        ensures later { later self.old self.new };

    /// Closes a link, and tells why.
    fn close(&mut self, link: Link, ending: Ending)
        requires known { link.0 < links self.old }
        requires calls { 0 < calls self.old }
        ensures trace { tells → trace self.new ≡ said link.0 (Close ending ∷ []) (trace self.old) }
        ensures faults { faults self.old ≤ faults self.new }
        ensures wait_faults { wait_faults self.new ≡ wait_faults self.old }
        ensures links { links self.new ≡ links self.old }
        ensures last { last self.new ≡ last self.old }
        ensures left { ends → left self.new ≤ left self.old }
        ensures calls { calls self.old ≤ calls self.new + 1 }
        ensures room { room self.old ≤ room self.new }
        ensures later { later self.old self.new };

    ghost later_same: { (net : Self) → later net net };

    ghost later_later: { (a b c : Self) → later a b → later b c → later a c };

    ghost later_faults: { (a b : Self) → later a b → faults a ≤ faults b };

    ghost later_wait_faults: { (a b : Self) → later a b → wait_faults b ≡ wait_faults a };

    ghost later_left: { (a b : Self) → ends → later a b → left b ≤ left a };
}
