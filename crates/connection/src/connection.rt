//! A connection and its calls.
ghost use Rattle.std.specs.Prelude.{◌≡◌, ℕ, ◌+◌, ◌-◌, ◌*◌, ◌^◌, ◌≤◌, ◌<◌, ◌++◌, [], drop, length, map, None, Some, true, false, nat_lt, option_map, if◌then◌else◌, IsOk, IfOk, OnOk, OnErr};
ghost use Rattle.buffer_pool.specs.Kept.{Kept, HeldWithin};
ghost use Rattle.lt_world.specs.Causes.{Rose};
ghost use Rattle.chunkqueue.specs.Items.{Byte, Leads, Shows, AllLie, empty, items_of, count_of, staged_of};
ghost use Rattle.server_model.specs.Steps.{arrived, received, received_end, advanced, looked, wants_memory, accepted, answered, holding, wrote, staged, has_no_items, number_of, is_read_at, room_of};
ghost use Rattle.http_head.specs.Scan.{IsScan};
ghost use Rattle.http_head.specs.Ends.{head_end};
ghost use Rattle.http_head.specs.declared.ends.HeadEnd.TheVariants.{At};
ghost use Rattle.connection.specs.Connection.{file_number, head_at, content_at, without_content, IsHeldUp, IsBodyOf};
ghost use Rattle.connection.specs.Stages.{stage_of, is_heading, is_taking, is_whole, is_asking, feeds, next_number};

use crate::looking::{continue_bytes, look, scanned, skip};
use crate::progress::{Progress, with_memory};
use crate::stage::Stage;
use chunkqueue::{BUFFER_SIZE, Chunks, Queue, Store};
use http_head::{HeadScan, Request};
use lt_bytes::NoMemory;
use lt_world::{Address, Fault, FileId, Files, Link, Owner};
use std::alloc::Global;
use std::marker::Model;
use std::mem::replace;

/// Bytes that are held of what a client sent, at most.
pub const INPUT_LIMIT: usize = 65_536;

// Content with which a body takes up nothing more: no machine has so much memory.
const CONTENT_LIMIT: u64 = (1 << 62) - 65_536;

/// One client's connection. It must be closed: it can't be dropped.
pub struct Conn {
    alloc: Global,
    link: Link,
    peer: Address,
    local: Address,
    // What came after the requests that were taken up.
    input: Chunks,
    // The current request's number, counted from 0.
    number: u32,
    progress: Progress,
    // The content of its body so far.
    body: Chunks,
    output: Chunks,
    file: Option<FileId>,
    ended: bool,
}

impl Model for Conn {
    ghost use Rattle.connection.specs.Connection.{Connected};

    ghost Value = { Connected };

    ghost use Rattle.connection.specs.Inside.{connected_of, IsConn};

    ghost view = { connected_of };

    ghost invariant = { IsConn };
}

impl Conn {
    /// A client that just arrived.
    pub fn new(alloc: Global, link: Link, peer: Address, local: Address) -> Conn
        ensures held { result.held ≡ arrived link.0 peer local }
        ensures numbers { result.numbers ≡ [] }
    {
        Conn {
            alloc,
            link,
            peer,
            local,
            input: Chunks::new(),
            number: 0,
            progress: Progress::Awaiting(HeadScan::new()),
            body: Chunks::new(),
            output: Chunks::new(),
            file: None,
            ended: false,
        }
    }

    /// The client's link.
    pub fn link(&self) -> Link
        ensures link { result.0 ≡ self.now.held.link }
    {
        self.link
    }

    /// Where the client came from.
    pub fn peer(&self) -> Address
        ensures peer { result ≡ self.now.held.peer }
    {
        self.peer
    }

    /// The address to which it came.
    pub fn local(&self) -> Address
        ensures local { result ≡ self.now.held.local }
    {
        self.local
    }

    /// The current request, as files know it.
    pub fn owner(&self) -> Owner
        ensures conn { result.conn ≡ self.now.held.link }
        ensures request { result.request ≡ number_of self.now.held.stage }
    {
        Owner {
            conn: self.link.0,
            request: self.number,
        }
    }

    /// How many bytes may be read: 0 exactly where no read is wanted, since as many are held as may be, the client ended, or the
    /// current reply is the last.
    pub fn room(&self) -> usize
        ensures room { result ≡ room_of self.now.held }
    {
        if self.reads() && !self.ended {
            INPUT_LIMIT - self.input.len() as usize
        } else {
            0
        }
    }

    // A further request can come behind the current one.
    fn reads(&self) -> bool
        ensures { result ≡ is_read_at self.now.held.stage }
    {
        match &self.progress {
            Progress::Awaiting(_)
            | Progress::Heading(_)
            | Progress::Taking(_, _)
            | Progress::Whole(_) => true,
            Progress::Refused(_) | Progress::Declined(_, _) => false,
            Progress::Answering(last) => !*last,
        }
    }

    /// How many buffers are held, found by a walk over the queues.
    pub fn nodes(&self) -> u64
        requires countable { length self.now.numbers < 2 ^ 64 }
        ensures nodes { result ≡ length self.now.numbers }
    {
        self.input.nodes() + self.body.nodes() + self.output.nodes()
    }

    /// Takes what was read. With a spare buffer for each 4,096 bytes it cannot fail.
    pub fn got(&mut self, store: &mut Store, bytes: &[u8]) -> Result<(), NoMemory>
        requires counted { HeldWithin store.old (length self.old.numbers) }
        requires room { length bytes.now ≤ room_of self.old.held }
        ensures ok { OnOk result (self.new.held ≡ received self.old.held bytes.now) }
        ensures err { OnErr result (self.new.held ≡ self.old.held) }
        ensures spare { length bytes.now ≤ BUFFER_SIZE * length store.old.free → IsOk result }
        ensures filled { store.new.filled ≤ store.old.filled + length bytes.now }
        ensures kept { Kept store.old self.old.numbers store.new self.new.numbers }
    {
        self.input.push_bytes(store, bytes)?;
        let Progress::Awaiting(scan) = &self.progress else {
            return Ok(());
        };
        self.progress = Progress::Awaiting(scan.see(bytes));
        Ok(())
    }

    /// The client sends nothing more.
    pub fn ended(&mut self)
        ensures held { self.new.held ≡ received_end self.old.held }
        ensures numbers { self.new.numbers ≡ self.old.numbers }
    {
        self.ended = true;
    }

    /// Takes the next step that the bytes which came allow, and answers what is to be done. A head is taken up once all
    /// replies before it were taken, and the bytes of its body as they come. Without memory nothing changes, but that some of
    /// a body may be read. Memory is wanted for a head only where it is whole.
    #[tactic(auto, using(crate::proofs::Feeding::idle))]
    pub fn advance(&mut self, store: &mut Store) -> Result<Stage, NoMemory>
        requires counted { HeldWithin store.old (length self.old.numbers) }
        ensures ok { OnOk result (self.new.held ≡ advanced self.old.held) }
        ensures stage { IfOk result (λ stage. stage ≡ stage_of self.new.held) }
        ensures err { OnErr result (IsHeldUp self.old.held self.new.held) }
        ensures exact { OnErr result (is_taking self.old.held.stage ≡ false → self.new ≡ self.old) }
        // It is wanted only where a head is whole, or bytes of a body came.
        ensures wants { OnErr result (wants_memory self.old.held ≡ true) }
        ensures ends { OnErr result (is_taking self.old.held.stage ≡ false → (n : ℕ) × (head_end self.old.held.input ≡ At n)) }
        // A byte is put into a buffer once at most as it leaves the input.
        ensures filled { store.new.filled + length self.new.held.input ≤ store.old.filled + length self.old.held.input }
        ensures within { length self.old.held.input ≤ INPUT_LIMIT }
        ensures kept { Kept store.old self.old.numbers store.new self.new.numbers }
    {
        // What is held is short: a look at it brings the invariant.
        let _ = &self.input;
        if let Some(number) = self.next_number() {
            return self.take_up(store, number);
        }
        if !self.feeds() {
            return Ok(self.standing());
        }
        self.feed(store)?;
        Ok(self.standing())
    }

    // A body takes up what came, or is over.
    fn feeds(&self) -> bool
        ensures { result ≡ feeds self.now.held }
    {
        match &self.progress {
            Progress::Taking(_, body) => self.input.len() > 0 || body.is_over(),
            Progress::Awaiting(_)
            | Progress::Heading(_)
            | Progress::Whole(_)
            | Progress::Refused(_)
            | Progress::Declined(_, _)
            | Progress::Answering(_) => false,
        }
    }

    // The body takes up what came.
    fn feed(&mut self, store: &mut Store) -> Result<(), NoMemory>
        requires counted { HeldWithin store.old (length self.old.numbers) }
        requires feeds { feeds self.old.held ≡ true }
        ensures ok { OnOk result (self.new.held ≡ advanced self.old.held) }
        ensures err { OnErr result (IsHeldUp self.old.held self.new.held) }
        ensures filled { store.new.filled + length self.new.held.input ≤ store.old.filled + length self.old.held.input }
        ensures kept { Kept store.old self.old.numbers store.new self.new.numbers }
    {
        if self.body.len() >= CONTENT_LIMIT {
            return Err(NoMemory);
        }
        let Progress::Taking(_, body) = &mut self.progress else {
            return Ok(());
        };
        let answer = body.feed(store, &mut self.input, &mut self.body);
        self.progress = replace(&mut self.progress, Progress::Awaiting(HeadScan::new())).after(
            answer,
        );
        with_memory(answer)
    }

    // The number of the request that what came is looked at for.
    fn next_number(&self) -> Option<u32>
        ensures { result ≡ next_number self.now.held }
    {
        match &self.progress {
            Progress::Awaiting(_) => Some(self.number),
            Progress::Answering(false) if self.output.len() == 0 => Some(self.number + 1),
            Progress::Heading(_)
            | Progress::Taking(_, _)
            | Progress::Whole(_)
            | Progress::Refused(_)
            | Progress::Declined(_, _)
            | Progress::Answering(_) => None,
        }
    }

    // Where it stands once it advanced.
    fn standing(&self) -> Stage
        ensures { result ≡ stage_of self.now.held }
    {
        let over = match &self.progress {
            Progress::Heading(_) => return Stage::Head,
            Progress::Whole(_) => return Stage::Whole,
            Progress::Refused(status) => return Stage::Refused(*status),
            Progress::Declined(status, _) => return Stage::Refused(*status),
            Progress::Awaiting(_) | Progress::Taking(_, _) => self.ended,
            Progress::Answering(last) => *last,
        };
        if self.output.len() > 0 {
            Stage::Writing
        } else if over {
            Stage::Finished
        } else {
            Stage::Waiting
        }
    }

    // What is known of all that came, where a head is looked for: what follows another request wasn't looked at.
    fn scan(&self) -> HeadScan
        ensures { IsScan self.now.held.input result }
    {
        match &self.progress {
            Progress::Awaiting(scan) => *scan,
            Progress::Heading(_)
            | Progress::Taking(_, _)
            | Progress::Whole(_)
            | Progress::Refused(_)
            | Progress::Declined(_, _)
            | Progress::Answering(_) => scanned(&self.input),
        }
    }

    // Nothing is owed any more, so the request of this number is looked for.
    fn take_up(&mut self, store: &mut Store, number: u32) -> Result<Stage, NoMemory>
        requires counted { HeldWithin store.old (length self.old.numbers) }
        requires next { next_number self.old.held ≡ Some number }
        ensures ok { OnOk result (self.new.held ≡ looked number self.old.held) }
        ensures stage { IfOk result (λ stage. stage ≡ stage_of self.new.held) }
        ensures err { OnErr result (self.new ≡ self.old) }
        ensures wants { OnErr result ((n : ℕ) × (head_end self.old.held.input ≡ At n)) }
        ensures filled { store.new.filled + length self.new.held.input ≤ store.old.filled + length self.old.held.input }
        ensures kept { Kept store.old self.old.numbers store.new self.new.numbers }
    {
        let scan = self.scan();
        let found = look(self.alloc, &self.input, scan.end())?;
        skip(&mut self.input, store, found.taken());
        self.number = number;
        self.progress = found.progress(scan);
        Ok(self.standing())
    }

    /// Accepts a body of so many bytes at most for the request whose head was read, and tells its client so where it waits for
    /// that. Without memory nothing changes.
    pub fn accept_body(&mut self, store: &mut Store, limit: u64) -> Result<(), NoMemory>
        requires counted { HeldWithin store.old (length self.old.numbers) }
        requires heading { is_heading self.old.held.stage ≡ true }
        ensures ok { OnOk result (self.new.held ≡ accepted self.old.held limit) }
        ensures err { OnErr result (self.new.held ≡ self.old.held) }
        ensures filled { store.new.filled ≤ store.old.filled + 25 }
        ensures kept { Kept store.old self.old.numbers store.new self.new.numbers }
    {
        let Progress::Heading(request) = &self.progress else {
            return Ok(());
        };
        let told = continue_bytes(request, limit);
        self.output.push_bytes(store, told)?;
        self.progress = replace(&mut self.progress, Progress::Awaiting(HeadScan::new())).accepted(
            limit,
        );
        Ok(())
    }

    /// Moves the content of the request that is there behind `into`. It takes no memory.
    pub fn take_body(&mut self, store: &mut Store, into: &mut Chunks)
        requires counted { HeldWithin store.old (length self.old.numbers + length into.old.numbers) }
        requires whole { is_whole self.old.held.stage ≡ true }
        requires fits { count_of into.old < 2 ^ 62 }
        ensures held { self.new.held ≡ without_content self.old.held }
        ensures moved { items_of into.new ≡ items_of into.old ++ map Byte (content_at self.old.held.stage) }
        ensures filled { store.new.filled ≤ store.old.filled + 2 * BUFFER_SIZE }
        ensures kept { Kept store.old (self.old.numbers ++ into.old.numbers) store.new (self.new.numbers ++ into.new.numbers) }
    {
        into.append_all(store, &mut self.body);
    }

    /// The request whose head was read, until its reply is given.
    pub fn request(&self) -> Option<&Request>
        ensures request { option_map (λ request. request.now) result ≡ head_at self.now.held.stage }
    {
        match &self.progress {
            Progress::Heading(request)
            | Progress::Taking(request, _)
            | Progress::Whole(request)
            | Progress::Declined(_, request) => Some(request),
            Progress::Awaiting(_) | Progress::Refused(_) | Progress::Answering(_) => None,
        }
    }

    /// Gives the reply to the request that is there: a head, and a body that is moved behind it. It follows what is still owed
    /// of 100 (Continue), and the request is given up with the content that wasn't taken. A file is named where the body
    /// ends in a range of it, and is kept until that was taken. Without memory the body stays, and the file is kept to be given
    /// back by `close`.
    pub fn answer(
        &mut self,
        store: &mut Store,
        head: &[u8],
        body: &mut Chunks,
        file: Option<FileId>,
        last: bool,
    ) -> Result<(), NoMemory>
        requires counted { HeldWithin store.old (length self.old.numbers + length body.old.numbers) }
        requires asking { is_asking self.old.held.stage ≡ true }
        requires some { 0 < length head.now }
        requires body { IsBodyOf (file_number file) (items_of body.old) }
        requires unstaged { staged_of body.old ≡ [] }
        requires fits { length head.now + count_of body.old < 2 ^ 62 + 2 ^ 32 }
        requires number { last ≡ false → number_of self.old.held.stage < 2 ^ 32 - 1 }
        ensures ok { OnOk result (self.new.held ≡ answered self.old.held (map Byte head.now ++ items_of body.old) (file_number file) last) }
        ensures moved { OnOk result (body.new ≡ empty) }
        ensures err { OnErr result ((self.new.held ≡ holding self.old.held (file_number file)) × (body.new ≡ body.old)) }
        ensures filled { store.new.filled ≤ store.old.filled + length head.now + 2 * BUFFER_SIZE }
        ensures kept { Kept store.old (self.old.numbers ++ body.old.numbers) store.new (self.new.numbers ++ body.new.numbers) }
    {
        self.file = file;
        self.output.push_bytes(store, head)?;
        self.output.append_all(store, body);
        self.body.empty_into(store);
        self.progress = Progress::Answering(last);
        Ok(())
    }

    /// Something is owed.
    pub fn owes(&self) -> bool
        ensures owes { result ≡ nat_lt 0 (length self.now.held.owed) }
    {
        0 < self.output.len()
    }

    /// Reads what is owed next from its file, where it isn't read yet.
    pub fn stage<F: Files>(&mut self, store: &mut Store, files: &mut F) -> Result<(), Fault>
        requires counted { HeldWithin store.old (length self.old.numbers) }
        requires lies { F.tells → self.old.held.staged ≡ [] → AllLie (F.disk files.old).table self.old.held.owed }
        ensures held { self.new.held ≡ staged self.old.held self.new.held.staged }
        ensures shows { OnOk result (F.tells → Shows (F.disk files.old).table self.old.held.owed self.old.held.staged →
            Shows (F.disk files.old).table self.old.held.owed self.new.held.staged) }
        ensures ready { OnOk result (0 < length self.old.held.owed → 0 < length self.new.front) }
        ensures offers { OnOk result (length self.new.front ≡ self.old.offers) }
        ensures err { OnErr result (self.new.held ≡ self.old.held) }
        ensures cause { OnErr result (Rose (F.faults files.old) (F.faults files.new)) }
        ensures owner { OnErr result ((F.reads files.new).failed ≡ Some (record { conn = self.old.held.link; request = number_of self.old.held.stage })) }
        ensures read { OnOk result ((F.reads files.new).failed ≡ (F.reads files.old).failed) }
        ensures once { (F.reads files.new).made ≤ (F.reads files.old).made + 1 }
        ensures disk { F.tells → F.disk files.new ≡ F.disk files.old }
        ensures faults { F.faults files.old ≤ F.faults files.new }
        ensures later { F.later files.old files.new }
        ensures filled { store.new.filled ≤ store.old.filled + BUFFER_SIZE }
        ensures kept { Kept store.old self.old.numbers store.new self.new.numbers }
    {
        let owner = self.owner();
        self.output.stage(store, files, owner)
    }

    /// What one write may offer: all unread bytes of the first chunk, or all that is staged of its range.
    pub fn offer(&self) -> &[u8]
        ensures front { result.now ≡ self.now.front }
        ensures leads { Leads self.now.held.owed self.now.held.staged result.now }
        ensures most { length result.now ≤ BUFFER_SIZE }
    {
        self.output.front_bytes()
    }

    /// The client took so much of what is owed. Answers the file that is to be given back, where all of it was taken.
    pub fn wrote(&mut self, store: &mut Store, n: usize) -> Option<FileId>
        requires counted { HeldWithin store.old (length self.old.numbers) }
        requires within { n ≤ length self.old.front }
        ensures held { self.new.held ≡ wrote self.old.held n }
        ensures file { file_number result ≡ (if has_no_items (drop n self.old.held.owed) then self.old.held.file else None) }
        ensures filled { store.new.filled ≡ store.old.filled }
        ensures kept { Kept store.old self.old.numbers store.new self.new.numbers }
    {
        self.output.advance(store, n);
        if self.output.len() > 0 {
            return None;
        }
        self.file.take()
    }

    /// Ends the connection: its buffers are given back, and the file that is to be given back is answered.
    pub fn close(self, store: &mut Store) -> Option<FileId>
        requires { HeldWithin store.old (length self.numbers) }
        ensures file { file_number result ≡ self.held.file }
        ensures filled { store.new.filled ≡ store.old.filled }
        ensures kept { Kept store.old self.numbers store.new [] }
    {
        let Conn {
            alloc: _,
            link: _,
            peer: _,
            local: _,
            input,
            number: _,
            progress: _,
            body,
            output,
            file,
            ended: _,
        } = self;
        input.close(store);
        body.close(store);
        output.close(store);
        file
    }
}
