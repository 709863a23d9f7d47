//! What is kept for one link: what the script gave to it, and what it took.
ghost use Rattle.std.specs.Prelude.{◌≡◌, ◌<◌, ◌≤◌, ◌+◌, ◌++◌, length, OnOk, OnErr, Some};
ghost use Rattle.lt_world.specs.Answers.{read_act, GotWithin};

use lt_bytes::NoMemory;
use lt_world::{Ending, Got};
use std::alloc::Global;
use std::marker::Model;

#[derive(Drop)]
pub struct Port {
    given: Vec<u8>,
    seen: usize,
    ended: bool,
    reads_fail: bool,
    writes_fail: bool,
    taken: Vec<u8>,
    ending: Option<Ending>,
}

impl Model for Port {
    ghost use Rattle.script_net.specs.PortView.{PortView};

    ghost Value = { PortView };

    ghost use Rattle.script_net.specs.Ports.{kept_of, IsPort};

    ghost view = { kept_of };

    ghost invariant = { IsPort };
}

impl Port {
    ghost use Rattle.script_net.specs.PortView.{PortView, fresh_kept};
    ghost use Rattle.script_net.specs.Sides.{gives, with_bytes, with_end, with_failing_reads, with_failing_writes, with_close, with_read};

    /// A link that arrives.
    pub fn new(alloc: Global) -> Port
        ensures { result ≡ fresh_kept }
    {
        Port {
            given: Vec::new(alloc),
            seen: 0,
            ended: false,
            reads_fail: false,
            writes_fail: false,
            taken: Vec::new(alloc),
            ending: None,
        }
    }

    pub fn is_open(&self) -> bool
        ensures { result ≡ self.now.side.is_open }
    {
        self.ending.is_none()
    }

    /// Whether each write fails.
    pub fn writes_fail(&self) -> bool
        ensures { result ≡ self.now.side.writes_fail }
    {
        self.writes_fail
    }

    /// How many bytes were read.
    pub fn seen(&self) -> usize
        ensures seen { result ≡ self.now.side.seen }
        ensures within { result ≤ length self.now.side.given }
    {
        self.seen
    }

    /// The bytes that the link took.
    pub fn taken(&self) -> &[u8]
        ensures { result.now ≡ self.now.taken }
    {
        &self.taken
    }

    /// How the link was closed.
    pub fn ending(&self) -> Option<Ending>
        ensures { result ≡ self.now.ending }
    {
        self.ending
    }

    /// Adds bytes to what can be read.
    pub fn give(&mut self, bytes: &[u8]) -> Result<(), NoMemory>
        ensures ok { OnOk result (self.new ≡ record self.old { side = with_bytes bytes.now self.old.side }) }
        ensures err { OnErr result (self.new ≡ self.old) }
    {
        match self.given.extend_from_slice(bytes) {
            Ok(()) => Ok(()),
            Err(_) => Err(NoMemory),
        }
    }

    /// After what can be read comes the end.
    pub fn end(&mut self)
        ensures { self.new ≡ record self.old { side = with_end self.old.side } }
    {
        self.ended = true;
    }

    /// Each later read fails.
    pub fn fail_reads(&mut self)
        ensures { self.new ≡ record self.old { side = with_failing_reads self.old.side } }
    {
        self.reads_fail = true;
    }

    /// Each later write fails.
    pub fn fail_writes(&mut self)
        ensures { self.new ≡ record self.old { side = with_failing_writes self.old.side } }
    {
        self.writes_fail = true;
    }

    pub fn close(&mut self, ending: Ending)
        ensures { self.new ≡ record self.old { side = with_close self.old.side; ending = Some ending } }
    {
        self.ending = Some(ending);
    }

    /// Makes room, so that so many bytes are taken without memory.
    pub fn reserve(&mut self, room: usize) -> Result<(), NoMemory>
        ensures ok { OnOk result (room ≤ self.new.room) }
        ensures kept { self.new ≡ record self.old { room = self.new.room } }
        ensures more { self.old.room ≤ self.new.room }
        ensures err { OnErr result (self.new ≡ self.old) }
    {
        match self.taken.reserve(room) {
            Ok(()) => Ok(()),
            Err(_) => Err(NoMemory),
        }
    }

    /// Takes bytes, for which there is room.
    pub fn take(&mut self, bytes: &[u8])
        requires { length bytes.now ≤ self.old.room }
        ensures taken { self.new ≡ record self.old { taken = self.old.taken ++ bytes.now; room = self.new.room } }
        ensures room { self.old.room ≤ self.new.room + length bytes.now }
    {
        let _ = self.taken.extend_from_slice(bytes);
    }

    /// Gives what can be read, up to the buffer, else the end, else nothing yet. Where reads fail, none of it.
    pub fn read(&mut self, buf: &mut [u8]) -> Got
        requires { 0 < length buf.old }
        ensures act { read_act result buf.new ≡ gives (length buf.old) self.old.side }
        ensures rest { self.new ≡ record self.old { side = with_read (length buf.old) self.old.side } }
        ensures within { GotWithin result (length buf.new) }
    {
        if self.reads_fail {
            return Got::Failed;
        }
        let n = (self.given.len() - self.seen).min(buf.len());
        if n == 0 {
            return if self.ended { Got::End } else { Got::NotYet };
        }
        buf[..n].copy_from_slice(&self.given[self.seen..self.seen + n]);
        self.seen += n;
        Got::Bytes(n)
    }
}
