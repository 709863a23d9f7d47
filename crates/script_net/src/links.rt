//! The links of a net, and all that was told of them, the newest last. A note is short: the bytes that
//! were read or taken stand with their link.
ghost use Rattle.std.specs.Prelude.{◌≡◌, ◌+◌, ◌<◌, ◌≤◌, ◌∷◌, [], ◌++◌, length, get_or, false, None, OnOk, OnErr, IfOk};
ghost use Rattle.lt_world.specs.Trace.{own, names, link_bound, Accepted as accepted, Readable as readable, Writable as writable, Failed as failed, Writing as writing, Connect as connect, Close as closed};
ghost use Rattle.lt_world.specs.Answers.{read_act, GotWithin};
ghost use Rattle.script_net.specs.Sides.{side_at, gives, with_bytes, with_end, with_failing_reads, with_failing_writes, with_close, with_read, fresh_side};
ghost use Rattle.script_net.specs.Steps.{change};
ghost use Rattle.script_net.specs.Calls.{some_taken};
ghost use Rattle.lt_world.specs.Acts.{output_of, ending_of};
ghost use Rattle.script_net.specs.Arrivals.{has_arrived};
ghost use Rattle.script_net.specs.LinksView.{no_links, Tells, Stays};

use crate::notes::{Done, Note, read_done, write_done};
use crate::port::Port;
use crate::ports::{
    close_at, end_at, fail_reads_at, fail_writes_at, give_at, read_at, reserve_at, take_at,
};
use lt_bytes::NoMemory;
use lt_world::{Address, Ending, Got, Link, Owner};
use std::alloc::Global;
use std::marker::Model;

#[derive(Drop)]
pub struct Links {
    ports: Vec<Port>,
    notes: Vec<Note>,
}

impl Model for Links {
    ghost use Rattle.script_net.specs.LinksView.{LinksView};

    ghost Value = { LinksView };

    ghost use Rattle.script_net.specs.Notes.{told_of, IsTold};

    ghost view = { told_of };

    ghost invariant = { λ a. IsTold a.ports.items a.notes.items };
}

impl Links {
    pub fn new(alloc: Global) -> Links
        ensures { result ≡ no_links }
    {
        Links {
            ports: Vec::new(alloc),
            notes: Vec::new(alloc),
        }
    }

    /// How many links there are: the number of the next.
    pub fn len(&self) -> usize
        ensures len { result ≡ length self.now.sides }
        ensures few { result ≤ 4294967295 }
        ensures bound { result ≡ link_bound self.now.trace }
        ensures fresh { names result self.now.trace ≡ false }
    {
        self.ports.len()
    }

    pub fn is_open(&self, link: usize) -> bool
        ensures { result ≡ (side_at link self.now.sides).is_open }
    {
        match self.ports.get(link) {
            None => false,
            Some(port) => port.is_open(),
        }
    }

    /// Whether each write to a link fails.
    pub fn writes_fail(&self, link: usize) -> bool
        ensures { result ≡ (side_at link self.now.sides).writes_fail }
    {
        match self.ports.get(link) {
            None => false,
            Some(port) => port.writes_fail(),
        }
    }

    /// Whether a link arrived. Every link did, since none is dialled.
    pub fn has_arrived(&self, link: usize) -> bool
        ensures { result ≡ has_arrived (own link self.now.trace) }
    {
        link < self.ports.len()
    }

    /// The bytes that a link took.
    pub fn taken(&self, link: usize) -> &[u8]
        requires { link < length self.now.sides }
        ensures { result.now ≡ output_of (own link self.now.trace) }
    {
        let port = &self.ports[link];
        port.taken()
    }

    /// How a link was closed.
    pub fn ending(&self, link: usize) -> Option<Ending>
        requires { link < length self.now.sides }
        ensures { result ≡ ending_of (own link self.now.trace) }
    {
        let port = &self.ports[link];
        port.ending()
    }

    /// Makes room, so that so many entries are told without memory.
    pub fn reserve(&mut self, calls: usize) -> Result<(), NoMemory>
        ensures ok { OnOk result (calls ≤ self.new.calls) }
        ensures stays { Stays self.old self.new }
    {
        match self.notes.reserve(calls) {
            Ok(()) => Ok(()),
            Err(_) => Err(NoMemory),
        }
    }

    /// A client arrives.
    pub fn accept(&mut self, alloc: Global, peer: Address, local: Address) -> Result<Link, NoMemory>
        requires { 0 < self.old.calls }
        ensures link { IfOk result (λ link. link.0 ≡ length self.old.sides) }
        ensures ok { OnOk result (Tells (length self.old.sides) (accepted peer local) (self.old.sides ++ fresh_side ∷ []) 0 self.old self.new) }
        ensures err { OnErr result (Stays self.old self.new) }
    {
        let number = self.ports.len();
        if number >= 0xffff_ffff {
            return Err(NoMemory);
        }
        if self.ports.push(Port::new(alloc)).is_err() {
            return Err(NoMemory);
        }
        self.notes.push_reserved(Note {
            link: number as u32,
            done: Done::Accepted(peer, local),
        });
        Ok(Link(number as u32))
    }

    /// The script gives bytes to a link.
    pub fn give(&mut self, link: u32, bytes: &[u8]) -> Result<(), NoMemory>
        requires known { link < length self.old.sides }
        requires calls { 0 < self.old.calls }
        ensures ok { OnOk result (Tells link readable (change link (with_bytes bytes.now) self.old.sides) 0 self.old self.new) }
        ensures err { OnErr result (Stays self.old self.new) }
    {
        give_at(&mut self.ports, link as usize, bytes)?;
        self.notes.push_reserved(Note {
            link,
            done: Done::Readable,
        });
        Ok(())
    }

    /// The script ends a link's input.
    pub fn end(&mut self, link: u32)
        requires known { link < length self.old.sides }
        requires calls { 0 < self.old.calls }
        ensures { Tells link readable (change link with_end self.old.sides) 0 self.old self.new }
    {
        end_at(&mut self.ports, link as usize);
        self.notes.push_reserved(Note {
            link,
            done: Done::Readable,
        });
    }

    /// The script says again that a link is readable.
    pub fn ready(&mut self, link: u32)
        requires known { link < length self.old.sides }
        requires calls { 0 < self.old.calls }
        ensures { Tells link readable self.old.sides 0 self.old self.new }
    {
        self.notes.push_reserved(Note {
            link,
            done: Done::Readable,
        });
    }

    /// The script lets each later read of a link fail.
    pub fn fail_reads(&mut self, link: u32)
        requires known { link < length self.old.sides }
        requires calls { 0 < self.old.calls }
        ensures { Tells link readable (change link with_failing_reads self.old.sides) 0 self.old self.new }
    {
        fail_reads_at(&mut self.ports, link as usize);
        self.notes.push_reserved(Note {
            link,
            done: Done::Readable,
        });
    }

    /// The script lets each later write to a link fail.
    pub fn fail_writes(&mut self, link: u32)
        requires known { link < length self.old.sides }
        requires calls { 0 < self.old.calls }
        ensures { Tells link writable (change link with_failing_writes self.old.sides) 0 self.old self.new }
    {
        fail_writes_at(&mut self.ports, link as usize);
        self.notes.push_reserved(Note {
            link,
            done: Done::Writable,
        });
    }

    /// The script lets a link take so many bytes, which take no memory then.
    pub fn let_take(&mut self, link: u32, room: usize) -> Result<(), NoMemory>
        requires known { link < length self.old.sides }
        requires calls { 0 < self.old.calls }
        ensures ok { OnOk result (Tells link writable self.old.sides 0 self.old self.new) }
        ensures room { OnOk result (room ≤ get_or self.new.rooms link 0) }
        ensures err { OnErr result (Stays self.old self.new) }
    {
        reserve_at(&mut self.ports, link as usize, room)?;
        self.notes.push_reserved(Note {
            link,
            done: Done::Writable,
        });
        Ok(())
    }

    pub fn read(&mut self, link: u32, buf: &mut [u8]) -> Got
        requires some { 0 < length buf.old }
        requires known { link < length self.old.sides }
        requires calls { 0 < self.old.calls }
        ensures act { read_act result buf.new ≡ gives (length buf.old) (side_at link self.old.sides) }
        ensures within { GotWithin result (length buf.new) }
        ensures tells { Tells link (read_act result buf.new) (change link (with_read (length buf.old)) self.old.sides) 0 self.old self.new }
    {
        let at = self.ports[link as usize].seen();
        let asked = buf.len();
        let got = read_at(&mut self.ports, link as usize, buf);
        self.notes.push_reserved(Note {
            link,
            done: read_done(got, asked, at),
        });
        got
    }

    /// A link takes the first so many of these bytes, for which there is room.
    pub fn write(&mut self, link: u32, bytes: &[u8], n: usize)
        requires known { link < length self.old.sides }
        requires calls { 0 < self.old.calls }
        requires within { n ≤ length bytes.now }
        requires room { n ≤ get_or self.old.rooms link 0 }
        ensures { Tells link (some_taken n bytes.now) self.old.sides n self.old self.new }
    {
        let at = self.ports[link as usize].taken().len();
        let (taken, _) = bytes.split_at(n);
        take_at(&mut self.ports, link as usize, taken);
        self.notes.push_reserved(Note {
            link,
            done: write_done(bytes.len(), at, n),
        });
    }

    /// A write to a link fails.
    pub fn fail_write(&mut self, link: u32)
        requires known { link < length self.old.sides }
        requires calls { 0 < self.old.calls }
        ensures { Tells link (failed writing) self.old.sides 0 self.old self.new }
    {
        self.notes.push_reserved(Note {
            link,
            done: Done::WriteFailed,
        });
    }

    /// A connect to a gateway fails.
    pub fn fail_connect(&mut self, owner: Owner, to: Address)
        requires known { owner.conn < length self.old.sides }
        requires calls { 0 < self.old.calls }
        ensures { Tells owner.conn (connect owner to None) self.old.sides 0 self.old self.new }
    {
        self.notes.push_reserved(Note {
            link: owner.conn,
            done: Done::Connect(owner, to),
        });
    }

    pub fn close(&mut self, link: u32, ending: Ending)
        requires known { link < length self.old.sides }
        requires calls { 0 < self.old.calls }
        ensures { Tells link (closed ending) (change link with_close self.old.sides) 0 self.old self.new }
    {
        close_at(&mut self.ports, link as usize, ending);
        self.notes.push_reserved(Note {
            link,
            done: Done::Close(ending),
        });
    }
}
