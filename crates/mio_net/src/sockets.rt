// The sockets: which of them the system says are ready, and the calls on them.
ghost use Rattle.std.specs.Prelude.{◌≡◌, length, MatchOption, IfOk, IfSome, Some, if◌then◌else◌};
ghost use Rattle.lt_world.specs.Answers.{GotWithin, TookWithin, IsNumbered, IsNumberedDial};
ghost use Rattle.mio_net.specs.Nets.{IsAnswer, IsLinkEvent};
ghost use Rattle.mio_net.specs.Links.{no_links, FindsFree, opened};
ghost use Rattle.mio_net.specs.Turns.{IsMark};

use crate::address::from_system;
use crate::cells::{PLACES, cells};
use crate::families::Families;
use crate::links::{LINKS, Places};
use crate::ring::{Mark, Ring};
use crate::socket::{Socket, receive, send};
use crate::system::{LISTENER, bind, dial, hear_all, keep, offer_family};
use lt_bytes::NoMemory;
use lt_world::{Address, Dialled, Event, Got, Link, Owner, Took};
use mio::net::{TcpListener, TcpStream};
use mio::{Events, Interest, Poll, Token};
use std::alloc::Global;
use std::io;
use std::io::ErrorKind;
use std::net::Net;
use std::time::Duration;

/// The system is asked again after at least so many marks.
const ROUND: usize = 32;

#[derive(Drop)]
pub struct Sockets<R: Net + Drop> {
    rt: R,
    poll: Option<Poll>,
    listener: Option<TcpListener>,
    events: Events,
    pub places: Places,
    families: Families,
    ring: Ring,
    sockets: Vec<Option<Socket>>,
    // How many marks are handed out before the system is asked again.
    left: usize,
}

impl<R: Net + Drop> Sockets<R> {
    /// No socket, and room for every link.
    pub fn new(rt: R, alloc: Global) -> Result<Sockets<R>, NoMemory>
        ensures { IfOk result (λ sockets. sockets.places ≡ no_links) }
    {
        let Ok(events) = Events::with_capacity(alloc, LINKS + 1) else {
            return Err(NoMemory);
        };
        let places = Places::new(alloc)?;
        let families = Families::new(alloc)?;
        let ring = Ring::new(alloc)?;
        let sockets = cells(alloc)?;
        Ok(Sockets {
            rt,
            poll: None,
            listener: None,
            events,
            places,
            families,
            ring,
            sockets,
            left: 0,
        })
    }

    /// Accepts clients at this address from now on.
    pub fn listen(&mut self, at: Address) -> io::Result<()>
        ensures { self.new.places ≡ self.old.places }
    {
        let mut listener = bind(&self.rt, at)?;
        if self.poll.is_none() {
            self.poll = Some(Poll::new(&self.rt)?);
        }
        if let Some(poll) = &self.poll {
            poll.registry()
                .register(&mut listener, LISTENER, Interest::READABLE)?;
        }
        self.listener = Some(listener);
        self.ring.set(Mark::Arrival);
        Ok(())
    }

    /// The port of the listener.
    pub fn port(&self) -> Option<u16> {
        let addr = self.listener.as_ref()?.local_addr().ok()?;
        Some(addr.port())
    }

    /// Asks the system what is ready, and waits for it at most so long, or until something is. False where it cannot
    /// be asked.
    pub fn ask(&mut self, limit: Option<Duration>) -> bool
        ensures { self.new.places ≡ self.old.places }
    {
        let Some(poll) = &mut self.poll else {
            return false;
        };
        if poll.poll(&mut self.events, limit).is_err() {
            return false;
        }
        hear_all(
            &self.events,
            &self.places,
            &mut self.sockets,
            &mut self.ring,
        );
        // A client that could not be accepted before is tried again.
        self.ring.offer(Mark::Arrival);
        self.left = self.ring.len().max(ROUND);
        true
    }

    /// The next event of a link, or Idle where no mark is offered.
    pub fn next(&mut self) -> Event
        ensures numbered { IsNumbered result self.old.places.next self.new.places.next }
        ensures answer { IsAnswer result }
    {
        if self.left == 0 {
            let _asked = self.ask(Some(Duration::ZERO));
        }
        for _ in 0..2 * PLACES {
            let Some(mark) = self.ring.next() else {
                return Event::Idle;
            };
            self.left = self.left.saturating_sub(1);
            if let Some(event) = self.event_of(mark) {
                return event;
            }
        }
        Event::Idle
    }

    fn event_of(&mut self, mark: Mark) -> Option<Event>
        requires { IsMark mark }
        ensures numbered { MatchOption result (self.new.places ≡ self.old.places) (λ event. IsNumbered event self.old.places.next self.new.places.next) }
        ensures answer { IfSome result IsLinkEvent }
    {
        match mark {
            Mark::Readable(place) => match self.places.at(place) {
                Some(number) => Some(Event::Readable(Link(number))),
                None => None,
            },
            Mark::Writable(place) => match self.places.at(place) {
                Some(number) => Some(Event::Writable(Link(number))),
                None => None,
            },
            Mark::Arrival => self.accept(),
        }
    }

    // Accepts a client, where one waits and a number is free for it. Where it fails the mark stays set, and is offered
    // again by the next close and after the next event.
    fn accept(&mut self) -> Option<Event>
        ensures numbered { MatchOption result (self.new.places ≡ self.old.places) (λ event. IsNumbered event self.old.places.next self.new.places.next) }
        ensures answer { IfSome result IsLinkEvent }
    {
        let number = self.places.free()?;
        let Some(listener) = &self.listener else {
            return None;
        };
        let (stream, peer) = match listener.accept() {
            Ok(accepted) => accepted,
            Err(e) => {
                if e.kind() == ErrorKind::WouldBlock {
                    self.ring.clear(Mark::Arrival);
                }
                return None;
            }
        };
        self.ring.offer(Mark::Arrival);
        let Ok(local) = stream.local_addr() else {
            return None;
        };
        if !self.enter(number, stream) {
            return None;
        }
        Some(Event::Arrived {
            link: Link(number),
            peer: from_system(peer),
            local: from_system(local),
        })
    }

    // Opens the link of the next free number over this socket. False where the system does not take it.
    fn enter(&mut self, number: u32, mut stream: TcpStream) -> bool
        requires { FindsFree (Some number) self.old.places }
        ensures { self.new.places ≡ (if result then opened number self.old.places else self.old.places) }
    {
        let Some(poll) = &self.poll else {
            return false;
        };
        let both = Interest::READABLE | Interest::WRITABLE;
        let token = Token(number as usize);
        if poll.registry().register(&mut stream, token, both).is_err() {
            return false;
        }
        keep(&mut self.sockets, number as usize % PLACES, stream);
        self.places.open(number);
        true
    }

    /// Reads once from a link.
    pub fn read(&mut self, link: Link, buf: &mut [u8]) -> Got
        ensures within { GotWithin result (length buf.new) }
        ensures places { self.new.places ≡ self.old.places }
    {
        let Some(place) = self.places.find(link.0) else {
            return Got::Failed;
        };
        let (got, nothing_left) = match self.sockets.get_mut(place) {
            Some(Some(socket)) => receive(socket, buf),
            _ => return Got::Failed,
        };
        if nothing_left {
            self.ring.clear(Mark::Readable(place));
        }
        offer_family(&mut self.ring, &self.families, place);
        got
    }

    /// Offers these bytes to a link once.
    pub fn write(&mut self, link: Link, bytes: &[u8]) -> Took
        ensures within { TookWithin result (length bytes.now) }
        ensures places { self.new.places ≡ self.old.places }
    {
        let Some(place) = self.places.find(link.0) else {
            return Took::Failed;
        };
        let (took, no_room) = match self.sockets.get_mut(place) {
            Some(Some(socket)) => send(socket, bytes),
            _ => return Took::Failed,
        };
        if no_room {
            self.ring.clear(Mark::Writable(place));
        }
        offer_family(&mut self.ring, &self.families, place);
        took
    }

    /// Begins a connection for a client, whose family it joins.
    pub fn connect(&mut self, owner: Owner, to: Address) -> Dialled
        ensures { IsNumberedDial result self.old.places.next self.new.places.next }
    {
        let client = self.places.find(owner.conn);
        if let Some(place) = client {
            offer_family(&mut self.ring, &self.families, place);
        }
        let Some(number) = self.places.free() else {
            return Dialled::Failed;
        };
        let Ok(stream) = dial(&self.rt, to) else {
            return Dialled::Failed;
        };
        if !self.enter(number, stream) {
            return Dialled::Failed;
        }
        if let Some(place) = client {
            self.families.join(number as usize % PLACES, place);
        }
        Dialled::Link(Link(number))
    }

    /// Closes a link.
    pub fn close(&mut self, link: Link)
        ensures { self.new.places.next ≡ self.old.places.next }
    {
        let Some(place) = self.places.find(link.0) else {
            return;
        };
        offer_family(&mut self.ring, &self.families, place);
        self.families.leave(place);
        self.ring.clear(Mark::Readable(place));
        self.ring.clear(Mark::Writable(place));
        self.places.close(place);
        if let Some(socket) = self.sockets.get_mut(place) {
            *socket = None;
        }
        // The descriptor that is free now may be the one that an accept lacked.
        self.ring.offer(Mark::Arrival);
    }
}
