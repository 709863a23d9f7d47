// What the net asks of the system, and what it makes of the system's events.
ghost use Rattle.std.specs.Prelude.{◌<◌};

use crate::address::to_system;
use crate::families::Families;
use crate::links::{LINKS, Places};
use crate::ring::{Mark, Ring};
use crate::socket::Socket;
use lt_world::Address;
use mio::event::Event;
use mio::net::{TcpListener, TcpStream};
use mio::{Events, Token};
use std::io;
use std::net::Net;
use std::os::fd::OwnedFd;

/// The token of the listener. A link's token is its number.
pub const LISTENER: Token = Token(usize::MAX);

/// A listener at this address. The sockets that it accepts inherit that nothing they send waits for more.
pub fn bind<R: Net>(rt: &R, at: Address) -> io::Result<TcpListener> {
    let listener = TcpListener::bind(rt, to_system(at))?;
    let stream = TcpStream::from(OwnedFd::from(listener));
    stream.set_nodelay(true)?;
    Ok(TcpListener::from(OwnedFd::from(stream)))
}

/// A connection that is on its way.
pub fn dial<R: Net>(rt: &R, to: Address) -> io::Result<TcpStream> {
    let stream = TcpStream::connect(rt, to_system(to))?;
    stream.set_nodelay(true)?;
    Ok(stream)
}

/// Sets the marks that the system's events give.
pub fn hear_all(events: &Events, places: &Places, sockets: &mut [Option<Socket>], ring: &mut Ring) {
    for event in events {
        hear(event, places, sockets, ring);
    }
}

// A closed or failed link is readable and writable: its next call
/// says so.
fn hear(event: &Event, places: &Places, sockets: &mut [Option<Socket>], ring: &mut Ring) {
    let Ok(number) = u32::try_from(event.token().0) else {
        ring.set(Mark::Arrival);
        return;
    };
    let Some(place) = places.find(number) else {
        return;
    };
    let failed = event.is_error();
    let ended = failed || event.is_read_closed();
    if ended && let Some(Some(socket)) = sockets.get_mut(place) {
        socket.ended = true;
    }
    if ended || event.is_readable() {
        ring.set(Mark::Readable(place));
    }
    if failed || event.is_writable() || event.is_write_closed() {
        ring.set(Mark::Writable(place));
    }
}

/// A call was made on the link at this place: the marks of its family that are set are offered again.
pub fn offer_family(ring: &mut Ring, families: &Families, place: usize)
    requires { place < 4096 }
{
    let mut at = place;
    for _ in 0..LINKS {
        ring.offer(Mark::Readable(at));
        ring.offer(Mark::Writable(at));
        at = families.behind(at);
        if at == place {
            return;
        }
    }
}

/// Puts a socket into the cell of its place.
pub fn keep(sockets: &mut [Option<Socket>], place: usize, stream: TcpStream) {
    if let Some(cell) = sockets.get_mut(place) {
        *cell = Some(Socket {
            stream,
            ended: false,
        });
    }
}
