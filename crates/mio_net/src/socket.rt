// One socket: a read and a write, and how each changes what may be possible next.
ghost use Rattle.std.specs.Prelude.{length};
ghost use Rattle.lt_world.specs.Answers.{GotWithin, TookWithin};

use lt_world::{Got, Took};
use mio::net::TcpStream;
use std::io::{ErrorKind, Read, Write};

#[derive(Drop)]
pub struct Socket {
    pub stream: TcpStream,
    /// An event said that the peer has ended or that the link has failed. Then no further event need come, so a read
    /// of less than was asked does not say that nothing is left.
    pub ended: bool,
}

/// Reads once, and says whether nothing is left to read until an event comes.
pub fn receive(socket: &mut Socket, buf: &mut [u8]) -> (Got, bool)
    ensures { GotWithin result.0 (length buf.new) }
{
    let asked = buf.len();
    match socket.stream.read(buf) {
        Ok(0) => (Got::End, false),
        Ok(n) => (Got::Bytes(n), n < asked && !socket.ended),
        Err(e) if e.kind() == ErrorKind::WouldBlock => (Got::NotYet, true),
        Err(e) if e.kind() == ErrorKind::Interrupted => (Got::NotYet, false),
        Err(_) => (Got::Failed, false),
    }
}

/// Offers these bytes once, and says whether there is no room until an event comes.
pub fn send(socket: &mut Socket, bytes: &[u8]) -> (Took, bool)
    ensures { TookWithin result.0 (length bytes.now) }
{
    match socket.stream.write(bytes) {
        Ok(0) => (Took::NotYet, false),
        Ok(n) => (Took::Bytes(n), false),
        Err(e) if e.kind() == ErrorKind::WouldBlock => (Took::NotYet, true),
        Err(e) if e.kind() == ErrorKind::Interrupted => (Took::NotYet, false),
        Err(_) => (Took::Failed, false),
    }
}
