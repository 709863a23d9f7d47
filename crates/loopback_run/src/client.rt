//! Clients whose sockets do not block.
use lt_bytes::{NoMemory, Text};
use mio::net::TcpStream;
use std::alloc::Global;
use std::io::{Read, Write};
use std::net::{IpAddr, Ipv4Addr, Net, SocketAddr};

/// The most bytes that a client takes at once.
const PIECE: usize = 4096;

/// How a client stands after a look at its socket.
#[derive(Clone, Copy, Debug, PartialEq, Eq)]
pub enum Standing {
    /// It sent or took something.
    Moved,
    /// Nothing could be sent or taken.
    Waits,
    /// The server has ended the connection.
    Ended,
}

/// A client with what it has still to send, and what it has got.
#[derive(Drop)]
pub struct Client<'a> {
    stream: TcpStream,
    unsent: &'a [u8],
    got: Text,
}

fn dial<R: Net>(rt: &R, port: u16) -> Option<TcpStream> {
    let ip = IpAddr::V4(Ipv4Addr::from_octets([127, 0, 0, 1]));
    TcpStream::connect(rt, SocketAddr::new(ip, port)).ok()
}

impl<'a> Client<'a> {
    /// A client of what listens at this port, which will send these bytes.
    pub fn connect<R: Net>(
        rt: &R,
        alloc: Global,
        port: u16,
        unsent: &'a [u8],
    ) -> Option<Client<'a>> {
        let stream = dial(rt, port)?;
        Some(Client {
            stream,
            unsent,
            got: Text::new(alloc),
        })
    }

    /// Sends once, where something is unsent, and takes once. A socket that refuses is tried again by the next look.
    pub fn look(&mut self) -> Result<Standing, NoMemory> {
        let sent = self.send();
        let mut piece = [0u8; PIECE];
        match self.stream.read(&mut piece) {
            Ok(0) => Ok(Standing::Ended),
            Ok(n) => {
                self.got.push_all(&piece[..n])?;
                Ok(Standing::Moved)
            }
            Err(_) if sent => Ok(Standing::Moved),
            Err(_) => Ok(Standing::Waits),
        }
    }

    // Whether a byte was sent.
    fn send(&mut self) -> bool {
        if self.unsent.is_empty() {
            return false;
        }
        match self.stream.write(self.unsent) {
            Ok(n) => {
                let (_, rest) = self.unsent.split_at(n);
                self.unsent = rest;
                n > 0
            }
            Err(_) => false,
        }
    }

    /// All that it got.
    pub fn into_got(self) -> Text {
        self.got
    }
}

/// A second client, which sends a head that never ends, a byte before each wait: so the server has something to read,
/// and the wait ends.
#[derive(Drop)]
pub struct Bell {
    stream: TcpStream,
}

impl Bell {
    /// A bell of what listens at this port.
    pub fn connect<R: Net>(rt: &R, port: u16) -> Option<Bell> {
        let stream = dial(rt, port)?;
        Some(Bell { stream })
    }

    /// Sends a byte. Whether it was sent.
    pub fn ring(&mut self) -> bool {
        matches!(self.stream.write(b"a"), Ok(1))
    }
}
