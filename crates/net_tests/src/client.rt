//! A client whose socket does not block.
use mio::net::TcpStream;
use std::io::{Read, Write};
use std::net::{IpAddr, Ipv4Addr, Net, Shutdown, SocketAddr};

/// No loop has more rounds.
const ROUNDS: u32 = 10_000_000;

#[derive(Drop)]
pub(crate) struct Client {
    stream: TcpStream,
}

impl Client {
    /// A client of what listens at this port.
    pub(crate) fn connect<R: Net>(rt: &R, port: u16) -> Option<Client> {
        let ip = IpAddr::V4(Ipv4Addr::from_octets([127, 0, 0, 1]));
        let stream = TcpStream::connect(rt, SocketAddr::new(ip, port)).ok()?;
        Some(Client { stream })
    }

    /// Whether all bytes were sent at once.
    pub(crate) fn send(&mut self, bytes: &[u8]) -> bool {
        match self.stream.write(bytes) {
            Ok(n) => n == bytes.len(),
            Err(_) => false,
        }
    }

    /// Sends no more.
    pub(crate) fn end(&mut self) -> bool {
        self.stream.shutdown(Shutdown::Write).is_ok()
    }

    /// The next byte, or none where the server has ended.
    pub(crate) fn take(&mut self) -> Option<u8> {
        let mut buf = [0u8; 1];
        for _ in 0..ROUNDS {
            if let Ok(n) = self.stream.read(&mut buf) {
                return if n == 1 { Some(buf[0]) } else { None };
            }
        }
        None
    }

    /// Whether these bytes come next, each of which it takes alone.
    pub(crate) fn takes(&mut self, bytes: &[u8]) -> bool {
        for byte in bytes {
            if self.take() != Some(*byte) {
                return false;
            }
        }
        true
    }
}
