// The addresses of this project and of the system.
use lt_world::Address;
use std::net::{IpAddr, Ipv4Addr, SocketAddr};

/// What a socket says of itself. The server has IPv4 sockets alone.
pub fn from_system(addr: SocketAddr) -> Address {
    let port = addr.port();
    match addr {
        SocketAddr::V4(addr) => Address {
            ip: addr.ip().octets(),
            port,
        },
        SocketAddr::V6(_) => Address { ip: [0; 4], port },
    }
}

pub fn to_system(at: Address) -> SocketAddr {
    SocketAddr::new(IpAddr::V4(Ipv4Addr::from_octets(at.ip)), at.port)
}
