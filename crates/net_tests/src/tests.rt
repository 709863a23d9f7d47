//! Exchanges over the sockets of the system.
//!
//! What fails is told by functions of their own, so that each test drops its sockets in few places.
use crate::client::Client;
use crate::server::{Told, dial, flood, serve, serve_one_by_one};
use lt_world::{Address, Dialled, Took, Waits};
use mio_net::MioNet;
use std::test::Fail;

const HERE: Address = Address {
    ip: [127, 0, 0, 1],
    port: 0,
};

const CROWD: u8 = 200;

// A net that listens, and its port, which the system chose.
fn listening(rt: HostRuntime) -> Option<(MioNet<HostRuntime>, u16)> {
    let mut net = MioNet::new(rt).ok()?;
    net.listen(HERE).ok()?;
    let port = net.port()?;
    Some((net, port))
}

// A net that listens, and a client of it.
fn opened(rt: HostRuntime) -> Option<(MioNet<HostRuntime>, Client)> {
    let (net, port) = listening(rt)?;
    let client = Client::connect(&rt, port)?;
    Some((net, client))
}

// Where nothing listens any more.
fn closed(rt: HostRuntime) -> Option<Address> {
    let (_gone, port) = listening(rt)?;
    Some(Address { port, ..HERE })
}

// A client that has sent these bytes.
fn sender(rt: HostRuntime, port: u16, bytes: &[u8]) -> Option<Client> {
    let mut client = Client::connect(&rt, port)?;
    if client.send(bytes) {
        Some(client)
    } else {
        None
    }
}

// Clients, each of which has sent a byte of its own.
fn crowd(rt: HostRuntime, port: u16) -> Option<Vec<Client>> {
    let mut clients = Vec::new(rt.alloc());
    for byte in 0..CROWD {
        let client = sender(rt, port, &[byte])?;
        clients.push(client).ok()?;
    }
    Some(clients)
}

// A net that listens, and clients of it.
fn opened_for_all(rt: HostRuntime) -> Option<(MioNet<HostRuntime>, Vec<Client>)> {
    let (net, port) = listening(rt)?;
    let clients = crowd(rt, port)?;
    Some((net, clients))
}

// Whether each takes its own byte.
fn each_takes_its_own(clients: &mut [Client]) -> bool {
    let mut byte = 0u8;
    for client in clients {
        if client.take() != Some(byte) {
            return false;
        }
        byte = byte.wrapping_add(1);
    }
    byte == CROWD
}

#[test]
fn bytes_that_come_one_by_one_come_back_one_by_one(rt: HostRuntime) -> Result<(), Fail> {
    let (mut net, mut client) = opened(rt).ok_or("no net")?;
    assert!(rt; serve_one_by_one(&mut net, &mut client, b"hello"));
    assert!(rt; client.takes(b"hello"));
    Ok(())
}

#[test]
fn two_hundred_clients_at_once_get_their_own_bytes(rt: HostRuntime) -> Result<(), Fail> {
    let (mut net, mut clients) = opened_for_all(rt).ok_or("no net")?;
    assert!(rt; serve(&mut net, Told::Answered, u32::from(CROWD)));
    assert!(rt; each_takes_its_own(&mut clients));
    Ok(())
}

#[test]
fn an_end_that_comes_with_the_last_bytes_is_seen(rt: HostRuntime) -> Result<(), Fail> {
    let (mut net, mut client) = opened(rt).ok_or("no net")?;
    assert!(rt; client.send(b"bye") && client.end());
    assert!(rt; serve(&mut net, Told::Closed, 1));
    assert!(rt; client.takes(b"bye") && client.take().is_none());
    Ok(())
}

#[test]
fn a_reset_in_mid_reply_is_a_failed_write(rt: HostRuntime) -> Result<(), Fail> {
    let (mut net, client) = opened(rt).ok_or("no net")?;
    let full = flood(&mut net, Took::NotYet);
    assert!(rt; full.is_some());
    // It goes with unread bytes.
    drop(client);
    assert_eq!(rt; flood(&mut net, Took::Failed), full);
    Ok(())
}

#[test]
fn a_refused_connect_is_a_failed_write(rt: HostRuntime) -> Result<(), Fail> {
    let to = closed(rt).ok_or("no port")?;
    let (mut net, _client) = opened(rt).ok_or("no net")?;
    if let Dialled::Link(link) = dial(&mut net, to) {
        assert_eq!(rt; flood(&mut net, Took::Failed), Some(link));
    }
    Ok(())
}
