//! Servers that do one thing with the events of their net, until something has happened so often.
//!
//! Where nothing is ready they wait: a test asks only for what must happen.
ghost use Rattle.std.specs.Prelude.{◌≤◌, ◌<◌};

use crate::client::Client;
use lt_world::{Address, Dialled, Ending, Event, Got, Link, Net, Owner, Took, Waits};

/// No loop has more rounds.
const ROUNDS: u32 = 200_000;

/// What became of a link that was readable.
#[derive(Clone, Copy, Debug, PartialEq, Eq)]
pub(crate) enum Told {
    Answered,
    Closed,
    Nothing,
}

// Reads once, and sends back what came. It closes where the client has ended.
fn answer<N: Net>(net: &mut N, link: Link) -> Told
    requires known { link.0 < N.links net.old }
    requires calls { 2 ≤ N.calls net.old }
    requires room { 4096 ≤ N.room net.old }
{
    let mut buf = [0u8; 64];
    match net.read(link, &mut buf) {
        Got::Bytes(n) => {
            let _took = net.write(link, &buf[..n]);
            Told::Answered
        }
        Got::End | Got::Failed => {
            net.close(link, Ending::Clean);
            Told::Closed
        }
        Got::NotYet => Told::Nothing,
    }
}

// What one event leads to.
fn echo<N: Waits>(net: &mut N) -> Told {
    match net.next() {
        Event::Readable(link) => answer(net, link),
        Event::Idle => {
            let _waited = net.wait();
            Told::Nothing
        }
        _ => Told::Nothing,
    }
}

/// Sends back what comes, until this was told so often. Whether it was.
pub(crate) fn serve<N: Waits>(net: &mut N, wanted: Told, times: u32) -> bool {
    let mut told = 0u32;
    for _ in 0..ROUNDS {
        if told == times {
            return true;
        }
        if echo(net) == wanted {
            told = told.saturating_add(1);
        }
    }
    false
}

/// The client sends these bytes, each when the one before it was sent back. Whether all were.
pub(crate) fn serve_one_by_one<N: Waits>(net: &mut N, client: &mut Client, bytes: &[u8]) -> bool {
    for byte in bytes {
        if !client.send(&[*byte]) || !serve(net, Told::Answered, 1) {
            return false;
        }
    }
    true
}

// What the next write is told, and on which link it was.
fn pour<N: Waits>(net: &mut N) -> Option<(Link, Took)> {
    match net.next() {
        Event::Writable(link) => Some((link, net.write(link, &[b'x'; 4096]))),
        Event::Idle => {
            let _waited = net.wait();
            None
        }
        _ => None,
    }
}

/// Writes what every link takes, until a write is told this. The link on which it was.
pub(crate) fn flood<N: Waits>(net: &mut N, wanted: Took) -> Option<Link> {
    for _ in 0..ROUNDS {
        if let Some((link, took)) = pour(net) {
            if took == wanted {
                return Some(link);
            }
        }
    }
    None
}

// Connects to this address for the client that arrives with the next event, where one does.
fn pass_on<N: Waits>(net: &mut N, to: Address) -> Option<Dialled> {
    match net.next() {
        Event::Arrived { link, .. } => {
            let owner = Owner {
                conn: link.0,
                request: 0,
            };
            Some(net.connect(owner, to))
        }
        Event::Idle => {
            let _waited = net.wait();
            None
        }
        _ => None,
    }
}

/// Connects to this address for the next client.
pub(crate) fn dial<N: Waits>(net: &mut N, to: Address) -> Dialled {
    for _ in 0..ROUNDS {
        if let Some(dialled) = pass_on(net, to) {
            return dialled;
        }
    }
    Dialled::Failed
}
