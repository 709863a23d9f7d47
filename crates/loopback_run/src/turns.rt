//! Turns of the server, until its client is done.
ghost use Rattle.std.specs.Prelude.{◌≡◌, ◌<◌};
ghost use Rattle.server_model.specs.Files.{IsTable, Backs};

use crate::client::{Bell, Client, Standing};
use conditions::Steps;
use lt_world::{Files, Waits};
use server_core::{Server, Turn};
use std::sync::ledger::{Blank, Ledger};
use std::thread::sleep;
use std::time::{Clock, Duration};

/// The most turns of a run, so that one that is stuck ends.
const TURN_LIMIT: u32 = 10_000;

/// Why no further turn is taken.
#[derive(Clone, Copy, Debug, PartialEq, Eq)]
pub enum Finish {
    /// The server has ended the connection.
    Ended,
    /// There is no memory for the next event, or for what the client got.
    NoMemory,
    /// The net can't wait for its next event.
    WaitFault,
    /// After `TURN_LIMIT` turns the connection had not ended.
    Stuck,
}

// The client looks at its socket. Where that does not move, the net waits for the bell, which was rung; where the bell
// cannot be rung yet, a millisecond goes by. Why no further turn is taken, where none is.
fn pass_time<R: Clock, N: Waits>(
    rt: &R,
    net: &mut N,
    client: &mut Client<'_>,
    bell: &mut Bell,
) -> Option<Finish>
    ensures { N.links net.new ≡ N.links net.old }
{
    match client.look() {
        Ok(Standing::Moved) => None,
        Ok(Standing::Ended) => Some(Finish::Ended),
        Ok(Standing::Waits) => {
            if !bell.ring() {
                sleep(rt, Duration::from_millis(1));
                return None;
            }
            match net.wait() {
                Ok(()) => None,
                Err(_) => Some(Finish::WaitFault),
            }
        }
        Err(_) => Some(Finish::NoMemory),
    }
}

/// Takes turns, until the server has ended the client's connection, by a ledger that was opened for the count of
/// comparisons alone. Where nothing is ready the client looks at its socket.
pub fn serve<R: Clock, N: Waits, F: Files, L: Ledger>(
    blank: Blank,
    rt: &R,
    server: &mut Server<'_>,
    net: &mut N,
    files: &mut F,
    client: &mut Client<'_>,
    bell: &mut Bell,
) -> Finish
    requires name { blank.name ≡ L.name }
    requires parts { blank.parts ≡ L.parts }
    requires some { 0 < L.parts }
    requires table { IsTable (N.links net.old) server.old.table }
    requires backs { F.tells → Backs (F.disk files.old).table server.old.table }
    ensures backs { F.tells → Backs (F.disk files.new).table server.new.table }
{
    let mut steps: Steps<L> = Steps::new(blank);
    for _ in 0..TURN_LIMIT {
        match server.turn(net, files, &mut steps) {
            Turn::Did => {}
            Turn::NoMemory => return Finish::NoMemory,
            Turn::Idle | Turn::Over => {
                if let Some(finish) = pass_time(rt, net, client, bell) {
                    return finish;
                }
            }
        }
    }
    Finish::Stuck
}
