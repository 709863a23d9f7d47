//! A net with one client, which sends a request and takes nothing.
ghost use Rattle.std.specs.Prelude.{◌≡◌};

use lt_world::{Address, Dialled, Ending, Event, Got, Link, Net, NextKind, Owner, Took};

const PLACE: Address = Address {
    ip: [127, 0, 0, 1],
    port: 80,
};

/// The client arrives, is readable, and is writable; then nothing is ready any more.
#[derive(Drop)]
pub(crate) struct Failing {
    at: u64,
    /// Whether a read gives the request, or fails as a write does.
    reads: bool,
    faults: u64,
    last: NextKind,
    pub(crate) closed: Option<Ending>,
}

impl Failing {
    pub(crate) fn new(reads: bool) -> Failing
        ensures { result.at ≡ 0 }
    {
        Failing {
            at: 0,
            reads,
            faults: 0,
            last: NextKind::NoneYet,
            closed: None,
        }
    }
}

const REQUEST: &[u8; 32] = b"GET /a.txt HTTP/1.1\r\nHost: x\r\n\r\n";

impl Net for Failing {
    ghost use Rattle.std.specs.Prelude.{[], min};
    ghost use Rattle.std.specs.Prelude.{◌≤◌};
    ghost use Rattle.std.proofs.Common.{refl, le_refl, le_trans};

    ghost tells = { ⊥ };

    ghost trace = { λ _. [] };

    ghost faults = { λ net. net.faults };

    ghost wait_faults = { λ _. 0 };

    ghost last = { λ net. net.last };

    ghost ends = { ⊥ };

    ghost left = { λ _. 0 };

    ghost calls = { λ _. 1024 };

    ghost room = { λ _. 4096 };

    ghost links = { λ net. min net.at 1 };

    ghost later = { λ a b. a.faults ≤ b.faults };

    ghost later_same = { λ net. le_refl net.faults };

    ghost later_later = { λ a b c ab bc. le_trans ab bc };

    ghost later_faults = { λ a b later. later };

    ghost later_wait_faults = { λ a b later. refl };

    ghost later_left = { λ a b ends later. absurd ends };

    fn next(&mut self) -> Event {
        let event = match self.at {
            0 => Event::Arrived {
                link: Link(0),
                peer: PLACE,
                local: PLACE,
            },
            1 => Event::Readable(Link(0)),
            2 => Event::Writable(Link(0)),
            _ => {
                self.last = NextKind::Over;
                return Event::Over;
            }
        };
        self.at += 1;
        self.last = NextKind::Event;
        event
    }

    fn read(&mut self, _link: Link, buf: &mut [u8]) -> Got {
        if !self.reads || buf.len() < 32 {
            self.faults = self.faults.saturating_add(1);
            return Got::Failed;
        }
        buf[..32].copy_from_slice(&REQUEST[..32]);
        Got::Bytes(32)
    }

    fn write(&mut self, _link: Link, _bytes: &[u8]) -> Took {
        self.faults = self.faults.saturating_add(1);
        Took::Failed
    }

    fn connect(&mut self, _owner: Owner, _to: Address) -> Dialled {
        self.faults = self.faults.saturating_add(1);
        Dialled::Failed
    }

    fn close(&mut self, _link: Link, ending: Ending) {
        self.closed = Some(ending);
    }
}
