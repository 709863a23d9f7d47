// The net over the sockets of the system: its counts, and the traits.
ghost use Rattle.std.specs.Prelude.{◌≡◌, IfOk};
ghost use Rattle.lt_world.specs.Answers.{kind_of};
ghost use Rattle.mio_net.specs.Nets.{no_counts};

use crate::sockets::Sockets;
use lt_bytes::NoMemory;
use lt_world::{
    Address, Dialled, Ending, Event, Fault, Got, Link, Net, NextKind, Owner, Took, Waits,
};
use std::alloc::AllocGlobal;
use std::marker::Model;
use std::net::Net as System;

/// Links over the sockets of the system. Contracts see its counts alone: nothing is told of what comes and goes.
#[derive(Drop)]
pub struct MioNet<R: System + Drop> {
    sockets: Sockets<R>,
    faults: u64,
    wait_faults: u64,
    last: NextKind,
}

impl<R: System + Drop> Model for MioNet<R> {
    ghost use Rattle.mio_net.specs.Nets.{Counts};

    ghost Value = { Counts };

    ghost view = { λ a. record { faults = a.faults; wait_faults = a.wait_faults; last = a.last; links = a.sockets.places.next } };
}

impl<R: System + Drop + AllocGlobal> MioNet<R> {
    /// No socket yet, and memory for 514 links: no later call takes any.
    pub fn new(rt: R) -> Result<MioNet<R>, NoMemory>
        ensures { IfOk result (λ net. net ≡ no_counts) }
    {
        let alloc = rt.alloc();
        let sockets = Sockets::new(rt, alloc)?;
        Ok(MioNet {
            sockets,
            faults: 0,
            wait_faults: 0,
            last: NextKind::NoneYet,
        })
    }
}

impl<R: System + Drop> MioNet<R> {
    /// The port at which it listens: the one that the system chose, where it was told to listen at port 0.
    pub fn port(&self) -> Option<u16> {
        self.sockets.port()
    }
}

fn kind_of(event: Event) -> NextKind
    ensures { result ≡ kind_of event }
{
    match event {
        Event::Arrived { .. } | Event::Readable(_) | Event::Writable(_) => NextKind::Event,
        Event::Idle => NextKind::Idle,
        Event::Over => NextKind::Over,
        Event::NoMemory => NextKind::NoMemory,
    }
}

impl<R: System + Drop> Net for MioNet<R> {
    ghost use Rattle.std.specs.Prelude.{[]};
    ghost use Rattle.mio_net.specs.Nets.{Becomes, Becomes-same, Becomes-more};

    ghost tells = { ⊥ };

    ghost trace = { λ _. [] };

    ghost faults = { λ net. net.faults };

    ghost wait_faults = { λ net. net.wait_faults };

    ghost last = { λ net. net.last };

    ghost ends = { ⊥ };

    ghost left = { λ _. 0 };

    ghost calls = { λ _. 1024 };

    ghost room = { λ _. 4096 };

    ghost links = { λ net. net.links };

    ghost later = { Becomes };

    ghost later_same = { Becomes-same };

    ghost later_later = { Becomes-more };

    ghost later_faults = { λ a b later. later.faults };

    ghost later_wait_faults = { λ a b later. later.wait_faults };

    ghost later_left = { λ a b ends later. absurd ends };

    fn next(&mut self) -> Event {
        let event = self.sockets.next();
        self.last = kind_of(event);
        event
    }

    fn read(&mut self, link: Link, buf: &mut [u8]) -> Got {
        let got = self.sockets.read(link, buf);
        if matches!(got, Got::Failed) {
            self.faults = self.faults.saturating_add(1);
        }
        got
    }

    fn write(&mut self, link: Link, bytes: &[u8]) -> Took {
        let took = self.sockets.write(link, bytes);
        if matches!(took, Took::Failed) {
            self.faults = self.faults.saturating_add(1);
        }
        took
    }

    fn connect(&mut self, owner: Owner, to: Address) -> Dialled {
        let dialled = self.sockets.connect(owner, to);
        if matches!(dialled, Dialled::Failed) {
            self.faults = self.faults.saturating_add(1);
        }
        dialled
    }

    fn close(&mut self, link: Link, _ending: Ending) {
        self.sockets.close(link);
    }
}

impl<R: System + Drop> Waits for MioNet<R> {
    ghost use Rattle.mio_net.specs.Nets.{Since, Becomes-since, Since-more};

    ghost since = { Since };

    ghost later_since = { Becomes-since };

    ghost since_since = { Since-more };

    ghost since_faults = { λ a b since. since.faults };

    ghost since_wait_faults = { λ a b since. since.wait_faults };

    ghost since_left = { λ a b ends since. absurd ends };

    fn listen(&mut self, at: Address) -> Result<(), Fault> {
        if self.sockets.listen(at).is_err() {
            self.faults = self.faults.saturating_add(1);
            self.wait_faults = self.wait_faults.saturating_add(1);
            return Err(Fault);
        }
        Ok(())
    }

    fn wait(&mut self) -> Result<(), Fault> {
        if !self.sockets.ask(None) {
            self.faults = self.faults.saturating_add(1);
            self.wait_faults = self.wait_faults.saturating_add(1);
            return Err(Fault);
        }
        Ok(())
    }
}
