// Marks, and the ring from which those that are set are handed out in turn.
ghost use Rattle.std.specs.Prelude.{◌≡◌, ◌<◌, IfOk, IfSome, length};
ghost use Rattle.mio_net.specs.Turns.{number_of, IsMark, no_turns, marked, unmarked, offered, TakesTurn};

use crate::queue::{NUMBERS, Queue};
use lt_bytes::NoMemory;
use std::alloc::Global;
use std::marker::Model;

/// What may be possible now.
#[derive(Clone, Copy, Debug, PartialEq, Eq)]
pub enum Mark {
    /// A read of the link at this place.
    Readable(usize),
    /// A write to the link at this place.
    Writable(usize),
    /// The arrival of a client.
    Arrival,
}

impl Mark {
    fn number(self) -> usize
        requires { IsMark self }
        ensures number { result ≡ number_of self }
        ensures within { result < 8193 }
    {
        match self {
            Mark::Readable(place) => 2 * place,
            Mark::Writable(place) => 2 * place + 1,
            Mark::Arrival => 8192,
        }
    }

    fn from_number(number: usize) -> Mark
        requires { number < 8193 }
        ensures number { number_of result ≡ number }
        ensures within { IsMark result }
    {
        if number == 8192 {
            return Mark::Arrival;
        }
        if number % 2 == 0 {
            Mark::Readable(number / 2)
        } else {
            Mark::Writable(number / 2)
        }
    }
}

/// Which marks are set, and which of them are offered. A mark that was handed out is offered again only by a call: so
/// one that nobody uses costs nothing, and stays set.
#[derive(Drop)]
pub struct Ring {
    marked: Vec<bool>,
    queue: Queue,
}

impl Model for Ring {
    ghost use Rattle.mio_net.specs.Turns.{Turns};

    ghost Value = { Turns };

    ghost use Rattle.mio_net.specs.RingView.{turns_of, IsRing};

    ghost view = { turns_of };

    ghost invariant = { IsRing };
}

impl Ring {
    /// No mark is set, and there is room for all.
    pub fn new(alloc: Global) -> Result<Ring, NoMemory>
        ensures { IfOk result (λ ring. ring ≡ no_turns) }
    {
        let Ok(marked) = Vec::from_elem(alloc, false, NUMBERS) else {
            return Err(NoMemory);
        };
        let queue = Queue::new(alloc)?;
        Ok(Ring { marked, queue })
    }

    /// Sets a mark and offers it.
    pub fn set(&mut self, mark: Mark)
        requires { IsMark mark }
        ensures { self.new ≡ marked (number_of mark) self.old }
    {
        let number = mark.number();
        self.marked[number] = true;
        self.queue.join(number);
    }

    /// Takes a mark away.
    pub fn clear(&mut self, mark: Mark)
        requires { IsMark mark }
        ensures { self.new ≡ unmarked (number_of mark) self.old }
    {
        let number = mark.number();
        self.marked[number] = false;
    }

    /// Offers a mark again, where it is set.
    pub fn offer(&mut self, mark: Mark)
        requires { IsMark mark }
        ensures { self.new ≡ offered (number_of mark) self.old }
    {
        let number = mark.number();
        if self.marked[number] {
            self.queue.join(number);
        }
    }

    /// Hands out the next mark that is set.
    pub fn next(&mut self) -> Option<Mark>
        ensures turn { TakesTurn result self.old self.new }
        ensures within { IfSome result IsMark }
    {
        while let Some(number) = self.queue.pop() {
            if self.marked[number] {
                return Some(Mark::from_number(number));
            }
        }
        None
    }

    /// How many numbers wait, with those that will be passed over.
    pub fn len(&self) -> usize
        ensures { result ≡ length self.now.waiting }
    {
        self.queue.len()
    }
}
