// The open links by number, and their places.
ghost use Rattle.std.specs.Prelude.{◌≡◌, ◌<◌, ◌≤◌, ◌^◌, Some, IfOk, IfSome};
ghost use Rattle.mio_net.specs.Links.{no_links, Finds, FindsFree, opened, at, closed};

use crate::cells::{PLACES, cells};
use lt_bytes::NoMemory;
use std::alloc::Global;
use std::marker::Model;

/// How many links may be open: 257 clients with a gateway link each.
pub const LINKS: usize = 514;

const NUMBERS: u64 = 1 << 32;

/// Which links are open, at which places. A link's place is its number modulo 4,096, so it is found without a search,
/// and an old number that shares the place is told apart.
#[derive(Drop)]
pub struct Places {
    places: Vec<Option<u32>>,
    open: usize,
    // Above every number so far; at 2^32 no number is left.
    next: u64,
}

impl Model for Places {
    ghost use Rattle.mio_net.specs.Links.{Links};

    ghost Value = { Links };

    ghost use Rattle.mio_net.specs.LinksView.{links_of, AreLinks};

    ghost view = { links_of };

    ghost invariant = { AreLinks };
}

impl Places {
    /// No link is open.
    pub fn new(alloc: Global) -> Result<Places, NoMemory>
        ensures { IfOk result (λ places. places ≡ no_links) }
    {
        let places = cells(alloc)?;
        Ok(Places {
            places,
            open: 0,
            next: 0,
        })
    }

    /// The place of an open link.
    pub fn find(&self, number: u32) -> Option<usize>
        ensures found { Finds number result self.now }
        ensures within { IfSome result (λ place. place < 4096) }
    {
        let place = number as usize % PLACES;
        match self.places[place] {
            Some(held) if held == number => Some(place),
            _ => None,
        }
    }

    /// The link at a place.
    pub fn at(&self, place: usize) -> Option<u32>
        requires { place < 4096 }
        ensures held { result ≡ at place self.now }
        ensures below { IfSome result (λ number. number < self.now.next) }
    {
        self.places[place]
    }

    /// The number that the next link will have.
    pub fn free(&self) -> Option<u32>
        ensures { FindsFree result self.now }
    {
        if self.open >= LINKS {
            return None;
        }
        for number in self.next..NUMBERS {
            if self.places[(number % PLACES as u64) as usize].is_none() {
                return Some(number as u32);
            }
        }
        None
    }

    /// Opens the link of the next free number.
    pub fn open(&mut self, number: u32)
        requires { FindsFree (Some number) self.old }
        ensures { self.new ≡ opened number self.old }
    {
        self.places[number as usize % PLACES] = Some(number);
        self.open += 1;
        self.next = number as u64 + 1;
    }

    /// Closes the link at a place. Its number never comes again.
    pub fn close(&mut self, place: usize)
        requires { place < 4096 }
        ensures { self.new ≡ closed place self.old }
    {
        if self.places[place].is_some() {
            self.open -= 1;
        }
        self.places[place] = None;
    }
}
