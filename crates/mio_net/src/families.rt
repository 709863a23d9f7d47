// Families: a client's link and the gateway links that were dialled for it, so that a call on one of them offers the
// marks of all again.
ghost use Rattle.std.specs.Prelude.{◌≡◌, ◌<◌, IfOk};
ghost use Rattle.mio_net.specs.Families.{all_alone, behind, before, linked, alone, joins, leaves};

use crate::cells::cells;
use lt_bytes::NoMemory;
use std::alloc::Global;
use std::marker::Model;

/// By place, its neighbours in the circle of its family.
#[derive(Drop)]
pub struct Families {
    behind: Vec<Option<u16>>,
    before: Vec<Option<u16>>,
}

impl Model for Families {
    ghost use Rattle.mio_net.specs.Families.{Circles};

    ghost Value = { Circles };

    ghost use Rattle.mio_net.specs.FamiliesView.{circles_of, AreCircles};

    ghost view = { circles_of };

    ghost invariant = { AreCircles };
}

impl Families {
    /// Every place stands alone.
    pub fn new(alloc: Global) -> Result<Families, NoMemory>
        ensures { IfOk result (λ families. families ≡ all_alone) }
    {
        let behind = cells(alloc)?;
        let before = cells(alloc)?;
        Ok(Families { behind, before })
    }

    /// The next place of the family, round its circle.
    pub fn behind(&self, place: usize) -> usize
        requires { place < 4096 }
        ensures place { result ≡ behind place self.now }
        ensures within { result < 4096 }
    {
        match self.behind[place] {
            Some(other) => other as usize,
            None => place,
        }
    }

    fn before(&self, place: usize) -> usize
        requires { place < 4096 }
        ensures place { result ≡ before place self.now }
        ensures within { result < 4096 }
    {
        match self.before[place] {
            Some(other) => other as usize,
            None => place,
        }
    }

    fn link(&mut self, first: usize, second: usize)
        requires first { first < 4096 }
        requires second { second < 4096 }
        ensures { self.new ≡ linked first second self.old }
    {
        self.behind[first] = Some(second as u16);
        self.before[second] = Some(first as u16);
    }

    fn part(&mut self, place: usize)
        requires { place < 4096 }
        ensures { self.new ≡ alone place self.old }
    {
        self.behind[place] = None;
        self.before[place] = None;
    }

    /// Puts a place that is alone into the family of another.
    pub fn join(&mut self, place: usize, other: usize)
        requires place { place < 4096 }
        requires other { other < 4096 }
        ensures { self.new ≡ joins place other self.old }
    {
        let next = self.behind(other);
        self.link(place, next);
        self.link(other, place);
    }

    /// Takes a place out of its family.
    pub fn leave(&mut self, place: usize)
        requires { place < 4096 }
        ensures { self.new ≡ leaves place self.old }
    {
        let first = self.before(place);
        let second = self.behind(place);
        self.link(first, second);
        self.part(place);
    }
}
