// A queue of the numbers below 8,193 in which each stands once, so that its room is reserved at once.
ghost use Rattle.std.specs.Prelude.{◌≡◌, ◌<◌, [], IfOk, IfSome, length};
ghost use Rattle.mio_net.specs.Turns.{joined, TakesFirst};

use lt_bytes::NoMemory;
use std::alloc::Global;
use std::collections::VecDeque;
use std::marker::Model;

pub const NUMBERS: usize = 8193;

/// Numbers in the order in which they joined. Contracts see the list of them.
#[derive(Drop)]
pub struct Queue {
    // By number, whether it waits.
    waits: Vec<bool>,
    numbers: VecDeque<u16>,
}

impl Model for Queue {
    ghost use Rattle.std.specs.Prelude.{ℕ, List};

    ghost Value = { List ℕ };

    ghost use Rattle.mio_net.specs.QueueView.{numbers_of, IsQueue};

    ghost view = { numbers_of };

    ghost invariant = { IsQueue };
}

impl Queue {
    /// An empty queue, with room for every number.
    pub fn new(alloc: Global) -> Result<Queue, NoMemory>
        ensures { IfOk result (λ queue. queue ≡ []) }
    {
        let Ok(waits) = Vec::from_elem(alloc, false, NUMBERS) else {
            return Err(NoMemory);
        };
        let Ok(numbers) = VecDeque::with_capacity(alloc, NUMBERS) else {
            return Err(NoMemory);
        };
        Ok(Queue { waits, numbers })
    }

    /// Puts a number behind the others, unless it waits already.
    pub fn join(&mut self, number: usize)
        requires { number < 8193 }
        ensures { self.new ≡ joined number self.old }
    {
        if self.waits[number] {
            return;
        }
        self.waits[number] = true;
        self.numbers.push_back_reserved(number as u16);
    }

    /// Takes the first number out.
    pub fn pop(&mut self) -> Option<usize>
        ensures first { TakesFirst result self.old self.new }
        ensures within { IfSome result (λ number. number < 8193) }
    {
        match self.numbers.pop_front() {
            Some(number) => {
                let number = number as usize;
                self.waits[number] = false;
                Some(number)
            }
            None => None,
        }
    }

    pub fn len(&self) -> usize
        ensures { result ≡ length self.now }
    {
        self.numbers.len()
    }
}
