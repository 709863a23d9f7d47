//! Makers of patterns.
ghost use Rattle.std.specs.Prelude.{◌≡◌, ◌≤◌, length};
ghost use Rattle.conditions.specs.Made.{MadeRight, SameOrNone, after_make, kind_of, nothing_asked};

use crate::made::{Asked, Made, MadeKind, PatternMaker};
use lt_bytes::{List, NoMemory, Text};
use regex::Error;
use regex::bytes::Regex;
use std::alloc::Global;
use std::marker::Model;

/// What `regex` makes of a text.
fn compiled(alloc: Global, text: &[u8]) -> Made
    ensures { MadeRight text.now result }
{
    let Ok(text) = std::str::from_utf8(text) else {
        return Made::Refused;
    };
    match Regex::new(alloc, text) {
        Ok(pattern) => Made::Pattern(pattern),
        Err(Error::OutOfMemory) => Made::NoMemory,
        Err(Error::Syntax(_)) => Made::Refused,
        Err(Error::CompiledTooBig) => Made::Refused,
        Err(Error::Internal) => Made::Refused,
    }
}

/// The kind of an answer, but for want of memory.
fn kind(made: &Made) -> Option<MadeKind>
    ensures { result ≡ kind_of made.now }
{
    match made {
        Made::Pattern(_) => Some(MadeKind::Pattern),
        Made::Refused => Some(MadeKind::Refused),
        Made::NoMemory => None,
    }
}

/// What a maker was asked, and how often it refused.
#[derive(Drop)]
struct Asking {
    alloc: Global,
    calls: List<Asked>,
    refusals: u64,
}

impl Model for Asking {
    ghost use Rattle.std.specs.Prelude.{reverse};
    ghost use Rattle.conditions.specs.Made.{Record};

    ghost Value = { Record };

    ghost view = { λ a. record { calls = reverse a.calls; refusals = a.refusals } };
}

impl Asking {
    fn new(alloc: Global) -> Asking
        ensures { result ≡ nothing_asked }
    {
        Asking {
            alloc,
            calls: List::new(alloc),
            refusals: 0,
        }
    }

    /// How many calls are kept.
    fn count(&self) -> usize
        ensures { result ≡ length self.now.calls }
    {
        self.calls.len()
    }

    /// Keeps a call with its answer, and answers it; without memory for that nothing is kept.
    fn keep(&mut self, text: &[u8], made: Made) -> Made
        requires { MadeRight text.now made }
        ensures right { MadeRight text.now result }
        ensures keeps { self.new ≡ after_make result text.now self.old }
        ensures same { SameOrNone made result }
        ensures refusals { self.old.refusals ≤ self.new.refusals }
    {
        let Some(answer) = kind(&made) else {
            return Made::NoMemory;
        };
        let Ok(text) = Text::from_bytes(self.alloc, text) else {
            return Made::NoMemory;
        };
        if self.calls.push(Asked { text, answer }).is_err() {
            return Made::NoMemory;
        }
        if let MadeKind::Refused = answer {
            self.refusals = self.refusals.saturating_add(1);
        }
        made
    }
}

/// Makes patterns by `regex`. It refuses what is not UTF-8, and what `regex` refuses.
#[derive(Drop)]
pub struct RegexMaker {
    asking: Asking,
}

impl RegexMaker {
    /// A maker that was asked nothing.
    pub fn new(alloc: Global) -> RegexMaker {
        RegexMaker {
            asking: Asking::new(alloc),
        }
    }
}

impl PatternMaker for RegexMaker {
    ghost calls = { λ maker. maker.asking.calls };

    ghost refusals = { λ maker. maker.asking.refusals };

    fn make(&mut self, text: &[u8]) -> Made {
        let made = compiled(self.asking.alloc, text);
        self.asking.keep(text, made)
    }
}

/// Makes patterns by `regex`, and refuses some calls besides, whatever they ask for.
#[derive(Drop)]
pub struct PlannedMaker {
    asking: Asking,
    refuse: Vec<u32>,
}

impl PlannedMaker {
    /// A maker that was asked nothing, and will refuse the calls with these numbers, counted from 0.
    pub fn new(alloc: Global, refuse: &[u32]) -> Result<PlannedMaker, NoMemory> {
        match Vec::from_slice(alloc, refuse) {
            Ok(refuse) => Ok(PlannedMaker {
                asking: Asking::new(alloc),
                refuse,
            }),
            Err(_) => Err(NoMemory),
        }
    }

    /// Whether the next call is to be refused.
    fn is_due(&self) -> bool {
        let made = self.asking.count() as u64;
        self.refuse.iter().any(|nth| u64::from(*nth) == made)
    }
}

impl PatternMaker for PlannedMaker {
    ghost calls = { λ maker. maker.asking.calls };

    ghost refusals = { λ maker. maker.asking.refusals };

    fn make(&mut self, text: &[u8]) -> Made {
        let made = if self.is_due() {
            Made::Refused
        } else {
            compiled(self.asking.alloc, text)
        };
        self.asking.keep(text, made)
    }
}
