//! Texts that remember under which names they were asked for.
use lt_bytes::{NoMemory, Text};
use lt_commands::Status;
use lt_world::{Fetched, Texts};
use std::alloc::Global;

/// Texts, and the names of those that came, in their order, unless memory for one was wanting.
#[derive(Drop)]
pub struct NamedTexts<X> {
    alloc: Global,
    texts: X,
    names: Vec<Text>,
    /// The name of the last call.
    last: Text,
    /// A name was not kept.
    lost: bool,
}

impl<X: Drop> NamedTexts<X> {
    pub fn new(alloc: Global, texts: X) -> NamedTexts<X> {
        NamedTexts {
            alloc,
            texts,
            names: Vec::new(alloc),
            last: Text::new(alloc),
            lost: false,
        }
    }

    /// The texts, and the name of the one in which a status says that something is wrong, if all names were kept.
    pub fn into_place(self, status: Status) -> Option<(X, Text)> {
        let NamedTexts {
            alloc: _,
            texts,
            mut names,
            last,
            lost,
        } = self;
        if lost {
            return None;
        }
        let name = match status {
            Status::Conf(fault) if (fault.file as usize) < names.len() => {
                names.swap_remove(fault.file as usize)
            }
            _ => last,
        };
        Some((texts, name))
    }
}

impl<X: Texts> Texts for NamedTexts<X> {
    ghost tells = { X.tells };

    ghost texts = { λ t. X.texts t.texts };

    ghost calls = { λ t. X.calls t.texts };

    ghost faults = { λ t. X.faults t.texts };

    // What is later has texts that are.
    ghost later = { λ a b. X.later a.texts b.texts };

    ghost later_same = { λ a. X.later_same a.texts };

    ghost later_later = { λ a b c ab bc. X.later_later a.texts b.texts c.texts ab bc };

    ghost later_faults = { λ a b later. X.later_faults a.texts b.texts later };

    fn fetch(&mut self, name: &[u8], max: u64) -> Fetched {
        let fetched = self.texts.fetch(name, max);
        let is_text = matches!(&fetched, Fetched::Text(_));
        if keep(self.alloc, &mut self.last, &mut self.names, name, is_text).is_err() {
            self.lost = true;
        }
        fetched
    }
}

// Keeps the name of a call, and among the others where its text came.
fn keep(
    alloc: Global,
    last: &mut Text,
    names: &mut Vec<Text>,
    name: &[u8],
    is_text: bool,
) -> Result<(), NoMemory> {
    *last = Text::from_bytes(alloc, name)?;
    if is_text {
        let kept = Text::from_bytes(alloc, name)?;
        if names.push(kept).is_err() {
            return Err(NoMemory);
        }
    }
    Ok(())
}
