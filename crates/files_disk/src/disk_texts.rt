//! Texts out of real files, by their paths.
ghost use Rattle.lt_world.specs.TextAnswers.{FetchWithin};

use crate::names::name_of;
use crate::pieces::{Reading, read_whole};
use crate::refusals::{Refusal, refusal_of};
use lt_world::{Fetched, Texts};
use std::{fs, rt};

/// Named texts that are files, over the runtime `R`. They tell nothing of what the files hold. A text may come
/// through a pipe, and then a call waits for its writer.
#[derive(Drop)]
pub struct DiskTexts<R> {
    rt: R,
    faults: u64,
}

impl<R> DiskTexts<R> {
    pub fn new(rt: R) -> DiskTexts<R> {
        DiskTexts { rt, faults: 0 }
    }
}

impl<R: rt::Files + AllocGlobal> Texts for DiskTexts<R> {
    ghost use Rattle.std.specs.Prelude.{◌≤◌, [], None};
    ghost use Rattle.std.proofs.Common.{le_refl, le_trans};

    ghost tells = { ⊥ };

    ghost texts = { λ _ _. None };

    ghost calls = { λ _. [] };

    ghost faults = { λ texts. texts.faults };

    // What is later has failed as often or more.
    ghost later = { λ a b. a.faults ≤ b.faults };

    ghost later_same = { λ a. le_refl a.faults };

    ghost later_later = { λ _ _ _ ab bc. le_trans ab bc };

    ghost later_faults = { λ _ _ later. later };

    fn fetch(&mut self, name: &[u8], max: u64) -> Fetched {
        let fetched = fetch_by(&self.rt, name, max);
        if let Fetched::Failed = fetched {
            self.faults = self.faults.saturating_add(1);
        }
        fetched
    }
}

fn fetch_by<R: rt::Files + AllocGlobal>(rt: &R, name: &[u8], max: u64) -> Fetched
    ensures { FetchWithin result max }
{
    let Some(path) = name_of(name) else {
        return Fetched::Missing;
    };
    match fs::open(rt, path) {
        Ok(file) => {
            let mut source = Reading::new(file);
            read_whole(rt.alloc(), &mut source, max)
        }
        Err(error) => match refusal_of(&error) {
            Refusal::Missing => Fetched::Missing,
            Refusal::Failed => Fetched::Failed,
            Refusal::NoMemory => Fetched::NoMemory,
        },
    }
}
