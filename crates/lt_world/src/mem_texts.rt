//! Texts in memory, some of whose calls fail as planned. They tell all.
ghost use Rattle.std.specs.Prelude.{◌≡◌, ◌≤◌, OnOk, OnErr};
ghost use Rattle.lt_world.specs.Plans.{is_due, fails_at};
ghost use Rattle.lt_world.specs.TextAnswers.{FetchRight, FetchWithin};
ghost use Rattle.lt_world.specs.TextRuns.{after_fetch, FetchPlanned, library_by, library_of, no_texts, with_text, keeps_kind, HasText};

use crate::log::Log;
use crate::plan::Plan;
use crate::texts::{Fetch, FetchKind, Fetched, Texts};
use lt_bytes::{NoMemory, Text};
use std::alloc::Global;
use std::marker::Model;

#[derive(Drop)]
pub struct NamedText {
    pub name: Text,
    pub bytes: Text,
}

/// Texts that were added by hand. Contracts see them as what was added, the calls that were made and the plan.
#[derive(Drop)]
pub struct MemTexts {
    alloc: Global,
    texts: Vec<NamedText>,
    calls: Log<Fetch>,
    plan: Plan,
    faults: u64,
}

impl Model for MemTexts {
    ghost use Rattle.lt_world.specs.TextRuns.{Shelf};

    ghost Value = { Shelf };

    ghost view = { λ t. record { texts = t.texts.items; calls = t.calls; plan = t.plan; faults = t.faults } };
}

impl MemTexts {
    /// No texts, no calls, no plans.
    pub fn new(alloc: Global) -> MemTexts
        ensures { result ≡ no_texts }
    {
        MemTexts {
            alloc,
            texts: Vec::new(alloc),
            calls: Log::new(alloc),
            plan: Plan::new(alloc),
            faults: 0,
        }
    }

    /// Puts these bytes under a name, in place of those that are there.
    pub fn add(&mut self, name: &[u8], bytes: &[u8]) -> Result<(), NoMemory>
        ensures library { OnOk result (library_of self.new ≡ with_text name.now bytes.now (library_of self.old)) }
        ensures rest { self.new ≡ record self.old { texts = self.new.texts } }
        ensures err { OnErr result (self.new ≡ self.old) }
    {
        let name = Text::from_bytes(self.alloc, name)?;
        let bytes = Text::from_bytes(self.alloc, bytes)?;
        if self.texts.push(NamedText { name, bytes }).is_err() {
            return Err(NoMemory);
        }
        Ok(())
    }

    /// The call with this number, counted from 0, fails where the text is there and is not too long.
    pub fn plan(&mut self, nth: u32) -> Result<(), NoMemory>
        ensures ok { OnOk result (self.new ≡ record self.old { plan = fails_at nth self.old.plan }) }
        ensures err { OnErr result (self.new ≡ self.old) }
    {
        self.plan.add(nth)
    }

    fn answer(&self, name: &[u8], max: u64) -> Fetched
        ensures planned { FetchPlanned result (is_due self.now.plan) }
        ensures right { FetchRight result max (library_of self.now name.now) }
        ensures within { FetchWithin result max }
    {
        let Some(bytes) = last_named(&self.texts, name) else {
            return Fetched::Missing;
        };
        if bytes.len() as u64 > max {
            return Fetched::Long;
        }
        if self.plan.is_due() {
            return Fetched::Failed;
        }
        match Text::from_bytes(self.alloc, bytes) {
            Ok(text) => Fetched::Text(text),
            Err(_) => Fetched::NoMemory,
        }
    }

    fn fetch_next(&mut self, name: &[u8], max: u64) -> Fetched
        ensures becomes { self.new ≡ after_fetch result name.now self.old }
        ensures planned { FetchPlanned result (is_due self.old.plan) }
        ensures right { FetchRight result max (library_of self.old name.now) }
        ensures within { FetchWithin result max }
        ensures faults { self.old.faults ≤ self.new.faults }
    {
        let fetched = self.answer(name, max);
        let Some(answer) = kind(&fetched) else {
            return Fetched::NoMemory;
        };
        let Ok(name) = Text::from_bytes(self.alloc, name) else {
            return Fetched::NoMemory;
        };
        if self.calls.add(Fetch { name, answer }).is_err() {
            return Fetched::NoMemory;
        }
        self.plan.count();
        if let FetchKind::Failed = answer {
            self.faults = self.faults.saturating_add(1);
        }
        fetched
    }
}

// The kind of an answer that is kept.
fn kind(fetched: &Fetched) -> Option<FetchKind>
    ensures { keeps_kind fetched.now result }
{
    match fetched {
        Fetched::Text(_) => Some(FetchKind::Text),
        Fetched::Missing => Some(FetchKind::Missing),
        Fetched::Long => Some(FetchKind::Long),
        Fetched::Failed => Some(FetchKind::Failed),
        Fetched::NoMemory => None,
    }
}

// The bytes that were added last under a name.
fn last_named<'a>(texts: &'a [NamedText], name: &[u8]) -> Option<&'a [u8]>
    ensures { HasText result (library_by texts.now name.now) }
{
    let mut i = texts.len();
    while i > 0 {
        i -= 1;
        let text = &texts[i];
        if text.name.bytes() == name {
            return Some(text.bytes.bytes());
        }
    }
    None
}

impl Texts for MemTexts {
    ghost use Rattle.lt_world.specs.TextRuns.{TextsLater, TextsLater-same, TextsLater-more, TextsLater-faults};

    ghost tells = { Unit {0} };

    ghost texts = { library_of };

    ghost calls = { λ texts. texts.calls };

    ghost faults = { λ texts. texts.faults };

    ghost later = { TextsLater };

    ghost later_same = { TextsLater-same };

    ghost later_later = { TextsLater-more };

    ghost later_faults = { TextsLater-faults };

    fn fetch(&mut self, name: &[u8], max: u64) -> Fetched {
        self.fetch_next(name, max)
    }
}
