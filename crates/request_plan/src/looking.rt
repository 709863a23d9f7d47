//! What a planner finds on the attributes of a request.
ghost use Rattle.std.specs.Prelude.{◌≡◌, ◌+◌, ◌*◌, ◌≤◌, Ok, Some, true, false, IfOk, IfSome, OnOk, slice_get};
ghost use Rattle.cond_cache.specs.Kept.{AreRight, conditions_in, with_physical};
ghost use Rattle.conditions.specs.Attributes.{attributes_of};
ghost use Rattle.static_files.specs.MediaTypes.{mime};
ghost use Rattle.server_model.specs.Settings.{settings_on};
ghost use Rattle.server_model.specs.Rewrites.{rewriting};
ghost use Rattle.request_settings.specs.Attributes.{attributes_on};
ghost use Rattle.request_plan.specs.Lent.{came, lent, wanted};
ghost use Rattle.request_plan.specs.Kept.{asked_of};
ghost use Rattle.request_plan.specs.Finding.{HasTypes};

use crate::planner::Planner;
use conditions::{Attrs, Steps};
use http_head::Request;
use http_target::Target;
use lt_bytes::NoMemory;
use request_settings::{
    Arrival, RequestLists, SettingsNow, is_rewritten_now, request_size_now, rewrite_now,
    settings_now,
};
use rewrite::Rewritten;
use settings::{Key, Place};
use static_files::mime;
use std::sync::ledger::Ledger;

impl<'c> Planner<'c> {
    /// The settings that count on these attributes.
    pub(crate) fn settings_on<L: Ledger>(
        &mut self,
        attrs: &Attrs<'_>,
        steps: &mut Steps<L>,
    ) -> Result<SettingsNow<'c>, NoMemory>
        requires right { AreRight self.old.site.blocks (attributes_of attrs.now) self.old.places }
        ensures site { self.new.site ≡ self.old.site }
        ensures settings { IfOk result (λ now. lent now.settings ≡ settings_on self.old.site.blocks (attributes_of attrs.now)) }
        ensures types { IfOk result (HasTypes self.old.site) }
        ensures right { AreRight self.old.site.blocks (attributes_of attrs.now) self.new.places }
        ensures steps { steps.new + asked_of self.old ≤ steps.old + asked_of self.new + wanted result }
        ensures few { asked_of self.new ≤ conditions_in self.old.site.blocks }
    {
        settings_now(
            self.alloc,
            self.config,
            &self.index,
            attrs,
            &mut self.conds,
            &mut self.matchers,
            steps,
        )
    }

    /// How many bytes the body of a request may have by these attributes.
    pub(crate) fn size_on<L: Ledger>(
        &mut self,
        attrs: &Attrs<'_>,
        steps: &mut Steps<L>,
    ) -> Result<u64, NoMemory>
        requires right { AreRight self.old.site.blocks (attributes_of attrs.now) self.old.places }
        ensures site { self.new.site ≡ self.old.site }
        ensures limit { IfOk result (λ limit. limit ≡ (settings_on self.old.site.blocks (attributes_of attrs.now)).body_limit) }
        ensures right { AreRight self.old.site.blocks (attributes_of attrs.now) self.new.places }
        ensures steps { steps.new + asked_of self.old ≤ steps.old + asked_of self.new + wanted result }
        ensures few { asked_of self.new ≤ conditions_in self.old.site.blocks }
    {
        request_size_now(
            self.alloc,
            self.config,
            &self.index,
            attrs,
            &mut self.conds,
            &mut self.matchers,
            steps,
        )
    }

    /// The attributes of a request of whose file, or directory, the path is known. Nothing that was found before counts.
    pub(crate) fn at_place<'r>(
        &mut self,
        attrs: &Attrs<'r>,
        path: &'r [u8],
        physical: &'r [u8],
    ) -> Attrs<'r>
        ensures site { self.new.site ≡ self.old.site }
        ensures attributes { attributes_of result ≡ with_physical path.now physical.now (attributes_of attrs.now) }
        ensures right { AreRight self.old.site.blocks (attributes_of result) self.new.places }
        ensures none { asked_of self.new ≡ 0 }
    {
        self.conds.set_physical(attrs, path, physical)
    }

    /// Whether a rule makes a new target of the one that was sent.
    pub(crate) fn is_rewritten<L: Ledger>(
        &mut self,
        arrival: Arrival,
        request: &Request,
        steps: &mut Steps<L>,
    ) -> Result<bool, NoMemory>
        requires right { AreRight self.old.site.blocks (attributes_on arrival request.now request.now.target) self.old.places }
        ensures site { self.new.site ≡ self.old.site }
        ensures same { result ≡ Ok false → rewriting self.old.site.blocks (Some (came arrival)) request.now
            ≡ record { answer = Rewritten.Same; target = request.now.target; passes = 0 } }
        ensures right { AreRight self.old.site.blocks (attributes_on arrival request.now request.now.target) self.new.places }
        ensures steps { steps.new + asked_of self.old ≤ steps.old + asked_of self.new + wanted result }
        ensures few { asked_of self.new ≤ conditions_in self.old.site.blocks }
    {
        let lists = RequestLists {
            config: self.config,
            index: &self.index,
            arrival,
            head: request,
        };
        is_rewritten_now(
            self.alloc,
            &lists,
            &request.target,
            &mut self.conds,
            &mut self.matchers,
            steps,
        )
    }

    /// Rewrites the target that was sent.
    pub(crate) fn rewrite<L: Ledger>(
        &mut self,
        arrival: Arrival,
        request: &Request,
        target: &mut Target,
        steps: &mut Steps<L>,
    ) -> Result<Rewritten, NoMemory>
        requires sent { target.old ≡ request.now.target }
        requires right { AreRight self.old.site.blocks (attributes_on arrival request.now request.now.target) self.old.places }
        requires few { asked_of self.old ≤ conditions_in self.old.site.blocks }
        ensures site { self.new.site ≡ self.old.site }
        ensures answer { IfOk result (λ answer. answer ≡ (rewriting self.old.site.blocks (Some (came arrival)) request.now).answer) }
        ensures target { OnOk result (target.new ≡ (rewriting self.old.site.blocks (Some (came arrival)) request.now).target) }
        ensures right { AreRight self.old.site.blocks (attributes_on arrival request.now target.new) self.new.places }
        ensures steps { OnOk result (steps.new + asked_of self.old
            ≤ steps.old + (rewriting self.old.site.blocks (Some (came arrival)) request.now).passes * conditions_in self.old.site.blocks + asked_of self.new) }
        ensures bounded { steps.new + asked_of self.old ≤ steps.old + (rewriting self.old.site.blocks (Some (came arrival)) request.now).passes * conditions_in self.old.site.blocks + asked_of self.new + 1 }
    {
        let lists = RequestLists {
            config: self.config,
            index: &self.index,
            arrival,
            head: request,
        };
        rewrite_now(
            self.alloc,
            &lists,
            target,
            &mut self.conds,
            &mut self.matchers,
            steps,
        )
    }

    /// The media type of a path.
    pub(crate) fn media_type(&self, now: &SettingsNow<'c>, path: &[u8]) -> &'c [u8]
        requires { HasTypes self.now.site now.now }
        ensures { result.now ≡ mime now.now.settings.mimetype_assign.now path.now }
    {
        match now.types_at {
            Some(place) => self.type_at(now, place, path),
            None => mime(now.settings.mimetype_assign, path),
        }
    }
}

impl<'c> Planner<'c> {
    /// The media type of a path by the list that is set at a place.
    fn type_at(&self, now: &SettingsNow<'c>, place: Place, path: &[u8]) -> &'c [u8]
        requires types { HasTypes self.now.site now.now }
        requires place { now.now.types_at ≡ Some place }
        ensures { result.now ≡ mime now.now.settings.mimetype_assign.now path.now }
    {
        match number_of(self.index.places(Key::MimetypeAssign), place) {
            Some(number) => self.types.mime(number, path),
            None => mime(now.settings.mimetype_assign, path),
        }
    }
}

fn is_same(a: Place, b: Place) -> bool
    ensures { result ≡ true → a ≡ b }
{
    a == b
}

/// The number of a place among these.
fn number_of(places: &[Place], place: Place) -> Option<usize>
    ensures { IfSome result (λ number. slice_get places.now number ≡ Some place) }
{
    for (number, other) in places.iter().enumerate() {
        if is_same(*other, place) {
            return Some(number);
        }
    }
    None
}
